//! Small WAVE files, chunk by chunk or by the fields of their format.

use std::alloc::{AllocError, Global};

/// `RIFF`, a size that is not looked at, and `WAVE`: 12 bytes.
pub const RIFF: &[u8] = b"RIFF\0\0\0\0WAVE";

/// `fmt ` chunks of mono PCM of 16 bits, and of 12 bits in containers of 16: 24 bytes each.
pub const PCM_16: &[u8] = b"fmt \x10\0\0\0\x01\0\x01\0\x40\x1f\0\0\x80\x3e\0\0\x02\0\x10\0";

pub const PCM_12: &[u8] = b"fmt \x10\0\0\0\x01\0\x01\0\x40\x1f\0\0\x80\x3e\0\0\x02\0\x0c\0";

/// An extensible `fmt ` chunk of stereo PCM of 24 bits: 48 bytes.
pub const PCM_24: &[u8] =
    b"fmt \x28\0\0\0\xfe\xff\x02\0\x40\x1f\0\0\x80\xbb\0\0\x06\0\x18\0\x16\0\x18\0\x03\0\0\0\x01\0\0\0\0\0\x10\0\x80\0\0\xaa\08\x9bq";

/// A file of this head and these parts, one after the other.
pub fn file(alloc: Global, head: &[u8], parts: &[&[u8]]) -> Result<Vec<u8>, AllocError> {
    let mut file = Vec::from_slice(alloc, head)?;
    for part in parts {
        file.extend_from_slice(part)?;
    }
    Ok(file)
}

/// The fields of a `fmt ` chunk that say how a sound is read.
#[derive(Clone, Copy, Debug)]
pub struct Format {
    /// 1 for PCM, 6 for A-law, 7 for mu-law, 17 for IMA ADPCM.
    pub tag: u16,
    pub channels: u8,
    /// Frames a second.
    pub rate: u32,
    /// Bytes of a frame, or of a block of IMA ADPCM.
    pub align: u16,
    /// Bits of a sample.
    pub bits: u16,
}

/// A file of this sound. Where `fact` is there, it counts the frames.
pub fn wave_file(
    alloc: Global,
    format: &Format,
    fact: Option<u32>,
    sound: &[u8],
) -> Result<Vec<u8>, AllocError> {
    let mut file = Vec::from_slice(alloc, b"RIFF\0\0\0\0WAVEfmt \x10\0\0\0")?;
    file.extend_from_slice(&format.tag.to_le_bytes())?;
    file.extend_from_slice(&u16::from(format.channels).to_le_bytes())?;
    file.extend_from_slice(&format.rate.to_le_bytes())?;
    file.extend_from_slice(&[0; 4])?;
    file.extend_from_slice(&format.align.to_le_bytes())?;
    file.extend_from_slice(&format.bits.to_le_bytes())?;
    if let Some(frames) = fact {
        file.extend_from_slice(b"fact\x04\0\0\0")?;
        file.extend_from_slice(&frames.to_le_bytes())?;
    }
    let len = u32::try_from(sound.len()).unwrap_or(u32::MAX);
    file.extend_from_slice(b"data")?;
    file.extend_from_slice(&len.to_le_bytes())?;
    file.extend_from_slice(sound)?;
    Ok(file)
}
