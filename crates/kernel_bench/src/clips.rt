//! The files whose sound is decoded.

use crate::generator::Generator;
use crate::kind::Kind;
use plain_data::OutOfMemory;
use std::alloc::Global;

/// The bytes of the sound: 4 MiB.
const SOUND_BYTES: u32 = 4_194_304;

/// The bytes of a block of IMA ADPCM.
const BLOCK_BYTES: u32 = 256;

/// Where a block's header has the step index, by bytes from the block's beginning.
const STEP_INDEX: u32 = 2;

/// `RIFF`, a size that is not looked at, and `WAVE`.
const RIFF: &[u8] = b"RIFF\0\0\0\0WAVE";

/// The chunk of 2 channels of 16 bits, at 8000 frames a second of 4 bytes.
const PCM_16: &[u8] = b"fmt \x10\0\0\0\x01\0\x02\0\x40\x1f\0\0\x00\x7d\0\0\x04\0\x10\0";

/// The chunk of 2 channels of 24 bits, at 8000 frames a second of 6 bytes.
const PCM_24: &[u8] = b"fmt \x10\0\0\0\x01\0\x02\0\x40\x1f\0\0\x80\xbb\0\0\x06\0\x18\0";

/// The chunk of 2 channels of A-law, at 8000 frames a second of 2 bytes.
const ALAW: &[u8] = b"fmt \x10\0\0\0\x06\0\x02\0\x40\x1f\0\0\x80\x3e\0\0\x02\0\x08\0";

/// The chunk of 1 channel of IMA ADPCM, at 8000 frames a second in blocks of 256 bytes.
const IMA: &[u8] = b"fmt \x10\0\0\0\x11\0\x01\0\x40\x1f\0\0\xd7\x0f\0\0\x00\x01\x04\0";

/// The head of the chunk of the sound, with its size.
const DATA: &[u8] = b"data\0\0\x40\0";

/// A WAVE file of 4 MiB of sound of a kind.
pub fn make_file(alloc: Global, kind: Kind) -> Result<Vec<u8>, OutOfMemory> {
    let mut file = Vec::from_slice(alloc, RIFF)?;
    file.extend_from_slice(format_chunk(kind))?;
    file.extend_from_slice(DATA)?;
    let mut generator = Generator::new(1);
    for i in 0..SOUND_BYTES {
        file.push(sound_byte(kind, i, generator.next_byte()))?;
    }
    Ok(file)
}

fn format_chunk(kind: Kind) -> &'static [u8] {
    match kind {
        Kind::Pcm16 => PCM_16,
        Kind::Pcm24 => PCM_24,
        Kind::Alaw => ALAW,
        Kind::Ima => IMA,
    }
}

/// Byte `i` of the sound, made of one that was drawn: each step index is one of the table's 89.
fn sound_byte(kind: Kind, i: u32, drawn: u8) -> u8 {
    match kind {
        Kind::Ima if i % BLOCK_BYTES == STEP_INDEX => drawn % 89,
        _ => drawn,
    }
}
