//! Clips of noise, in several formats.

use clip_decode::{Clip, Cursor, Page, fill, pages};
use plain_data::OutOfMemory;
use std::alloc::{AllocError, Global};
use std::test::Fail;

/// How a sound is stored.
#[derive(Clone, Copy, Debug)]
pub(crate) struct Format {
    /// 1 for PCM, 6 for A-law, 7 for mu-law, 17 for IMA ADPCM.
    pub(crate) tag: u16,
    pub(crate) channels: u8,
    /// Bytes of a frame, or of a block of IMA ADPCM.
    pub(crate) align: u16,
    /// Bits of a sample.
    pub(crate) bits: u16,
}

/// Mono PCM of 16 bits.
pub(crate) const PCM_16: Format = Format {
    tag: 1,
    channels: 1,
    align: 2,
    bits: 16,
};

/// Mono IMA ADPCM in blocks of 505 frames.
pub(crate) const IMA: Format = Format {
    tag: 17,
    channels: 1,
    align: 256,
    bits: 4,
};

/// So many bytes of noise, by a linear congruential generator. In blocks of IMA ADPCM the step indices
/// are at most 88.
fn noise(alloc: Global, format: &Format, len: usize) -> Result<Vec<u8>, AllocError> {
    let mut bytes = Vec::new(alloc);
    let mut state: u32 = 1;
    for i in 0..len {
        state = state.wrapping_mul(1_664_525).wrapping_add(1_013_904_223);
        let byte = state.to_be_bytes()[0];
        let place = i % usize::from(format.align.max(1));
        let is_index = format.tag == 17
            && place < 4 * usize::from(format.channels)
            && place % 4 == 2;
        bytes.push(if is_index { byte % 89 } else { byte })?;
    }
    Ok(bytes)
}

/// A clip of so many frames, or blocks of IMA ADPCM, of noise.
pub(crate) fn clip(alloc: Global, format: &Format, frames: u16) -> Result<Clip, Fail> {
    let sound = noise(
        alloc,
        format,
        usize::from(frames) * usize::from(format.align),
    )?;
    let mut file = Vec::from_slice(alloc, b"RIFF\0\0\0\0WAVEfmt \x10\0\0\0")?;
    file.extend_from_slice(&format.tag.to_le_bytes())?;
    file.extend_from_slice(&u16::from(format.channels).to_le_bytes())?;
    file.extend_from_slice(&8_000u32.to_le_bytes())?;
    file.extend_from_slice(&[0; 4])?;
    file.extend_from_slice(&format.align.to_le_bytes())?;
    file.extend_from_slice(&format.bits.to_le_bytes())?;
    file.extend_from_slice(b"data")?;
    file.extend_from_slice(&u32::try_from(sound.len()).unwrap_or(u32::MAX).to_le_bytes())?;
    file.extend_from_slice(&sound)?;
    Ok(Clip::new(alloc, file).ok().ok_or("a clip")?)
}

/// The samples of each page of a clip, filled one after the other.
pub(crate) fn walked(alloc: Global, clip: &Clip) -> Result<Vec<Vec<i32>>, OutOfMemory> {
    let wave = clip.wave();
    let mut all = Vec::new(alloc);
    let mut cursor = Cursor::start();
    for k in 0..pages(wave) {
        let mut page = Page::new(alloc, wave.channels)?;
        fill(&mut cursor, clip, &mut page);
        all.push(Vec::from_slice(alloc, page.samples())?)?;
    }
    Ok(all)
}
