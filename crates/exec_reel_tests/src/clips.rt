//! Clips for the tests.
use clip_decode::{Clip, Cursor, Page, fill, pages};
use plain_data::OutOfMemory;
use std::alloc::{AllocError, Global};
use std::test::Fail;

/// A mono file of this sound: the tag of its format, the bytes of a frame or of a block, and the bits of a
/// sample.
fn wave_file(
    alloc: Global,
    tag: u16,
    align: u16,
    bits: u16,
    sound: &[u8],
) -> Result<Vec<u8>, AllocError> {
    let mut file = Vec::from_slice(alloc, b"RIFF\0\0\0\0WAVEfmt \x10\0\0\0")?;
    file.extend_from_slice(&tag.to_le_bytes())?;
    file.extend_from_slice(b"\x01\0\x40\x1f\0\0\0\0\0\0")?;
    file.extend_from_slice(&align.to_le_bytes())?;
    file.extend_from_slice(&bits.to_le_bytes())?;
    let len = u32::try_from(sound.len()).unwrap_or(u32::MAX);
    file.extend_from_slice(b"data")?;
    file.extend_from_slice(&len.to_le_bytes())?;
    file.extend_from_slice(sound)?;
    Ok(file)
}

/// A mono clip of so many frames of 16 bits, of which frame n has n mod 100 in its high byte.
pub(crate) fn pcm_clip(alloc: Global, frames: u32) -> Result<Clip, Fail> {
    let mut sound = Vec::new(alloc);
    for n in 0..frames {
        sound.extend_from_slice(&[0, (n % 100) as u8])?;
    }
    let clip = Clip::new(alloc, wave_file(alloc, 1, 2, 16, &sound)?);
    Ok(clip.ok().ok_or("a clip")?)
}

/// A mono clip of noise in so many blocks of IMA ADPCM of 256 bytes, which have 505 frames each.
pub(crate) fn ima_clip(alloc: Global, blocks: usize) -> Result<Clip, Fail> {
    let mut sound = Vec::new(alloc);
    let mut state: u32 = 1;
    for _ in 0..blocks {
        sound.extend_from_slice(&[0, 0, 44, 0])?;
        for _ in 0..252u32 {
            state = state.wrapping_mul(1_664_525).wrapping_add(1_013_904_223);
            sound.push(state.to_be_bytes()[0])?;
        }
    }
    let clip = Clip::new(alloc, wave_file(alloc, 17, 256, 4, &sound)?);
    Ok(clip.ok().ok_or("a clip")?)
}

/// The samples of each page of a clip, decoded on one thread.
pub(crate) fn walked(alloc: Global, clip: &Clip) -> Result<Vec<Vec<i32>>, OutOfMemory> {
    let wave = clip.wave();
    let mut all = Vec::new(alloc);
    let mut cursor = Cursor::start();
    for k in 0..pages(wave) {
        let mut page = Page::new(alloc, wave.channels)?;
        fill(&mut cursor, clip, &mut page);
        all.push(Vec::from_slice(alloc, page.samples())?)?;
    }
    Ok(all)
}
