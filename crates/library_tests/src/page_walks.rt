//! Walks over the pages of a file, against a plain decode of its whole sound.

use crate::sound_files::{Format, wave_file};
use clip_decode::{Clip, Cursor, Page, fill, pages};
use g711::{alaw, ulaw};
use ima_adpcm::{block_frames, block_into};
use plain_data::OutOfMemory;
use std::alloc::{AllocError, Global};
use std::process::Abort;
use std::test::Fail;

/// Samples of the largest block of IMA ADPCM here: 505 frames of two channels.
const ROOM: usize = 1010;

/// So many bytes of noise, by a linear congruential generator.
fn noise(alloc: Global, len: usize) -> Result<Vec<u8>, AllocError> {
    let mut bytes = Vec::new(alloc);
    let mut state: u32 = 1;
    for _ in 0..len {
        state = state.wrapping_mul(1_664_525).wrapping_add(1_013_904_223);
        bytes.push(state.to_be_bytes()[0])?;
    }
    Ok(bytes)
}

/// 8200 frames of noise, of so many bytes each.
fn noise_frames(alloc: Global, align: u16) -> Result<Vec<u8>, AllocError> {
    noise(alloc, 8200 * usize::from(align))
}

/// Noise in blocks of IMA ADPCM of `align` bytes, each with step indices of at most 88.
fn ima_noise(alloc: Global, channels: u8, align: u16, len: usize) -> Result<Vec<u8>, AllocError> {
    let mut bytes = noise(alloc, len)?;
    let header = 4 * usize::from(channels);
    for (i, byte) in bytes.iter_mut().enumerate() {
        let place = i % usize::from(align.max(1));
        if place < header && place % 4 == 2 {
            *byte %= 89;
        }
    }
    Ok(bytes)
}

/// The number of 24 bits in a container of 1 to 4 bytes.
fn pcm(container: &[u8]) -> i32 {
    match container {
        [a] => (i32::from(*a) - 128) * 65_536,
        [a, b] => i32::from(i16::from_le_bytes([*a, *b])) * 256,
        [a, b, c] => i32::from_le_bytes([0, *a, *b, *c]) >> 8,
        [a, b, c, d] => i32::from_le_bytes([*a, *b, *c, *d]) >> 8,
        _ => 0,
    }
}

/// The samples of a sound of 16 bits as numbers of 24 bits.
fn widen(alloc: Global, samples: &[i16]) -> Result<Vec<i32>, AllocError> {
    let mut wide = Vec::new(alloc);
    for sample in samples {
        wide.push(i32::from(*sample) * 256)?;
    }
    Ok(wide)
}

/// The samples of a block of IMA ADPCM.
fn block_samples(
    rt: &impl Abort,
    alloc: Global,
    channels: u8,
    block: &[u8],
) -> Result<Vec<i32>, OutOfMemory> {
    assert!(rt; 1 <= channels);
    assert!(rt; channels <= 8);
    assert!(rt; block.len() <= 65_535);
    let count = block_frames(block.len(), channels) * usize::from(channels);
    assert!(rt; count <= ROOM);
    let mut out = [0i16; ROOM];
    assert!(rt; block_into(block, channels, &mut out).is_ok());
    Ok(widen(alloc, &out[..count])?)
}

/// The samples of PCM in containers of so many bytes.
fn pcm_samples(alloc: Global, bytes: usize, sound: &[u8]) -> Result<Vec<i32>, AllocError> {
    let mut samples = Vec::new(alloc);
    for container in sound.chunks_exact(bytes.max(1)) {
        samples.push(pcm(container))?;
    }
    Ok(samples)
}

/// The samples of a sound of G.711.
fn companded(alloc: Global, is_alaw: bool, sound: &[u8]) -> Result<Vec<i32>, AllocError> {
    let mut samples = Vec::new(alloc);
    for code in sound {
        samples.push(if is_alaw { alaw(*code) } else { ulaw(*code) })?;
    }
    widen(alloc, &samples)
}

/// The samples of all blocks of IMA ADPCM.
fn ima_samples(
    rt: &impl Abort,
    alloc: Global,
    format: &Format,
    sound: &[u8],
) -> Result<Vec<i32>, OutOfMemory> {
    let mut samples = Vec::new(alloc);
    for block in sound.chunks(usize::from(format.align.max(1))) {
        let block = block_samples(rt, alloc, format.channels, block)?;
        samples.extend_from_slice(&block)?;
    }
    Ok(samples)
}

/// The samples of a whole sound, interleaved.
fn samples_of(
    rt: &impl Abort,
    alloc: Global,
    format: &Format,
    sound: &[u8],
) -> Result<Vec<i32>, OutOfMemory> {
    match format.tag {
        1 => Ok(pcm_samples(alloc, usize::from(format.bits / 8), sound)?),
        6 => Ok(companded(alloc, true, sound)?),
        7 => Ok(companded(alloc, false, sound)?),
        _ => ima_samples(rt, alloc, format, sound),
    }
}

/// The samples of each page of a clip.
fn walked(alloc: Global, clip: &Clip) -> Result<Vec<Vec<i32>>, OutOfMemory> {
    let wave = clip.wave();
    let mut all = Vec::new(alloc);
    let mut cursor = Cursor::start();
    for k in 0..pages(wave) {
        let mut page = Page::new(alloc, wave.channels)?;
        fill(&mut cursor, clip, &mut page);
        all.push(Vec::from_slice(alloc, page.samples())?)?;
    }
    Ok(all)
}

/// Walks over a file whose sound has so many frames, and compares each page with its part of the
/// whole sound.
fn walk(
    rt: &impl Abort,
    alloc: Global,
    format: &Format,
    fact: Option<u32>,
    sound: &[u8],
    frames: usize,
) -> Result<(), Fail> {
    let clip = Clip::new(alloc, wave_file(alloc, format, fact, sound)?);
    let clip = clip.ok().ok_or("a clip")?;
    assert_eq!(rt; clip.wave().frames, frames as u64, "{format:?}");
    let mut samples = samples_of(rt, alloc, format, sound)?;
    let channels = usize::from(format.channels.max(1));
    assert!(rt; frames <= 10_000);
    samples.truncate(frames * channels);
    let found = walked(alloc, &clip)?;
    let size = 8192 * channels;
    assert_eq!(rt; found.len(), samples.len().div_ceil(size), "{format:?}");
    for (page, want) in found.iter().zip(samples.chunks(size)) {
        assert!(rt; page.as_slice() == want, "{format:?}");
    }
    Ok(())
}

/// Linear PCM in containers of so many bytes, which stand without a gap.
fn pcm_format(channels: u8, bytes: u8) -> Format {
    Format {
        tag: 1,
        channels,
        rate: 8000,
        align: u16::from(channels) * u16::from(bytes),
        bits: 8 * u16::from(bytes),
    }
}

/// G.711, by its tag.
fn companded_format(tag: u16, channels: u8) -> Format {
    Format {
        tag,
        ..pcm_format(channels, 1)
    }
}

#[test]
fn a_walk_begins_at_page_0(rt: HostRuntime) -> Result<(), Fail> {
    assert_eq!(rt; Cursor::start().page(), 0);
    let page = Page::new(rt.alloc(), 2)?;
    assert_eq!(rt; page.channels(), 2);
    assert!(rt; page.samples().is_empty());
    Ok(())
}

#[test]
fn pages_have_8192_frames_and_the_last_one_the_rest(rt: HostRuntime) -> Result<(), Fail> {
    for frames in [0, 1, 8191, 8192, 8193] {
        let sound = noise(rt.alloc(), 2 * frames)?;
        walk(&rt, rt.alloc(), &pcm_format(1, 2), None, &sound, frames)?;
    }
    Ok(())
}

/// So many channels as linear PCM of each container, and as G.711.
fn walk_channels(rt: &impl Abort, alloc: Global, channels: u8) -> Result<(), Fail> {
    for format in [
        pcm_format(channels, 1),
        pcm_format(channels, 2),
        pcm_format(channels, 3),
        pcm_format(channels, 4),
        companded_format(6, channels),
        companded_format(7, channels),
    ] {
        let sound = noise_frames(alloc, format.align)?;
        walk(rt, alloc, &format, None, &sound, 8200)?;
    }
    Ok(())
}

#[test]
fn pages_interleave_one_to_eight_channels(rt: HostRuntime) -> Result<(), Fail> {
    for channels in 1..9 {
        walk_channels(&rt, rt.alloc(), channels)?;
    }
    Ok(())
}

/// IMA ADPCM: the channels, the bytes of a block and of the whole sound, the count of frames that
/// the file states, and the frames of its sound.
const IMA: [(u8, u16, usize, Option<u32>, usize); 10] = [
    // Mono blocks of 505 frames.
    (1, 256, 17 * 256, None, 8585),
    (1, 256, 17 * 256, Some(8191), 8191),
    (1, 256, 17 * 256, Some(8192), 8192),
    (1, 256, 17 * 256, Some(8193), 8193),
    // Stereo blocks of 1, of 65 and of 505 frames, of which none divides a page but the first.
    (2, 8, 8200 * 8, None, 8200),
    (2, 72, 127 * 72, None, 8255),
    (2, 512, 17 * 512, Some(8500), 8500),
    // A short last block: its header alone, and its header, a group of eight and three bytes.
    (2, 512, 17 * 512 + 8, None, 8586),
    (2, 72, 127 * 72 + 8 + 8 + 3, None, 8264),
    // Eight channels in blocks of nine frames.
    (8, 64, 911 * 64, None, 8199),
];

#[test]
fn pages_of_ima_go_on_inside_a_block(rt: HostRuntime) -> Result<(), Fail> {
    let alloc = rt.alloc();
    for (channels, align, len, fact, frames) in IMA {
        let format = Format {
            tag: 17,
            channels,
            rate: 8000,
            align,
            bits: 4,
        };
        let sound = ima_noise(alloc, channels, align, len)?;
        walk(&rt, alloc, &format, fact, &sound, frames)?;
    }
    Ok(())
}

/// 17 mono blocks of 505 frames: page 1 begins with frame 112 of block 16, since
/// 8192 = 16 * 505 + 112, and has the 393 frames that are left.
#[test]
fn a_page_begins_at_frame_112_of_a_block(rt: HostRuntime) -> Result<(), Fail> {
    let alloc = rt.alloc();
    let format = Format {
        tag: 17,
        channels: 1,
        rate: 8000,
        align: 256,
        bits: 4,
    };
    let sound = ima_noise(alloc, 1, 256, 4352)?;
    let clip = Clip::new(alloc, wave_file(alloc, &format, None, &sound)?);
    let clip = clip.ok().ok_or("a clip")?;
    let found = walked(alloc, &clip)?;
    assert!(rt; found.len() == 2);
    assert_eq!(rt; found[0].len(), 8192);
    assert_eq!(rt; found[1].len(), 393);
    assert!(rt; sound.len() == 4352);
    let block = block_samples(&rt, alloc, 1, &sound[4096..])?;
    assert!(rt; block.len() == 505);
    assert_eq!(rt; found[1].as_slice(), &block[112..]);
    Ok(())
}
