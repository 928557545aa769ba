//! Clips of noise, in several formats.
ghost use Rattle.std.specs.Prelude.{◌≡◌, ◌≤◌, All, IfOk, length};
ghost use Rattle.clip_decode.specs.ClipData.{ClipData};
ghost use Rattle.clip_decode.specs.Limits.{most_sound_bytes};

use clip_decode::Clip;
use std::alloc::{AllocError, Global};
use std::process::Abort;
use std::test::Fail;

/// How many formats there are.
pub const FORMATS: usize = 6;

/// How a sound is stored.
#[derive(Clone, Copy, Debug)]
struct Format {
    /// 1 for PCM, 6 for A-law, 7 for mu-law, 17 for IMA ADPCM.
    tag: u16,
    channels: u8,
    /// Bytes of a frame, or of a block of IMA ADPCM.
    align: u16,
    /// Frames of a block of IMA ADPCM, and else 1.
    block: u16,
    bits: u16,
}

/// PCM or G.711, where a sample takes its own bytes.
fn whole_bytes(tag: u16, channels: u8, align: u16, bits: u16) -> Format {
    Format {
        tag,
        channels,
        align,
        block: 1,
        bits,
    }
}

/// The formats by number.
fn format_of(number: usize) -> Format {
    match number {
        0 => whole_bytes(1, 1, 2, 16),
        1 => whole_bytes(1, 2, 2, 8),
        2 => whole_bytes(6, 1, 1, 8),
        3 => whole_bytes(1, 2, 6, 24),
        4 => whole_bytes(7, 2, 2, 8),
        _ => Format {
            tag: 17,
            channels: 1,
            align: 256,
            block: 505,
            bits: 4,
        },
    }
}

/// So many bytes of noise, by a linear congruential generator. In blocks of IMA ADPCM of one channel the
/// step indices are at most 88.
fn noise(alloc: Global, format: &Format, len: usize) -> Result<Vec<u8>, AllocError> {
    let mut bytes = Vec::new(alloc);
    let mut state: u32 = 1;
    for place in 0..len {
        state = state.wrapping_mul(1_664_525).wrapping_add(1_013_904_223);
        let byte = state.to_be_bytes()[0];
        let is_index = format.tag == 17 && place % 256 == 2;
        bytes.push(if is_index { byte % 89 } else { byte })?;
    }
    Ok(bytes)
}

/// A WAVE file of at least `frames` frames.
fn wave_file(alloc: Global, format: &Format, frames: u32) -> Result<Vec<u8>, AllocError> {
    let blocks = (frames as usize).div_ceil(usize::from(format.block.max(1)));
    let sound = noise(alloc, format, blocks * usize::from(format.align))?;
    let mut file = Vec::from_slice(alloc, b"RIFF\0\0\0\0WAVEfmt \x10\0\0\0")?;
    file.extend_from_slice(&format.tag.to_le_bytes())?;
    file.extend_from_slice(&u16::from(format.channels).to_le_bytes())?;
    file.extend_from_slice(&8_000u32.to_le_bytes())?;
    file.extend_from_slice(&[0; 4])?;
    file.extend_from_slice(&format.align.to_le_bytes())?;
    file.extend_from_slice(&format.bits.to_le_bytes())?;
    file.extend_from_slice(b"data")?;
    file.extend_from_slice(&u32::try_from(sound.len()).unwrap_or(u32::MAX).to_le_bytes())?;
    file.extend_from_slice(&sound)?;
    Ok(file)
}

/// A clip of at least `frames` frames, in one of the formats, by its number.
fn clip(rt: &impl Abort, alloc: Global, number: usize, frames: u32) -> Result<Clip, Fail>
    ensures { IfOk result (λ clip. length clip.bytes ≤ most_sound_bytes) }
{
    let clip = Clip::new(alloc, wave_file(alloc, &format_of(number), frames)?)
        .ok()
        .ok_or("a clip")?;
    assert!(rt; clip.bytes().len() <= 67_108_864);
    Ok(clip)
}

/// Clips in the first so many of the formats, in turn, which have at least so many frames. In the first
/// one alone, mono PCM of 16 bits, they have exactly so many.
pub fn clips(
    rt: &impl Abort,
    alloc: Global,
    formats: usize,
    frames: &[u32],
) -> Result<Vec<Clip>, Fail>
    ensures count { IfOk result (λ clips. length clips.items ≡ length frames.now) }
    ensures sizes { IfOk result (λ clips. All (λ (clip : ClipData). length clip.bytes ≤ most_sound_bytes) clips.items) }
{
    let mut clips = Vec::new(alloc);
    for (number, frames) in frames.iter().enumerate() {
        clips.push(clip(rt, alloc, number % formats.max(1), *frames)?)?;
    }
    Ok(clips)
}
