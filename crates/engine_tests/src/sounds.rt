//! Sounds of noise.

ghost use Rattle.std.specs.Prelude.{◌≤◌, All, IfOk, length};
ghost use Rattle.clip_decode.specs.ClipData.{ClipData};
ghost use Rattle.clip_decode.specs.Limits.{most_sound_bytes};

use crate::noise::bits;
use clip_decode::{Clip, MAX_SOUND_BYTES};
use plain_data::OutOfMemory;
use std::alloc::Global;
use std::test::Fail;
use wave_write::header;

/// What a sound of noise is like.
#[derive(Clone, Copy, Debug)]
pub struct Sound {
    pub stereo: bool,
    /// Whether its samples have 24 bits, and else 16.
    pub wide: bool,
    /// Frames a second.
    pub rate: u16,
    pub frames: u16,
}

/// A mono sound of 16 bits at 8000 Hz.
pub fn mono(frames: u16) -> Sound {
    Sound {
        stereo: false,
        wide: false,
        rate: 8000,
        frames,
    }
}

/// A stereo sound of 24 bits at this rate.
pub fn stereo(rate: u16, frames: u16) -> Sound {
    Sound {
        stereo: true,
        wide: true,
        rate,
        frames,
    }
}

/// The header of its file.
fn header_of(sound: Sound) -> [u8; 44] {
    let (rate, frames) = (u32::from(sound.rate), u32::from(sound.frames));
    match (sound.stereo, sound.wide) {
        (false, false) => header(1, rate, 16, frames),
        (false, true) => header(1, rate, 24, frames),
        (true, false) => header(2, rate, 16, frames),
        (true, true) => header(2, rate, 24, frames),
    }
}

/// The bytes of a frame.
fn frame_bytes(sound: Sound) -> u32
    ensures { result ≤ 6 }
{
    match (sound.stereo, sound.wide) {
        (false, false) => 2,
        (false, true) => 3,
        (true, false) => 4,
        (true, true) => 6,
    }
}

/// Its file, with noise.
fn file(alloc: Global, sound: Sound, seed: u64) -> Result<Vec<u8>, OutOfMemory> {
    let mut bytes = Vec::from_slice(alloc, &header_of(sound))?;
    for place in 0..u32::from(sound.frames) * frame_bytes(sound) {
        bytes.push((bits(seed, place) >> 56) as u8)?;
    }
    Ok(bytes)
}

/// The clip of its file.
fn clip(alloc: Global, sound: Sound, seed: u64) -> Result<Clip, Fail>
    ensures { IfOk result (λ clip. length clip.bytes ≤ most_sound_bytes) }
{
    let clip = Clip::new(alloc, file(alloc, sound, seed)?)?;
    if clip.bytes().len() as u64 > MAX_SOUND_BYTES {
        return Err(Fail::from("too many bytes"));
    }
    Ok(clip)
}

/// The clips of sounds.
pub fn clips(alloc: Global, sounds: &[Sound], seed: u64) -> Result<Vec<Clip>, Fail>
    ensures { IfOk result (λ clips. All (λ (c : ClipData). length c.bytes ≤ most_sound_bytes) clips.items) }
{
    let mut clips = Vec::new(alloc);
    let mut next = seed;
    for sound in sounds {
        next = bits(next, 0);
        clips.push(clip(alloc, *sound, next)?)?;
    }
    Ok(clips)
}
