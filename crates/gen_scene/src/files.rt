//! The files of the scene: their names, and the bytes of the sounds.

ghost use Rattle.std.specs.Prelude.{◌≡◌, ◌*◌, ◌++◌, IfOk, OnOk, length, string_bytes};
ghost use Rattle.gen_scene.specs.Draws.{state};
ghost use Rattle.gen_scene.specs.Script.{script_name as script_name_of};
ghost use Rattle.gen_scene.specs.Sounds as spec;

use crate::draws::Draws;
use crate::noise_samples::noise;
use crate::sounds::{SOUND_FRAMES, sound_channels, sound_rate};
use plain_data::OutOfMemory;
use std::alloc::Global;
use wave_write::{header, pack};

/// The samples that are packed at once: a 45th part of the samples of a mono sound.
const BLOCK_SAMPLES: usize = 4900;

/// How many blocks a mono sound has; a stereo one has twice as many.
const BLOCKS: u32 = 45;

/// The name of sound `i`, `PREFIX-I.wav`.
///
/// # Errors
///
/// [`OutOfMemory`] where there is no memory.
pub fn sound_name(alloc: Global, prefix: &str, i: u32) -> Result<String, OutOfMemory>
    ensures { IfOk result (λ name. string_bytes name ≡ spec.sound_name prefix.now i) }
{
    Ok(format!(in alloc; "{prefix}-{i}.wav")?)
}

/// The name of the script, `PREFIX.toml`.
///
/// # Errors
///
/// [`OutOfMemory`] where there is no memory.
pub fn script_name(alloc: Global, prefix: &str) -> Result<String, OutOfMemory>
    ensures { IfOk result (λ name. string_bytes name ≡ script_name_of prefix.now) }
{
    Ok(format!(in alloc; "{prefix}.toml")?)
}

/// The WAVE file of sound `i`, from 0 to 7: a header of 44 bytes and PCM of 16 bits. Before the call
/// the sounds before it have taken their draws from `draws`, and after it this one has too.
///
/// # Errors
///
/// [`OutOfMemory`] where there is no memory; no clause says where `draws` is then.
pub fn sound_file(alloc: Global, draws: &mut Draws, i: u32) -> Result<Vec<u8>, OutOfMemory>
    ensures bytes { IfOk result (λ bytes. bytes.items ≡ spec.sound_from draws.old i) }
    ensures draws { OnOk result (draws.new ≡ state draws.old (spec.sound_samples i)) }
{
    let channels = sound_channels(i);
    let mut bytes = Vec::new(alloc);
    bytes.extend_from_slice(&header(channels, sound_rate(i), 16, SOUND_FRAMES))?;
    push_noise(alloc, draws, BLOCKS * u32::from(channels), &mut bytes)?;
    Ok(bytes)
}

/// Appends so many blocks of samples.
fn push_noise(
    alloc: Global,
    draws: &mut Draws,
    blocks: u32,
    bytes: &mut Vec<u8>,
) -> Result<(), OutOfMemory>
    ensures bytes { OnOk result (bytes.new.items ≡ bytes.old.items ++ spec.noise_bytes draws.old (4900 * blocks)) }
    ensures draws { OnOk result (draws.new ≡ state draws.old (4900 * blocks)) }
{
    let mut samples = [0; BLOCK_SAMPLES];
    push_blocks(alloc, draws, blocks, &mut samples, bytes)
}

/// Appends so many blocks, each of as many samples as there is room for.
fn push_blocks(
    alloc: Global,
    draws: &mut Draws,
    blocks: u32,
    room: &mut [i32],
    bytes: &mut Vec<u8>,
) -> Result<(), OutOfMemory>
    ensures bytes { OnOk result (bytes.new.items ≡ bytes.old.items ++ spec.noise_bytes draws.old (length room.old * blocks)) }
    ensures draws { OnOk result (draws.new ≡ state draws.old (length room.old * blocks)) }
{
    for _block in 0..blocks {
        noise(draws, room);
        pack(alloc, room, 16, bytes)?;
    }
    Ok(())
}
