//! The file that effects on a clip are written to, in pieces.

ghost use Rattle.std.specs.Prelude.{◌≡◌, ◌≤◌, ◌++◌, ℕ, List, None, Some, All, IfOk, OnOk, IsSome, IsTrue, length};
ghost use Rattle.engine.specs.RunAnswers.{answer_of};
ghost use Rattle.fx_nodes.specs.Effects.{is_in_range, most_effects};
ghost use Rattle.fx_nodes.specs.Stages.{effects_in};
ghost use Rattle.snd_io.specs.Answers.{put_failed};
ghost use Rattle.snd_io.specs.Faults.{CountsFaults};
ghost use Rattle.snd_io.specs.Runs.{RunOfAppends, SetsFile};
ghost use Rattle.wave_write.specs.Samples.{packed};
ghost use Rattle.fx_render.specs.Blocks.{IsRendered, IsRendering};
ghost use Rattle.fx_render.specs.Effected.{effected, effected_summary, effected_wav, file_bytes, most_frames, width};

use crate::blocks::Blocks;
use crate::wav_file::{STEREO, WIDTH};
use clip_decode::Clip;
use engine::RunFault;
use engine::open_file::{append, done, without_memory};
use fx_nodes::Effect;
use mix_model::Summary;
use plain_data::OutOfMemory;
use snd_io::Depot;
use std::alloc::Global;
use wave_write::header;

/// The most frames of a block.
const BLOCK_FRAMES: u32 = 512;

/// Sets OUT to the WAVE file of what effects, one after the other, make of the first `count` frames of a clip, at most
/// 16777216: at its rate, in two channels and 24 bits. A frame of one channel is heard in both, and of more than two the first
/// two are. Past the end of the clip there are frames of 0. The answer is the summary of the samples that are written.
///
/// At most 16 effects are given, each in range ([`Effect::is_in_range`]). OUT is created, gets one append for the
/// 44-byte header and one for each block of 512 frames, and is finished. All memory but that of a block is taken before OUT is
/// created.
///
/// # Errors
///
/// [`RunFault::DepotFault`] where the store failed, and [`RunFault::OutOfMemory`] where there was no memory. Then the
/// files are as before, or have OUT set to a prefix of its bytes. On every answer no file is open, and every other file
/// is as before.
pub fn render_effects<D: Depot>(
    alloc: Global,
    clip: Clip,
    effects: &[Effect],
    count: u32,
    depot: &mut D,
    out: &str,
) -> Result<Summary, RunFault>
    requires effects { length effects.now ≤ most_effects }
    requires numbers { All (λ effect. IsTrue (is_in_range effect)) effects.now }
    requires count { count ≤ most_frames }
    requires closed { D.writing depot.old ≡ None }
    ensures after { SetsFile (answer_of result) out.now (effected_wav clip.bytes effects.now count) (D.files depot.old) (D.files depot.new) }
    ensures closed { D.writing depot.new ≡ None }
    ensures cause { CountsFaults (D.faults depot.old) (D.faults depot.new) (put_failed (answer_of result)) }
    ensures summary { IfOk result (λ summary. summary ≡ effected_summary clip.bytes effects.now count) }
    ensures size { OnOk result (length (effected_wav clip.bytes effects.now count) ≡ file_bytes count) }
{
    let mut blocks = Blocks::open(alloc, clip, effects)?;
    write_out(alloc, &mut blocks, count, depot, out)
}

/// Sets OUT to the WAVE file of so many frames, the first of which comes next.
fn write_out<D: Depot>(
    alloc: Global,
    blocks: &mut Blocks,
    count: u32,
    depot: &mut D,
    out: &str,
) -> Result<Summary, RunFault>
    requires rendering { IsRendering blocks.old }
    requires start { blocks.old.reader.next ≡ 0 }
    requires count { count ≤ most_frames }
    requires closed { D.writing depot.old ≡ None }
    ensures after { SetsFile (answer_of result) out.now (effected_wav blocks.old.reader.clip.bytes (effects_in blocks.old.chain) count) (D.files depot.old) (D.files depot.new) }
    ensures closed { D.writing depot.new ≡ None }
    ensures cause { CountsFaults (D.faults depot.old) (D.faults depot.new) (put_failed (answer_of result)) }
    ensures rendered { OnOk result (IsRendered count blocks.old blocks.new) }
    ensures summary { IfOk result (λ summary. summary ≡ blocks.new.summary) }
    ensures size { OnOk result (length (effected_wav blocks.old.reader.clip.bytes (effects_in blocks.old.chain) count) ≡ file_bytes count) }
{
    done(depot.create(alloc, out))?;
    append_wav(alloc, blocks, count, depot)?;
    done(depot.finish())?;
    Ok(blocks.summary)
}

/// Appends the header and the frames to the open file. Where it stops, no file is open.
fn append_wav<D: Depot>(
    alloc: Global,
    blocks: &mut Blocks,
    count: u32,
    depot: &mut D,
) -> Result<(), RunFault>
    requires rendering { IsRendering blocks.old }
    requires start { blocks.old.reader.next ≡ 0 }
    requires count { count ≤ most_frames }
    requires writing { IsSome (D.writing depot.old) }
    ensures after { (name : List ℕ) → D.writing depot.old ≡ Some name →
        RunOfAppends (answer_of result) name (effected_wav blocks.old.reader.clip.bytes (effects_in blocks.old.chain) count)
        (D.files depot.old) (D.files depot.new) (D.writing depot.new) }
    ensures cause { CountsFaults (D.faults depot.old) (D.faults depot.new) (put_failed (answer_of result)) }
    ensures rendered { OnOk result (IsRendered count blocks.old blocks.new) }
{
    let rate = blocks.reader.clip.wave().rate;
    append(alloc, depot, &header(STEREO, rate, WIDTH, count))?;
    append_blocks(alloc, blocks, count, depot)
}

/// Appends all frames, block by block.
fn append_blocks<D: Depot>(
    alloc: Global,
    blocks: &mut Blocks,
    count: u32,
    depot: &mut D,
) -> Result<(), RunFault>
    requires rendering { IsRendering blocks.old }
    requires start { blocks.old.reader.next ≡ 0 }
    requires count { count ≤ most_frames }
    requires writing { IsSome (D.writing depot.old) }
    ensures after { (name : List ℕ) → D.writing depot.old ≡ Some name →
        RunOfAppends (answer_of result) name (packed width (effected blocks.old.reader.clip.bytes (effects_in blocks.old.chain) count))
        (D.files depot.old) (D.files depot.new) (D.writing depot.new) }
    ensures cause { CountsFaults (D.faults depot.old) (D.faults depot.new) (put_failed (answer_of result)) }
    ensures rendered { OnOk result (IsRendered count blocks.old blocks.new) }
{
    while blocks.reader.next < count {
        let frames = BLOCK_FRAMES.min(count - blocks.reader.next);
        match blocks.next(alloc, frames) {
            Ok(()) => (),
            Err(OutOfMemory) => return Err(without_memory(depot)),
        }
        append(alloc, depot, blocks.bytes.as_slice())?;
    }
    Ok(())
}
