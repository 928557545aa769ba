//! A scene's WAVE file, written to a sink.

ghost use Rattle.std.specs.Prelude.{◌≡◌, ◌<◌, ◌≤◌, All, length, map, IfOk};
ghost use Rattle.clip_decode.specs.ClipData.{ClipData};
ghost use Rattle.snd_io.specs.Answers.{put_failed, Writes};
ghost use Rattle.snd_io.specs.Faults.{CountsFaults};
ghost use Rattle.mix_model.specs.Mix.{frames_from, mix};
ghost use Rattle.mix_model.specs.Output.{wav};
ghost use Rattle.mix_model.specs.Rendering.{data_of, summary_of, IsRendered, answer_of};
ghost use Rattle.clip_decode.specs.Limits.{most_sound_bytes};

use crate::blocks::Blocks;
use crate::mix_fault::MixFault;
use crate::summary::Summary;
use crate::wav_file::{scene_header, write_padding};
use clip_decode::Clip;
use scene_model::Scene;
use snd_io::{Put, Sink};
use std::alloc::Global;

/// Mixes a scene frame by frame and writes its WAVE file to a sink: the 44-byte header, the frames,
/// interleaved and packed at the scene's width, and the pad byte if there is one (RIFF WAVE). The
/// answer is the summary of the frames.
///
/// `clips` are those of the scene's resources, in their order, each of at most 67,108,864 bytes.
/// Each attached bus is taken once a frame and channel, in a topological order that is found anew
/// only after edits.
///
/// # Errors
///
/// `SinkFault` where the sink failed, and `OutOfMemory` where there was no memory. Then a prefix of
/// the file was written.
pub fn plain_mix<S: Sink>(
    alloc: Global,
    scene: &Scene,
    clips: &[Clip],
    sink: &mut S,
) -> Result<Summary, MixFault>
    requires count { length clips.now ≡ length scene.now.resources }
    requires sizes { All (λ (c : ClipData). length c.bytes ≤ most_sound_bytes) clips.now }
    ensures written { let frames = mix scene.now (map (λ (c : ClipData). c.bytes) clips.now) in
        Writes (answer_of result) (wav scene.now frames) (S.written sink.old) (S.written sink.new) }
    ensures cause { CountsFaults (S.faults sink.old) (S.faults sink.new) (put_failed (answer_of result)) }
    ensures summary { let frames = mix scene.now (map (λ (c : ClipData). c.bytes) clips.now) in
        IfOk result (λ summary. summary ≡ summary_of scene.now frames) }
{
    let mut blocks = Blocks::new(alloc, scene, clips)?;
    write_wav(alloc, scene, &mut blocks, sink)?;
    Ok(blocks.summary)
}

/// Writes the header, the frames and the pad byte if there is one.
fn write_wav<S: Sink>(
    alloc: Global,
    scene: &Scene,
    blocks: &mut Blocks,
    sink: &mut S,
) -> Result<(), MixFault>
    requires rendered { IsRendered scene.now blocks.old }
    requires start { blocks.old.player.time ≡ 0 }
    ensures after { let frames = frames_from blocks.old.player.clips.items scene.now 0 scene.now.length in
        Writes (answer_of result) (wav scene.now frames) (S.written sink.old) (S.written sink.new) }
    ensures cause { CountsFaults (S.faults sink.old) (S.faults sink.new) (put_failed (answer_of result)) }
    ensures summary { let frames = frames_from blocks.old.player.clips.items scene.now 0 scene.now.length in
        IfOk result (λ _. blocks.new.summary ≡ summary_of scene.now frames) }
{
    done(sink.write(alloc, &scene_header(scene)))?;
    write_frames(alloc, scene, blocks, sink)?;
    done(write_padding(alloc, scene, sink))
}

/// Writes all frames, block by block.
fn write_frames<S: Sink>(
    alloc: Global,
    scene: &Scene,
    blocks: &mut Blocks,
    sink: &mut S,
) -> Result<(), MixFault>
    requires rendered { IsRendered scene.now blocks.old }
    requires start { blocks.old.player.time ≡ 0 }
    ensures after { let frames = frames_from blocks.old.player.clips.items scene.now 0 scene.now.length in
        Writes (answer_of result) (data_of scene.now frames) (S.written sink.old) (S.written sink.new) }
    ensures cause { CountsFaults (S.faults sink.old) (S.faults sink.new) (put_failed (answer_of result)) }
    ensures summary { let frames = frames_from blocks.old.player.clips.items scene.now 0 scene.now.length in
        IfOk result (λ _. blocks.new.summary ≡ summary_of scene.now frames) }
{
    while blocks.player.time < scene.length {
        blocks.next(alloc, scene)?;
        done(sink.write(alloc, blocks.bytes.as_slice()))?;
    }
    Ok(())
}

/// What a write to the sink was answered, as a result.
fn done(put: Put) -> Result<(), MixFault>
    ensures { answer_of result ≡ put }
{
    put.into_result()?;
    Ok(())
}
