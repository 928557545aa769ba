ghost use Rattle.std.specs.Prelude.{◌≡◌, ℕ, List, None, IfOk, OnOk, length, string_bytes};
ghost use Rattle.fx_nodes.specs.declared.effect.Effect.{Effect};
ghost use Rattle.fx_render.specs.Effected.{effected_summary, effected_wav, file_bytes};
ghost use Rattle.scene_clips.specs.ClipFrames.{file_rate};
ghost use Rattle.snd_io.specs.Answers.{put_failed, put_of};
ghost use Rattle.snd_io.specs.Faults.{CountsFaults};
ghost use Rattle.snd_io.specs.Runs.{SetsFile};
ghost use Rattle.snd_status.specs.Texts.{mix_text};
ghost use Rattle.snd_tools.specs.CommandsRead.{CanBeHeard};
ghost use Rattle.snd_tools.specs.Outcome as spec;

use crate::rendering::put_result;
use clip_decode::Clip;
use fx_nodes::Effect;
use fx_render::{STEREO, WIDTH, file_bytes, render_effects};
use mix_model::Summary;
use plain_data::OutOfMemory;
use snd_io::{Depot, PutFault};
use snd_status::MixReport;
use std::alloc::Global;

/// Sets OUT to the WAVE file of what effects make of the first `count` frames of a clip, and answers the summary of its
/// samples.
pub(crate) fn write_effects<D: Depot>(
    alloc: Global,
    clip: Clip,
    effects: &[Effect],
    count: u32,
    depot: &mut D,
    out: &str,
) -> Result<Summary, PutFault>
    requires limits { CanBeHeard count effects.now }
    requires closed { D.writing depot.old ≡ None }
    ensures after { SetsFile (put_of result) out.now (effected_wav clip.bytes effects.now count) (D.files depot.old) (D.files depot.new) }
    ensures closed { D.writing depot.new ≡ None }
    ensures cause { CountsFaults (D.faults depot.old) (D.faults depot.new) (put_failed (put_of result)) }
    ensures size { OnOk result (length (effected_wav clip.bytes effects.now count) ≡ file_bytes count) }
    ensures summary { IfOk result (λ summary. summary ≡ effected_summary clip.bytes effects.now count) }
{
    put_result(render_effects(alloc, clip, effects, count, depot, out))
}

/// The line of effects on a file of that rate, whose samples have that summary.
pub(crate) fn fx_line(
    alloc: Global,
    rate: u32,
    count: u32,
    summary: Summary,
) -> Result<String, OutOfMemory>
    ensures { (bytes : List ℕ) (effects : List Effect) → rate ≡ file_rate bytes → length (effected_wav bytes effects count) ≡ file_bytes count
        → summary ≡ effected_summary bytes effects count
        → IfOk result (λ text. string_bytes text ≡ spec.line (mix_text (spec.fx_report_of bytes effects count))) }
{
    let report = MixReport {
        frames: count,
        rate,
        channels: STEREO,
        width: WIDTH,
        bytes: file_bytes(count),
        peak: summary.peak,
        sum: summary.sum,
    };
    Ok(format!(in alloc; "{report}\n")?)
}
