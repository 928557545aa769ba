ghost use Rattle.std.specs.Prelude.{◌≡◌, ◌≤◌, ℕ, List, None, IfOk, All, map, length, string_bytes};
ghost use Rattle.clip_decode.specs.Limits.{most_sound_bytes};
ghost use Rattle.engine.specs.RunAnswers.{answer_of};
ghost use Rattle.mix_model.specs.Mix.{mix};
ghost use Rattle.mix_model.specs.Output.{wav};
ghost use Rattle.mix_model.specs.Rendering.{summary_of};
ghost use Rattle.mix_model.specs.declared.summary.Summary.{Summary};
ghost use Rattle.resource_mgr.specs.Workers.{most_workers};
ghost use Rattle.scene_model.specs.Limits as limits;
ghost use Rattle.snd_io.specs.Answers.{put_failed, put_of};
ghost use Rattle.snd_io.specs.Faults.{CountsFaults};
ghost use Rattle.snd_io.specs.Runs.{SetsFile};
ghost use Rattle.snd_status.specs.Texts.{mix_text};
ghost use Rattle.snd_tools.specs.Outcome as spec;

use clip_decode::Clip;
use engine::RunFault;
use mix_model::{Summary, file_bytes};
use plain_data::OutOfMemory;
use resource_mgr::Library;
use scene_model::Scene;
use snd_io::{Depot, Gate, PutFault};
use snd_status::MixReport;
use std::alloc::Global;
use std::sync::Wait;
use std::thread::Threads;

/// Sets OUT to the WAVE file of a scene, on the calling thread, and answers the summary of its frames.
pub(crate) fn write_mix<D: Depot>(
    alloc: Global,
    scene: &Scene,
    clips: Vec<Clip>,
    depot: &mut D,
    out: &str,
) -> Result<Summary, PutFault>
    requires closed { D.writing depot.old ≡ None }
    requires sizes { All (λ clip. length clip.bytes ≤ most_sound_bytes) clips.items }
    ensures after { SetsFile (put_of result) out.now (wav scene.now (mix scene.now (map (λ clip. clip.bytes) clips.items))) (D.files depot.old) (D.files depot.new) }
    ensures closed { D.writing depot.new ≡ None }
    ensures cause { CountsFaults (D.faults depot.old) (D.faults depot.new) (put_failed (put_of result)) }
    ensures summary { IfOk result (λ summary. summary ≡ summary_of scene.now (mix scene.now (map (λ clip. clip.bytes) clips.items))) }
{
    put_result(engine::mix(alloc, scene, clips, depot, out))
}

/// The same while workers decode the clips.
pub(crate) fn write_render<R: Threads + Wait + Sync, D: Depot, G: Gate + Sync>(
    rt: &R,
    alloc: Global,
    scene: &Scene,
    clips: Vec<Clip>,
    workers: u32,
    depot: &mut D,
    out: &str,
    gate: &G,
) -> Result<Summary, PutFault>
    requires workers { workers ≤ most_workers }
    requires few { length clips.items ≤ limits.most_resources }
    requires closed { D.writing depot.old ≡ None }
    requires sizes { All (λ clip. length clip.bytes ≤ most_sound_bytes) clips.items }
    ensures after { SetsFile (put_of result) out.now (wav scene.now (mix scene.now (map (λ clip. clip.bytes) clips.items))) (D.files depot.old) (D.files depot.new) }
    ensures closed { D.writing depot.new ≡ None }
    ensures cause { CountsFaults (D.faults depot.old) (D.faults depot.new) (put_failed (put_of result)) }
    ensures summary { IfOk result (λ summary. summary ≡ summary_of scene.now (mix scene.now (map (λ clip. clip.bytes) clips.items))) }
{
    let shelf = Library::open(alloc, clips, workers)?;
    put_result(engine::render(rt, alloc, scene, shelf, depot, out, gate))
}

/// What a run came to, by the answer of the store.
pub(crate) fn put_result(result_of_run: Result<Summary, RunFault>) -> Result<Summary, PutFault>
    ensures answer { put_of result ≡ answer_of result_of_run }
    ensures summary { (wanted : Summary) → IfOk result_of_run (λ summary. summary ≡ wanted) → IfOk result (λ summary. summary ≡ wanted) }
{
    match result_of_run {
        Ok(summary) => Ok(summary),
        Err(RunFault::DepotFault) => Err(PutFault::Failed),
        Err(RunFault::OutOfMemory) => Err(PutFault::OutOfMemory),
    }
}

/// The line of a scene that was rendered to frames of that summary.
pub(crate) fn mix_line(
    alloc: Global,
    scene: &Scene,
    summary: Summary,
) -> Result<String, OutOfMemory>
    ensures { (files : List (List ℕ)) → summary ≡ summary_of scene.now (mix scene.now files) →
        IfOk result (λ text. string_bytes text ≡ spec.line (mix_text (spec.mix_report_of scene.now (mix scene.now files)))) }
{
    let report = MixReport {
        frames: scene.length,
        rate: scene.rate,
        channels: scene.channels,
        width: scene.width,
        bytes: file_bytes(scene),
        peak: summary.peak,
        sum: summary.sum,
    };
    Ok(format!(in alloc; "{report}\n")?)
}
