//! The file that a scene is rendered to, written in pieces.

ghost use Rattle.std.specs.Prelude.{◌≡◌, ◌<◌, ◌≤◌, ◌++◌, ℕ, List, None, Some, true, false, IsSome, length, IfOk};
ghost use Rattle.mix_model.specs.Output.{padding, wav};
ghost use Rattle.mix_model.specs.Rendering.{data_of, summary_of};
ghost use Rattle.snd_io.specs.Answers.{put_failed};
ghost use Rattle.snd_io.specs.Faults.{CountsFaults};
ghost use Rattle.snd_io.specs.Runs.{GrowsBy, RunOfAppends, SetsFile};
ghost use Rattle.wave_write.specs.Header.{data_bytes};
ghost use Rattle.resource_mgr.specs.Tapes.{AreLater, files_of};
ghost use Rattle.engine.specs.RendererData.{at_first_frame};
ghost use Rattle.engine.specs.Rendering.{frames_before};
ghost use Rattle.engine.specs.RunAnswers.{answer_of};
ghost use Rattle.engine.specs.Span.{node_places};

use crate::feeds::NODE_PLACES;
use crate::open_file::{append, done, without_memory};
use crate::page_source::PageSource;
use crate::renderer::Renderer;
use crate::run_fault::RunFault;
use mix_model::{Summary, is_padded, scene_header};
use plain_data::OutOfMemory;
use scene_model::Scene;
use snd_io::{Depot, Gate};
use std::alloc::Global;
use wave_write::pack;

/// Sets OUT to the WAVE file of a scene whose renderer stands at its first frame, with the pages that the source shows. The gate
/// is called before and after each block.
pub(crate) fn write_out<D: Depot, G: Gate, P: PageSource>(
    alloc: Global,
    scene: &Scene,
    renderer: &mut Renderer,
    source: &mut P,
    depot: &mut D,
    out: &str,
    gate: &G,
) -> Result<Summary, RunFault>
    requires opened { renderer.old ≡ at_first_frame scene.now renderer.old.tapes }
    requires shows { P.shows source.old renderer.old.tapes }
    requires closed { D.writing depot.old ≡ None }
    ensures after { let frames = frames_before scene.now (files_of renderer.old.tapes) scene.now.length in
        SetsFile (answer_of result) out.now (wav scene.now frames) (D.files depot.old) (D.files depot.new) }
    ensures closed { D.writing depot.new ≡ None }
    ensures shows { P.shows source.new renderer.new.tapes }
    ensures cause { CountsFaults (D.faults depot.old) (D.faults depot.new) (put_failed (answer_of result)) }
    ensures summary { let frames = frames_before scene.now (files_of renderer.old.tapes) scene.now.length in
        IfOk result (λ summary. summary ≡ summary_of scene.now frames) }
{
    done(depot.create(alloc, out))?;
    let summary = append_wav(alloc, scene, renderer, source, depot, gate)?;
    done(depot.finish())?;
    Ok(summary)
}

/// Appends the header, the frames and the pad byte if there is one to the open file. Where it stops, no file
/// is open.
fn append_wav<D: Depot, G: Gate, P: PageSource>(
    alloc: Global,
    scene: &Scene,
    renderer: &mut Renderer,
    source: &mut P,
    depot: &mut D,
    gate: &G,
) -> Result<Summary, RunFault>
    requires opened { renderer.old ≡ at_first_frame scene.now renderer.old.tapes }
    requires shows { P.shows source.old renderer.old.tapes }
    requires writing { IsSome (D.writing depot.old) }
    ensures after { (name : List ℕ) → D.writing depot.old ≡ Some name →
        RunOfAppends (answer_of result) name (wav scene.now (frames_before scene.now (files_of renderer.old.tapes) scene.now.length))
        (D.files depot.old) (D.files depot.new) (D.writing depot.new) }
    ensures shows { P.shows source.new renderer.new.tapes }
    ensures cause { CountsFaults (D.faults depot.old) (D.faults depot.new) (put_failed (answer_of result)) }
    ensures summary { let frames = frames_before scene.now (files_of renderer.old.tapes) scene.now.length in
        IfOk result (λ summary. summary ≡ summary_of scene.now frames) }
{
    append(alloc, depot, &scene_header(scene))?;
    let summary = append_blocks(alloc, scene, renderer, source, depot, gate)?;
    append_padding(alloc, scene, depot)?;
    Ok(summary)
}

/// Appends all frames, block by block.
fn append_blocks<D: Depot, G: Gate, P: PageSource>(
    alloc: Global,
    scene: &Scene,
    renderer: &mut Renderer,
    source: &mut P,
    depot: &mut D,
    gate: &G,
) -> Result<Summary, RunFault>
    requires opened { renderer.old ≡ at_first_frame scene.now renderer.old.tapes }
    requires shows { P.shows source.old renderer.old.tapes }
    requires writing { IsSome (D.writing depot.old) }
    ensures after { (name : List ℕ) → D.writing depot.old ≡ Some name →
        RunOfAppends (answer_of result) name (data_of scene.now (frames_before scene.now (files_of renderer.old.tapes) scene.now.length))
        (D.files depot.old) (D.files depot.new) (D.writing depot.new) }
    ensures shows { P.shows source.new renderer.new.tapes }
    ensures cause { CountsFaults (D.faults depot.old) (D.faults depot.new) (put_failed (answer_of result)) }
    ensures summary { let frames = frames_before scene.now (files_of renderer.old.tapes) scene.now.length in
        IfOk result (λ summary. summary ≡ summary_of scene.now frames) }
{
    let mut samples = [0i32; NODE_PLACES];
    let mut bytes = Vec::new(alloc);
    let mut summary = Summary::empty();
    let mut number = 0u32;
    while renderer.clock() < scene.length {
        gate.before_block(number);
        match next_block(
            alloc,
            scene,
            renderer,
            source,
            &mut samples,
            &mut bytes,
            summary,
        ) {
            Ok(more) => summary = more,
            Err(OutOfMemory) => return Err(without_memory(depot)),
        }
        append(alloc, depot, bytes.as_slice())?;
        gate.after_block(number);
        number += 1;
    }
    Ok(summary)
}

/// Renders the next block, and packs its samples. Answers the summary with it.
fn next_block<P: PageSource>(
    alloc: Global,
    scene: &Scene,
    renderer: &mut Renderer,
    source: &mut P,
    samples: &mut [i32],
    bytes: &mut Vec<u8>,
    summary: Summary,
) -> Result<Summary, OutOfMemory>
    requires scene { renderer.old.scene ≡ scene.now }
    requires fresh { (renderer.old.next ≡ None) × (renderer.old.ready ≡ false) }
    requires shows { P.shows source.old renderer.old.tapes }
    requires left { renderer.old.clock < scene.now.length }
    requires room { length samples.old ≡ node_places }
    ensures next { IfOk result (λ _. renderer.new ≡ record renderer.old { clock = renderer.new.clock; tapes = renderer.new.tapes }) }
    ensures tapes { IfOk result (λ _. AreLater renderer.old.tapes renderer.new.tapes) }
    ensures shows { P.shows source.new renderer.new.tapes }
    ensures later { IfOk result (λ _. renderer.old.clock < renderer.new.clock) }
    ensures within { IfOk result (λ _. renderer.new.clock ≤ scene.now.length) }
    ensures bytes { IfOk result (λ _. data_of scene.now (frames_before scene.now (files_of renderer.old.tapes) renderer.new.clock)
        ≡ data_of scene.now (frames_before scene.now (files_of renderer.old.tapes) renderer.old.clock) ++ bytes.new.items) }
    ensures summary { summary ≡ summary_of scene.now (frames_before scene.now (files_of renderer.old.tapes) renderer.old.clock) →
        IfOk result (λ next. next ≡ summary_of scene.now (frames_before scene.now (files_of renderer.old.tapes) renderer.new.clock)) }
{
    let frames = renderer.step();
    source.make_ready(renderer);
    let out = &mut samples[..frames as usize * usize::from(scene.channels)];
    renderer.block(out);
    bytes.clear();
    pack(alloc, out, scene.width, bytes)?;
    Ok(summary.extended(out, bytes.as_slice()))
}

/// Appends what follows the frames: a zero byte where the data have an odd size (RIFF WAVE), and nothing, with
/// no call of the store, where they have an even one.
fn append_padding<D: Depot>(alloc: Global, scene: &Scene, depot: &mut D) -> Result<(), RunFault>
    requires writing { IsSome (D.writing depot.old) }
    ensures after { (name : List ℕ) → D.writing depot.old ≡ Some name →
        RunOfAppends (answer_of result) name (padding (data_bytes scene.now.channels scene.now.width scene.now.length))
        (D.files depot.old) (D.files depot.new) (D.writing depot.new) }
    ensures cause { CountsFaults (D.faults depot.old) (D.faults depot.new) (put_failed (answer_of result)) }
{
    if is_padded(scene) {
        append(alloc, depot, &[0])
    } else {
        Ok(())
    }
}
