//! A scene's WAVE file, rendered block by block into a store of files.

ghost use Rattle.std.specs.Prelude.{◌≡◌, ◌≤◌, None, All, length, map, IfOk};
ghost use denote.Param.Send.{IsSync};
ghost use Rattle.clip_decode.specs.ClipData.{ClipData};
ghost use Rattle.clip_decode.specs.Limits.{most_sound_bytes};
ghost use Rattle.mix_model.specs.Mix.{mix as mix_of};
ghost use Rattle.mix_model.specs.Output.{wav};
ghost use Rattle.mix_model.specs.Rendering.{summary_of};
ghost use Rattle.resource_mgr.specs.Desks.{IsDeskOf};
ghost use Rattle.resource_mgr.specs.Shelves.{IsShelf};
ghost use Rattle.resource_mgr.specs.Tapes.{AreWholeTapes, files_of};
ghost use Rattle.snd_io.specs.Answers.{put_failed};
ghost use Rattle.snd_io.specs.Faults.{CountsFaults};
ghost use Rattle.snd_io.specs.Runs.{SetsFile};
ghost use Rattle.engine.specs.RendererData.{at_first_frame};
ghost use Rattle.engine.specs.Rendering.{frames_before};
ghost use Rattle.engine.specs.RunAnswers.{answer_of};

use crate::decoding_desk::{DecodingDesk, PostingDesk};
use crate::out_file::write_out;
use crate::page_source::AllShown;
use crate::renderer::Renderer;
use crate::run_fault::RunFault;
use clip_decode::Clip;
use mix_model::Summary;
use plain_data::OutOfMemory;
use resource_mgr::{Desk, Library, Shelf, Tape};
use scene_model::Scene;
use snd_io::{Depot, FreeGate, Gate};
use std::alloc::Global;
use std::sync::Wait;
use std::thread;
use std::thread::Threads;

/// Mixes a scene in blocks, on the calling thread, and sets OUT to its WAVE file: the 44-byte header, the
/// frames, interleaved and packed at the scene's width, and the pad byte if there is one (RIFF WAVE). OUT is
/// created, gets one append for the header, one for each block and one for the pad byte, and is finished. The
/// answer is the summary of the frames.
///
/// `clips` are those of the scene's resources, in their order, each of at most 67,108,864 bytes. All clips are decoded before
/// OUT is created.
///
/// # Errors
///
/// [`RunFault::DepotFault`] where the store failed, and [`RunFault::OutOfMemory`] where there was no memory.
/// Then the files are as before, or have OUT set to a prefix of its bytes. On every answer no file is open, and
/// every other file is as before.
pub fn mix<D: Depot>(
    alloc: Global,
    scene: &Scene,
    clips: Vec<Clip>,
    depot: &mut D,
    out: &str,
) -> Result<Summary, RunFault>
    requires closed { D.writing depot.old ≡ None }
    requires sizes { All (λ (c : ClipData). length c.bytes ≤ most_sound_bytes) clips.items }
    ensures after { let frames = mix_of scene.now (map (λ (c : ClipData). c.bytes) clips.items) in
        SetsFile (answer_of result) out.now (wav scene.now frames) (D.files depot.old) (D.files depot.new) }
    ensures closed { D.writing depot.new ≡ None }
    ensures cause { CountsFaults (D.faults depot.old) (D.faults depot.new) (put_failed (answer_of result)) }
    ensures summary { let frames = mix_of scene.now (map (λ (c : ClipData). c.bytes) clips.items) in
        IfOk result (λ summary. summary ≡ summary_of scene.now frames) }
{
    let tapes = tapes_of(alloc, clips)?;
    let mut renderer = Renderer::open(alloc, scene, tapes)?;
    write_out(
        alloc,
        scene,
        &mut renderer,
        &mut AllShown,
        depot,
        out,
        &FreeGate,
    )
}

/// Mixes a scene as [`mix`] does, on the calling thread, while others decode: as many as the shelf has desks, less one, at which
/// the calling thread posts the jobs of all pages, and runs jobs itself where a block needs a page that isn't shown yet. The samples come
/// from the shelf's tapes, one for each of the scene's resources, in their order. OUT gets the same bytes for every number of
/// workers and in whatever order they come to their work.
///
/// The gate is called before and after each page that is decoded, by the numbers of the resource and the page, and
/// before and after each block, by its number.
///
/// # Errors
///
/// As those of [`mix`]. The workers have ended on every answer.
pub fn render<R: Threads + Wait + Sync, D: Depot, G: Gate + Sync>(
    rt: &R,
    alloc: Global,
    scene: &Scene,
    shelf: Shelf,
    depot: &mut D,
    out: &str,
    gate: &G,
) -> Result<Summary, RunFault>
    requires closed { D.writing depot.old ≡ None }
    requires shelf { IsShelf shelf }
    ensures after { let frames = mix_of scene.now (files_of shelf.tapes.items) in
        SetsFile (answer_of result) out.now (wav scene.now frames) (D.files depot.old) (D.files depot.new) }
    ensures closed { D.writing depot.new ≡ None }
    ensures cause { CountsFaults (D.faults depot.old) (D.faults depot.new) (put_failed (answer_of result)) }
    ensures summary { let frames = mix_of scene.now (files_of shelf.tapes.items) in
        IfOk result (λ summary. summary ≡ summary_of scene.now frames) }
{
    let Shelf {
        library,
        poster,
        mut desks,
        tapes,
    } = shelf;
    let Some(desk) = desks.pop() else {
        unreachable!()
    };
    let mut renderer = Renderer::open(alloc, scene, tapes)?;
    let mut own = PostingDesk { poster, desk };
    let workers = desks.as_mut_slice();
    render_beside(
        rt,
        alloc,
        scene,
        &mut renderer,
        &library,
        &mut own,
        workers,
        depot,
        out,
        gate,
    )
}

/// Has workers decode at their desks, and sets OUT meanwhile.
fn render_beside<R: Threads + Wait + Sync, D: Depot, G: Gate + Sync>(
    rt: &R,
    alloc: Global,
    scene: &Scene,
    renderer: &mut Renderer,
    library: &Library,
    own: &mut PostingDesk,
    workers: &mut [Desk],
    depot: &mut D,
    out: &str,
    gate: &G,
) -> Result<Summary, RunFault>
    requires opened { renderer.old ≡ at_first_frame scene.now renderer.old.tapes }
    requires desk { IsDeskOf library.now own.old.desk }
    requires desks { All (IsDeskOf library.now) workers.old }
    requires closed { D.writing depot.old ≡ None }
    ensures after { let frames = frames_before scene.now (files_of renderer.old.tapes) scene.now.length in
        SetsFile (answer_of result) out.now (wav scene.now frames) (D.files depot.old) (D.files depot.new) }
    ensures closed { D.writing depot.new ≡ None }
    ensures cause { CountsFaults (D.faults depot.old) (D.faults depot.new) (put_failed (answer_of result)) }
    ensures summary { let frames = frames_before scene.now (files_of renderer.old.tapes) scene.now.length in
        IfOk result (λ summary. summary ≡ summary_of scene.now frames) }
{
    let (_, written) = thread::join_mut(
        rt,
        &mut ||
            requires { IsSync R.row × IsSync G.row × All (IsDeskOf library.now) workers.now }
        { work_at_all(rt, library, workers, gate) },
        &mut || write_decoding(rt, alloc, scene, renderer, library, own, depot, out, gate),
    );
    written
}

/// Sets OUT as `write_out` does, and decodes the pages that it needs where no worker has yet. The workers stop in the end.
fn write_decoding<R: Wait, D: Depot, G: Gate>(
    rt: &R,
    alloc: Global,
    scene: &Scene,
    renderer: &mut Renderer,
    library: &Library,
    own: &mut PostingDesk,
    depot: &mut D,
    out: &str,
    gate: &G,
) -> Result<Summary, RunFault>
    requires opened { renderer.old ≡ at_first_frame scene.now renderer.old.tapes }
    requires desk { IsDeskOf library.now own.old.desk }
    requires closed { D.writing depot.old ≡ None }
    ensures after { let frames = frames_before scene.now (files_of renderer.old.tapes) scene.now.length in
        SetsFile (answer_of result) out.now (wav scene.now frames) (D.files depot.old) (D.files depot.new) }
    ensures closed { D.writing depot.new ≡ None }
    ensures cause { CountsFaults (D.faults depot.old) (D.faults depot.new) (put_failed (answer_of result)) }
    ensures summary { let frames = frames_before scene.now (files_of renderer.old.tapes) scene.now.length in
        IfOk result (λ summary. summary ≡ summary_of scene.now frames) }
{
    let mut source = DecodingDesk {
        rt,
        library,
        own,
        gate,
    };
    source.post();
    let written = write_out(alloc, scene, renderer, &mut source, depot, out, gate);
    source.stop();
    written
}

/// Has a worker run jobs at each desk until it comes by the one that stops it.
fn work_at_all<R: Threads + Wait + Sync, G: Gate + Sync>(
    rt: &R,
    library: &Library,
    desks: &mut [Desk],
    gate: &G,
)
    requires { All (IsDeskOf library.now) desks.old }
{
    let threads = desks.len().max(1);
    thread::for_each_mut(
        rt,
        desks,
        threads,
        &|_, desk| library.worker(rt, desk, gate),
    );
}

/// The tapes of clips.
fn tapes_of(alloc: Global, clips: Vec<Clip>) -> Result<Vec<Tape>, OutOfMemory>
    requires { All (λ (c : ClipData). length c.bytes ≤ most_sound_bytes) clips.items }
    ensures { IfOk result (λ tapes. AreWholeTapes clips.items tapes.items) }
{
    let mut tapes = Vec::new(alloc);
    for clip in clips {
        tapes.push(Tape::whole(alloc, clip)?)?;
    }
    Ok(tapes)
}
