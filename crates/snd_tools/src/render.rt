ghost use Rattle.std.specs.Prelude.{◌≡◌, ◌≤◌, All, length, true, None, Some, IfOk, IfSome};
ghost use Rattle.clip_decode.specs.Limits.{most_sound_bytes};
ghost use Rattle.resource_mgr.specs.Workers.{most_workers};
ghost use Rattle.snd_io.specs.Faults.{CountsFaults, Rose};
ghost use Rattle.snd_io.specs.Files.{Files};
ghost use Rattle.snd_tools.specs.Meets.{Works};
ghost use Rattle.snd_tools.specs.Outcome.{comes_to, mix_outcome, rendered};
ghost use Rattle.snd_tools.specs.Prepared.{rendering_of};
ghost use Rattle.snd_tools.specs.Reading.{GivesBy, stopped_by_depot, can_stop};

use crate::prepared::{Prepared, prepare};
use crate::rendering::{mix_line, write_render};
use snd_io::{Depot, Gate};
use snd_status::Status;
use std::alloc::Global;
use std::marker::Model;
use std::sync::Wait;
use std::thread::Threads;

/// `render SCENE OUT WORKERS`: as `mix SCENE OUT`, with that many workers, at most 16, that decode the sounds.
pub(crate) fn render<R: Threads + Wait + Sync, D: Depot, G: Gate + Sync>(
    rt: &R,
    alloc: Global,
    depot: &mut D,
    scene: &str,
    out: &str,
    workers: u32,
    gate: &G,
) -> Result<String, Status>
    requires workers { workers ≤ most_workers }
    requires closed { D.writing depot.old ≡ None }
    ensures told { (before : Files) → D.files depot.old ≡ Some before → (after : Files) × (D.files depot.new ≡ Some after) × Works (comes_to (mix_outcome before scene.now out.now)) before after (Rose (D.faults depot.old) (D.faults depot.new)) result }
    ensures closed { D.writing depot.new ≡ None }
    ensures cause { CountsFaults (D.faults depot.old) (D.faults depot.new) (stopped_by_depot result) }
    ensures stop { can_stop result ≡ true }
{
    let Prepared { scene, clips } = prepare(alloc, depot, scene)?;
    let summary = write_render(rt, alloc, &scene, clips, workers, depot, out, gate)?;
    Ok(mix_line(alloc, &scene, summary)?)
}
