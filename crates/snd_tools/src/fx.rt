ghost use Rattle.std.specs.Prelude.{◌≡◌, ◌≤◌, All, IsTrue, length, true, None, Some, IfOk};
ghost use Rattle.fx_nodes.specs.Effects.{is_in_range};
ghost use Rattle.snd_io.specs.Faults.{CountsFaults, Rose};
ghost use Rattle.snd_io.specs.Files.{Files};
ghost use Rattle.snd_tools.specs.CommandsRead.{CanBeHeard};
ghost use Rattle.snd_tools.specs.Meets.{Works};
ghost use Rattle.snd_tools.specs.Outcome.{comes_to, fx_outcome};
ghost use Rattle.snd_tools.specs.Reading.{stopped_by_depot, can_stop};

use crate::effects::{fx_line, write_effects};
use crate::fetching::read_sound;
use fx_nodes::Effect;
use snd_io::Depot;
use snd_status::Status;
use std::alloc::Global;
use std::marker::Model;

/// `fx FILE OUT COUNT EFFECT ..`: reads FILE, and only then creates OUT, which gets what the effects make of the first
/// `count` frames of it, block by block. It gives the line of the rendering.
pub(crate) fn fx<D: Depot>(
    alloc: Global,
    depot: &mut D,
    file: &str,
    out: &str,
    count: u32,
    effects: &[Effect],
) -> Result<String, Status>
    requires limits { CanBeHeard count effects.now }
    requires closed { D.writing depot.old ≡ None }
    ensures told { (before : Files) → D.files depot.old ≡ Some before → (after : Files) × (D.files depot.new ≡ Some after) × Works (comes_to (fx_outcome before file.now out.now count effects.now)) before after (Rose (D.faults depot.old) (D.faults depot.new)) result }
    ensures closed { D.writing depot.new ≡ None }
    ensures cause { CountsFaults (D.faults depot.old) (D.faults depot.new) (stopped_by_depot result) }
    ensures stop { can_stop result ≡ true }
{
    let clip = read_sound(alloc, depot, file)?;
    let rate = clip.wave().rate;
    let summary = write_effects(alloc, clip, effects, count, depot, out)?;
    Ok(fx_line(alloc, rate, count, summary)?)
}
