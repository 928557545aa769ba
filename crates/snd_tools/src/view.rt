ghost use Rattle.std.specs.Prelude.{◌≡◌, ◌≤◌, true, None, Some, false, string_bytes};
ghost use Rattle.scene_model.specs.Limits as limits;
ghost use Rattle.snd_io.specs.Faults.{CountsFaults, Rose};
ghost use Rattle.snd_io.specs.Files.{Files};
ghost use Rattle.snd_tools.specs.Meets.{Works};
ghost use Rattle.snd_tools.specs.Outcome.{comes_to, view_outcome, picture_at};
ghost use Rattle.snd_tools.specs.Reading.{GivesBy, stopped_by_depot, can_stop};

use crate::fetching::read_scene;
use scene_model::Scene;
use scene_view::wiring;
use snd_io::Depot;
use snd_status::Status;
use std::alloc::Global;

/// `SCENE FRAME`: gives the picture of the scene's wiring at a frame, 0 to 16777216. No file changes.
pub(crate) fn view<D: Depot>(
    alloc: Global,
    depot: &mut D,
    scene: &str,
    frame: u32,
) -> Result<String, Status>
    requires frame { frame ≤ limits.most_frames }
    requires closed { D.writing depot.old ≡ None }
    ensures told { (before : Files) → D.files depot.old ≡ Some before → (after : Files) × (D.files depot.new ≡ Some after) × Works (comes_to (view_outcome before scene.now frame)) before after (Rose (D.faults depot.old) (D.faults depot.new)) result }
    ensures closed { D.writing depot.new ≡ None }
    ensures cause { CountsFaults (D.faults depot.old) (D.faults depot.new) (stopped_by_depot result) }
    ensures stop { can_stop result ≡ true }
{
    let scene = read_scene(alloc, depot, scene)?;
    picture(alloc, &scene, frame)
}

/// The picture of a scene's wiring at a frame.
fn picture(alloc: Global, scene: &Scene, frame: u32) -> Result<String, Status>
    requires { frame ≤ limits.most_frames }
    ensures value { GivesBy string_bytes result (picture_at frame scene.now) }
    ensures no_fault { stopped_by_depot result ≡ false }
    ensures stop { can_stop result ≡ true }
{
    Ok(wiring(alloc, scene, frame)?)
}
