//! What a scene is rendered from.

ghost use Rattle.std.specs.Prelude.{◌≡◌, ◌≤◌, All, length, true, None, IfOk, IfSome};
ghost use Rattle.clip_decode.specs.Limits.{most_sound_bytes};
ghost use Rattle.scene_model.specs.Limits as limits;
ghost use Rattle.snd_io.specs.Faults.{CountsFaults};
ghost use Rattle.snd_tools.specs.Outcome.{rendered};
ghost use Rattle.snd_tools.specs.Prepared.{rendering_of};
ghost use Rattle.snd_tools.specs.Reading.{GivesBy, stopped_by_depot, can_stop};

use crate::fetching::{read_scene, read_sounds};
use clip_decode::Clip;
use scene_model::Scene;
use snd_io::Depot;
use snd_status::Status;
use std::alloc::Global;
use std::marker::Model;

/// A scene with the sounds of its resources, in their order.
#[derive(Drop)]
pub(crate) struct Prepared {
    pub(crate) scene: Scene,
    pub(crate) clips: Vec<Clip>,
}

/// Reads SCENE and its sound files. No file changes.
pub(crate) fn prepare<D: Depot>(
    alloc: Global,
    depot: &mut D,
    scene: &str,
) -> Result<Prepared, Status>
    requires { D.writing depot.old ≡ None }
    ensures told { IfSome (D.files depot.old) (λ files. GivesBy rendering_of result (rendered files scene.now)) }
    ensures few { IfOk result (λ p. length p.clips.items ≤ limits.most_resources) }
    ensures sizes { IfOk result (λ p. All (λ clip. length clip.bytes ≤ most_sound_bytes) p.clips.items) }
    ensures files { D.files depot.new ≡ D.files depot.old }
    ensures closed { D.writing depot.new ≡ None }
    ensures cause { CountsFaults (D.faults depot.old) (D.faults depot.new) (stopped_by_depot result) }
    ensures stop { can_stop result ≡ true }
{
    let scene = read_scene(alloc, depot, scene)?;
    let clips = read_sounds(alloc, depot, scene.resources.as_slice())?;
    Ok(Prepared { scene, clips })
}
