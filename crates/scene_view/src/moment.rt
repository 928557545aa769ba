//! A scene's plan at a frame, and what is pulled there.
ghost use Rattle.std.specs.Prelude.{◌≡◌, ◌<◌, ◌≤◌, ℕ, length, IfOk};
ghost use Rattle.scene_model.specs.IsPlan.{IsPlan};
ghost use Rattle.scene_model.specs.Limits as limits;
ghost use Rattle.scene_model.specs.Times.{plan};
ghost use Rattle.mix_model.specs.OrderedBuses.{mark_at};
ghost use Rattle.mix_model.specs.Pulled.{pulled};

use mix_model::{MAX_INPUTS, make_due, mark_pulled, topological_order};
use plain_data::OutOfMemory;
use scene_model::{Plan, Scene, edits_in_order};
use std::alloc::Global;

/// The scene's plan after the edits of a frame.
pub(crate) fn plan_at(alloc: Global, scene: &Scene, frame: u32) -> Result<Plan, OutOfMemory>
    requires { frame ≤ limits.most_frames }
    ensures { IfOk result (λ p. p ≡ plan scene.now frame) }
{
    let edits = edits_in_order(alloc, scene.edits.as_slice())?.into_vec();
    let mut plan = Plan::opening(alloc, scene)?;
    // Nobody asks for the places of the sounds: clips without a frame do.
    let (frames, mut cursors) = ([0; MAX_INPUTS], [0; MAX_INPUTS]);
    let mut place = 0;
    for time in 0..frame + 1 {
        place = make_due(
            edits.as_slice(),
            place,
            time,
            &mut plan,
            &frames,
            &mut cursors,
        );
    }
    Ok(plan)
}

/// Which nodes of a plan are pulled at a frame, by their numbers. The endpoint is.
pub(crate) fn pulled_at(
    alloc: Global,
    plan: &Plan,
    frame: u32,
) -> Result<[bool; MAX_INPUTS], OutOfMemory>
    ensures { IfOk result (λ marks. (n : ℕ) → n ≤ length plan.now.nodes → mark_at marks n ≡ pulled plan.now frame n) }
{
    let buses = topological_order(alloc, plan.buses())?;
    let mut marks = [false; MAX_INPUTS];
    mark_pulled(plan.nodes(), buses.as_slice(), frame, &mut marks);
    Ok(marks)
}
