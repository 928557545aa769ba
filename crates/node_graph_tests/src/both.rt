//! A stage beside the plan that it means.

ghost use Rattle.std.specs.Prelude.{◌≡◌, ◌≤◌, false, length, not};
ghost use Rattle.scene_model.specs.Plans.{is_sound};

use node_graph::Stage;
use plain_data::OutOfMemory;
use scene_model::{Bus, Edit, NodeKind, Plan, Reply, apply};
use std::alloc::Global;
use std::process::Abort;

/// Makes an edit in both and answers the one reply, or `None` where it may not be applied.
pub(crate) fn edit_both<R: Abort>(
    rt: &R,
    stage: &mut Stage,
    plan: &mut Plan,
    edit: &Edit,
) -> Option<Reply>
    requires { stage.old ≡ plan.old }
    ensures { stage.new ≡ plan.new }
{
    if !plan.can_apply(edit) {
        return None;
    }
    let reply = stage.edit(edit);
    assert_eq!(rt; reply, apply(plan, edit));
    Some(reply)
}

/// The words of a plan's board, one after the other.
pub(crate) fn words(alloc: Global, plan: &Plan) -> Result<Vec<u64>, OutOfMemory> {
    let mut words = Vec::new(alloc);
    for state in plan.nodes() {
        let seeks = u64::from(state.seeks).wrapping_mul(1 << 47);
        words.extend_from_slice(&[
            u64::from(state.started),
            u64::from(state.from),
            u64::from(state.until),
            seeks.wrapping_add(state.place),
            u64::from(state.looped),
        ])?;
    }
    for bus in plan.buses() {
        words.push(u64::from(bus.gain))?;
    }
    Ok(words)
}

/// Asserts that the stage's dials are these words, and no more.
pub(crate) fn assert_dials<R: Abort>(rt: &R, stage: &Stage, plan: &Plan, words: &[u64])
    requires { stage.now ≡ plan.now }
{
    let places = 5 * plan.nodes().len() + plan.buses().len();
    assert_eq!(rt; words.len(), places);
    for place in 0..places {
        assert_eq!(rt; stage.dial(place as u32), words[place]);
    }
}

/// The numbers that the stage writes where it visits a node that has an input.
pub(crate) fn visited(
    alloc: Global,
    stage: &mut Stage,
    plan: &Plan,
    node: u32,
) -> Result<Vec<u32>, OutOfMemory>
    requires same { stage.old ≡ plan.now }
    requires node { node ≤ length plan.now.nodes }
    requires input { is_sound plan.now.nodes node ≡ false }
    ensures { stage.new ≡ plan.now }
{
    let mut numbers = vec![in alloc; u32::MAX; plan.buses().len()]?;
    let count = stage.visit(node, numbers.as_mut_slice());
    numbers.truncate(count as usize);
    Ok(numbers)
}

/// Asserts that these are the numbers of the buses that are attached to a node, each once.
pub(crate) fn assert_attached<R: Abort>(rt: &R, numbers: &[u32], buses: &[Bus], node: u32) {
    for (number, bus) in buses.iter().enumerate() {
        let times = usize::from(bus.to == Some(node));
        assert_eq!(rt; times_of(numbers, number), times);
    }
    let attached = buses.iter().filter(|bus| bus.to == Some(node)).count();
    assert_eq!(rt; numbers.len(), attached);
}

/// How often a number stands among these.
fn times_of(numbers: &[u32], number: usize) -> usize {
    numbers
        .iter()
        .filter(|other| **other as usize == number)
        .count()
}

/// Whether a node has an input: it is the endpoint, or no sound.
pub(crate) fn has_input(plan: &Plan, node: u32) -> bool
    ensures { result ≡ not (is_sound plan.now.nodes node) }
{
    match plan.nodes().get(node as usize) {
        Some(state) => !matches!(state.kind, NodeKind::Sound { .. }),
        None => true,
    }
}
