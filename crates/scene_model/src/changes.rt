//! What an edit changes in the nodes and buses of a plan.

ghost use Rattle.std.specs.Prelude.{◌≡◌, ◌<◌, length, IsTrue};
ghost use Rattle.scene_model.specs.IsPlan.{names_nodes, may_seek};
ghost use Rattle.scene_model.specs.Limits as limits;
ghost use Rattle.scene_model.specs.Plans as spec;
ghost use Rattle.scene_model.specs.Wiring as wiring;

use crate::bus::Bus;
use crate::edit::Edit;
use crate::node_state::NodeState;

/// Makes an edit, whatever it would be answered. The edit names nodes that are there.
pub(crate) fn make(nodes: &mut [NodeState], buses: &mut [Bus], edit: &Edit)
    requires edit { IsTrue (names_nodes (length nodes.old) edit.now) }
    requires seek { IsTrue (may_seek nodes.old edit.now) }
    ensures { record { nodes = nodes.new; buses = buses.new }
        ≡ spec.made (record { nodes = nodes.old; buses = buses.old }) edit.now }
{
    match *edit {
        Edit::Attach { node, out, to } => set_target(buses, node, out, Some(to)),
        Edit::Detach { node, out } => set_target(buses, node, out, None),
        Edit::SetGain { node, out, gain } => set_gain(buses, node, out, gain),
        Edit::Start { node } => nodes[node as usize].started = true,
        Edit::Stop { node } => nodes[node as usize].started = false,
        Edit::From { node, value } => nodes[node as usize].from = value,
        Edit::Until { node, value } => nodes[node as usize].until = value,
        Edit::Seek { node, place } => seek(&mut nodes[node as usize], place),
        Edit::Loop { node, on } => nodes[node as usize].looped = on,
    }
}

/// Counts one more seek and sets the place.
fn seek(state: &mut NodeState, place: u64)
    requires { state.old.seeks < limits.most_seeks }
    ensures { state.new ≡ spec.with_seek place state.old }
{
    state.seeks += 1;
    state.place = place;
}

/// Attaches an output to a node, or to none.
fn set_target(buses: &mut [Bus], node: u32, out: u8, to: Option<u32>)
    ensures { buses.new ≡ wiring.with_target node out to buses.old }
{
    for bus in buses.iter_mut() {
        if bus.is_output(node, out) {
            bus.to = to;
        }
    }
}

/// Sets the gain of an output.
fn set_gain(buses: &mut [Bus], node: u32, out: u8, gain: u32)
    ensures { buses.new ≡ wiring.with_gain node out gain buses.old }
{
    for bus in buses.iter_mut() {
        if bus.is_output(node, out) {
            bus.gain = gain;
        }
    }
}
