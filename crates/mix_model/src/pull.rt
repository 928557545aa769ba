//! Which nodes are active at a frame, and which are pulled.

ghost use Rattle.std.specs.Prelude.{◌≡◌, ◌<◌, ◌≤◌, ℕ, [], length};
ghost use Rattle.scene_model.specs.IsPlan.{IsBusOf};
ghost use Rattle.mix_model.specs.Pulled.{pulled, is_active as active};
ghost use Rattle.mix_model.specs.OrderedBuses.{plan_of, AreOrderedBuses, mark_at, IsMarked};

use scene_model::{Bus, NodeState};

/// Marks each node that is pulled at a frame, and the endpoint, and clears all other marks. There are
/// more `marks` than nodes. The buses are in a topological order and are looked at from the last to the
/// first, so that a target's mark is settled before it is asked for.
pub fn mark_pulled(nodes: &[NodeState], ordered_buses: &[Bus], time: u32, marks: &mut [bool])
    requires ordered_buses { AreOrderedBuses (length nodes.now) ordered_buses.now }
    requires marks { length nodes.now < length marks.old }
    ensures { (n : ℕ) → n ≤ length nodes.now → mark_at marks.new n ≡ pulled (plan_of nodes.now ordered_buses.now) time n }
{
    marks.fill(false);
    marks[nodes.len()] = true;
    for done in 0..ordered_buses.len() {
        mark(
            nodes,
            &ordered_buses[ordered_buses.len() - 1 - done],
            time,
            marks,
        );
    }
}

/// Whether a node is active at a frame: it is started, and `from <= time < until`.
pub fn is_active(node: &NodeState, time: u32) -> bool
    ensures { result ≡ active time node.now }
{
    node.started && node.from <= time && time < node.until
}

/// Marks the node of a bus too, where it is active and the bus leads to a marked node.
fn mark(nodes: &[NodeState], bus: &Bus, time: u32, marks: &mut [bool])
    requires bus { IsBusOf (length nodes.now) bus.now }
    requires marks { length nodes.now < length marks.old }
    ensures { IsMarked (plan_of nodes.now []) time bus.now marks.old marks.new }
{
    let Some(to) = bus.to else { return };
    if marks[to as usize] && is_active(&nodes[bus.node as usize], time) {
        marks[bus.node as usize] = true;
    }
}
