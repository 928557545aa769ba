//! Which nodes are reached from a node along attached buses.

ghost use Rattle.std.specs.Prelude.{◌≡◌, ◌+◌, ◌≤◌, ◌<◌, ℕ, true, false, length, slice_index_or, All};
ghost use Rattle.scene_model.specs.IsPlan.{IsBusOf};
ghost use Rattle.scene_model.specs.Limits as limits;
ghost use Rattle.scene_model.specs.Marks.{IsMarkedAt, IsSettledAt, AreSettled, AreReached, AreKept, unmarked};
ghost use Rattle.scene_model.specs.Reach as spec;

use crate::bus::Bus;
use crate::limits::MAX_NODES;

/// A mark for each node that a scene may have and one for the endpoint.
const MARKS: usize = MAX_NODES + 1;

/// Whether some path of attached buses leads from the one node to the other. A node reaches itself,
/// by the empty path.
pub(crate) fn reaches(buses: &[Bus], from: u32, to: u32) -> bool
    requires buses { All (IsBusOf limits.most_nodes) buses.now }
    requires from { from ≤ limits.most_nodes }
    requires to { to ≤ limits.most_nodes }
    ensures { result ≡ spec.reaches buses.now from to }
{
    reached(buses, from)[to as usize]
}

/// Marks the nodes that are reached from a node, in rounds over all buses.
fn reached(buses: &[Bus], from: u32) -> [bool; MARKS]
    requires buses { All (IsBusOf limits.most_nodes) buses.now }
    requires from { from ≤ limits.most_nodes }
    ensures { (to : ℕ) → to ≤ limits.most_nodes → slice_index_or result to false ≡ spec.reaches buses.now from to }
{
    let mut marks = [false; MARKS];
    marks[from as usize] = true;
    while mark_targets(buses, &mut marks) {}
    marks
}

/// Marks the target of each attached bus of a marked node, and answers whether a mark is new.
fn mark_targets(buses: &[Bus], marks: &mut [bool]) -> bool
    requires buses { All (IsBusOf limits.most_nodes) buses.now }
    requires marks { length marks.old ≡ limits.most_nodes + 1 }
    ensures kept { AreKept marks.old marks.new }
    ensures reached { (from : ℕ) → AreReached buses.now from marks.old → AreReached buses.now from marks.new }
    ensures settled { result ≡ false → AreSettled buses.now marks.new }
    ensures fewer { result ≡ true → unmarked marks.new < unmarked marks.old }
{
    let mut is_new = false;
    for bus in buses {
        if mark_target(bus, marks) {
            is_new = true;
        }
    }
    is_new
}

/// Marks the target of a bus where it is attached and its node is marked, and answers whether that
/// mark is new.
fn mark_target(bus: &Bus, marks: &mut [bool]) -> bool
    requires bus { IsBusOf limits.most_nodes bus.now }
    requires marks { length marks.old ≡ limits.most_nodes + 1 }
    ensures marked { result ≡ true → IsMarkedAt bus.now marks.old marks.new }
    ensures same { result ≡ false → marks.new ≡ marks.old }
    ensures settled { result ≡ false → IsSettledAt marks.old bus.now }
{
    match bus.to {
        Some(to) if marks[bus.node as usize] && !marks[to as usize] => {
            marks[to as usize] = true;
            true
        }
        _ => false,
    }
}
