//! The buses that are attached to a node, as the buses themselves say it.

ghost use Rattle.std.specs.Prelude.{◌≡◌, ◌≤◌, ℕ, drop, if◌then◌else◌, length, take};
ghost use Rattle.scene_model.specs.Limits as limits;
ghost use Rattle.node_graph.specs.Attached.{count_of, is_attached};

use crate::inputs::leads_to;
use scene_model::Bus;

/// Writes the numbers of the buses that are attached to a node, each once, to the front of a slice
/// that has room for all buses, and answers how many they are. The rest of the slice stays as it was.
pub(crate) fn write_attached(buses: &[Bus], node: u32, into: &mut [u32]) -> usize
    requires few { length buses.now ≤ limits.most_buses }
    requires room { length buses.now ≤ length into.old }
    ensures each { (number : ℕ) → count_of number (take result into.new) ≡ (if is_attached buses.now node number then 1 else 0) }
    ensures count { result ≤ length into.old }
    ensures rest { drop result into.new ≡ drop result into.old }
{
    let mut count = 0;
    for (number, bus) in buses.iter().enumerate() {
        if leads_to(bus, node) {
            into[count] = number as u32;
            count += 1;
        }
    }
    count
}
