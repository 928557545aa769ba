//! What an edit that is done changes in the lists of the inputs.

ghost use Rattle.std.specs.Prelude.{◌≡◌, ◌≤◌, length};
ghost use Rattle.scene_model.specs.Limits as limits;
ghost use Rattle.node_graph.specs.ListChanges as spec;

use crate::feed::Feed;
use scene_model::{Bus, Edit, target};

/// A change of one list.
#[derive(Debug, Clone, Copy, PartialEq, Eq)]
pub enum ListChange {
    /// A bus is attached to an input.
    Attached {
        /// The bus as it stands in the list.
        feed: Feed,
        /// The number of the node, or of the endpoint.
        to: u32,
    },
    /// A bus is detached from an input.
    Detached {
        /// The number of the bus among those of all nodes.
        bus: u32,
        /// The number of the node, or of the endpoint.
        from: u32,
    },
    /// No list changes.
    Unchanged,
}

/// What the edit changes in the lists where it is done. The buses are those before the edit, at most
/// 256.
pub fn list_change(buses: &[Bus], edit: &Edit) -> ListChange
    requires { length buses.now ≤ limits.most_buses }
    ensures { result ≡ spec.list_change buses.now edit.now }
{
    match *edit {
        Edit::Attach { node, out, to } => match number_of(buses, node, out) {
            Some(bus) => ListChange::Attached {
                feed: Feed { bus, node, out },
                to,
            },
            None => ListChange::Unchanged,
        },
        Edit::Detach { node, out } => {
            match (number_of(buses, node, out), target(buses, node, out)) {
                (Some(bus), Some(from)) => ListChange::Detached { bus, from },
                _ => ListChange::Unchanged,
            }
        }
        Edit::SetGain { .. }
        | Edit::Start { .. }
        | Edit::Stop { .. }
        | Edit::From { .. }
        | Edit::Until { .. }
        | Edit::Seek { .. }
        | Edit::Loop { .. } => ListChange::Unchanged,
    }
}

/// The number of an output among all buses, of which there are at most 256, or `None` where no bus is
/// that output.
pub fn number_of(buses: &[Bus], node: u32, out: u8) -> Option<u32>
    requires { length buses.now ≤ limits.most_buses }
    ensures { result ≡ spec.number_of buses.now node out }
{
    for (number, bus) in buses.iter().enumerate() {
        if bus.is_output(node, out) {
            return Some(number as u32);
        }
    }
    None
}
