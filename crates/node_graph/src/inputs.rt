//! The lists of all inputs of a scene: one place for each node and one for the endpoint. The place of
//! a sound, which has no input, has no list.

ghost use Rattle.std.specs.Prelude.{◌≡◌, ◌≤◌, IfOk, IfSome, Some, length};
ghost use Rattle.scene_model.specs.Limits as limits;
ghost use Rattle.scene_model.specs.Plans.{is_sound};
ghost use Rattle.node_graph.specs.Attached.{leads_to};
ghost use Rattle.node_graph.specs.ListChanges.{CanChange, changed};
ghost use Rattle.node_graph.specs.ListData.{ListData, AreInputsOf, HadAtMost, IsInputOf, IsListOf, data_of};

use crate::feed::Feed;
use crate::input_list::InputList;
use crate::list_changes::ListChange;
use bus_list::Both;
use plain_data::OutOfMemory;
use scene_model::{Bus, NodeKind, NodeState, Plan};
use std::alloc::Global;

/// The lists of a plan's inputs, each of which had at most 256 edits.
///
/// # Errors
///
/// [`OutOfMemory`] where there is no memory.
pub(crate) fn inputs_of(alloc: Global, plan: &Plan) -> Result<Vec<InputList>, OutOfMemory>
    ensures inputs { IfOk result (λ inputs. AreInputsOf plan.now inputs.items) }
    ensures edits { IfOk result (λ inputs. HadAtMost limits.most_buses inputs.items) }
{
    let (nodes, buses) = (plan.nodes(), plan.buses());
    let count = nodes.len() as u32 + 1;
    let mut inputs = Vec::with_capacity(alloc, count as usize)?;
    for node in 0..count {
        inputs.push(input_of(alloc, nodes, buses, node)?)?;
    }
    Ok(inputs)
}

/// The list of a node, or none for a sound.
fn input_of(
    alloc: Global,
    nodes: &[NodeState],
    buses: &[Bus],
    node: u32,
) -> Result<InputList, OutOfMemory>
    requires { length buses.now ≤ limits.most_buses }
    ensures input { IfOk result (λ input. IsInputOf (record { nodes = nodes.now; buses = buses.now }) node input) }
    ensures edits { IfOk result (λ input. IfSome input (λ list. length list.history ≤ limits.most_buses)) }
{
    if is_sound(nodes, node) {
        return Ok(InputList::none());
    }
    attached_to(alloc, buses, node)
}

/// The list of the buses that are attached to a node.
fn attached_to(alloc: Global, buses: &[Bus], node: u32) -> Result<InputList, OutOfMemory>
    requires { length buses.now ≤ limits.most_buses }
    ensures { IfOk result (λ input. (list : ListData) × (input ≡ Some list)
        × IsListOf buses.now node list × (length list.history ≤ limits.most_buses)) }
{
    let mut input = InputList::empty(alloc, buses.len() as u32)?;
    for (number, bus) in buses.iter().enumerate() {
        if leads_to(bus, node) {
            input.attach(Feed {
                bus: number as u32,
                node: bus.node,
                out: bus.out,
            });
        }
    }
    Ok(input)
}

/// The linked list of the buses that are attached to a node, of which it has those of the opening as
/// its first edits. It takes all the memory that it will ever need. The buses are at most 256.
///
/// # Errors
///
/// [`OutOfMemory`] where there is no memory.
pub fn open_list(alloc: Global, buses: &[Bus], node: u32) -> Result<Both<Feed>, OutOfMemory>
    requires { length buses.now ≤ limits.most_buses }
    ensures list { IfOk result (λ list. IsListOf buses.now node (data_of list)) }
    ensures edits { IfOk result (λ list. length (data_of list).history ≤ limits.most_buses) }
{
    let input = attached_to(alloc, buses, node)?;
    let Some(list) = input.into_list() else {
        unreachable!()
    };
    Ok(list)
}

/// Whether there is a node of that number, and it is a sound.
fn is_sound(nodes: &[NodeState], node: u32) -> bool
    ensures { result ≡ is_sound nodes.now node }
{
    match nodes.get(node as usize) {
        Some(state) => matches!(state.kind, NodeKind::Sound { .. }),
        None => false,
    }
}

/// Whether a bus is attached to that node.
pub(crate) fn leads_to(bus: &Bus, node: u32) -> bool
    ensures { result ≡ leads_to node bus.now }
{
    match bus.to {
        Some(to) => to == node,
        None => false,
    }
}

/// Makes a change in the lists.
pub(crate) fn change(inputs: &mut [InputList], change: ListChange)
    requires { CanChange inputs.old change }
    ensures { inputs.new ≡ changed inputs.old change }
{
    match change {
        ListChange::Attached { feed, to } => inputs[to as usize].attach(feed),
        ListChange::Detached { bus, from } => inputs[from as usize].detach(bus),
        ListChange::Unchanged => {}
    }
}
