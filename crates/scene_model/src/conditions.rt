//! Whether an edit may be applied at all.

ghost use Rattle.std.specs.Prelude.{◌≡◌, ◌&&◌, length};
ghost use Rattle.scene_model.specs.IsPlan as spec;

use crate::edit::Edit;
use crate::limits::{MAX_PLACE, MAX_SEEKS};
use crate::node_state::NodeState;

/// Whether the edit's node and target are there, and a seek is one that can be counted.
pub(crate) fn can_be_made(nodes: &[NodeState], edit: &Edit) -> bool
    ensures { result ≡ (spec.names_nodes (length nodes.now) edit.now && spec.may_seek nodes.now edit.now) }
{
    names_nodes(nodes.len(), edit) && may_seek(nodes, edit)
}

fn names_nodes(nodes: usize, edit: &Edit) -> bool
    ensures { result ≡ spec.names_nodes nodes edit.now }
{
    match *edit {
        Edit::Attach { node, to, .. } => (node as usize) < nodes && to as usize <= nodes,
        Edit::Detach { node, .. }
        | Edit::SetGain { node, .. }
        | Edit::Start { node }
        | Edit::Stop { node }
        | Edit::From { node, .. }
        | Edit::Until { node, .. }
        | Edit::Seek { node, .. }
        | Edit::Loop { node, .. } => (node as usize) < nodes,
    }
}

fn may_seek(nodes: &[NodeState], edit: &Edit) -> bool
    ensures { result ≡ spec.may_seek nodes.now edit.now }
{
    match *edit {
        Edit::Seek { node, place } => place <= MAX_PLACE && seeks(nodes, node) < MAX_SEEKS,
        _ => true,
    }
}

/// The number of seeks that a node has had.
fn seeks(nodes: &[NodeState], node: u32) -> u32
    ensures { result ≡ spec.seeks_at nodes.now node }
{
    match nodes.get(node as usize) {
        Some(state) => state.seeks,
        None => 0,
    }
}
