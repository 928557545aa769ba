//! What an edit is answered.

ghost use Rattle.std.specs.Prelude.{◌≡◌, ◌≤◌, length, IsTrue, All};
ghost use Rattle.scene_model.specs.IsPlan.{IsBusOf, names_nodes};
ghost use Rattle.scene_model.specs.Limits as limits;
ghost use Rattle.scene_model.specs.Plans as spec;

use crate::bus::{Bus, target};
use crate::edit::Edit;
use crate::node::NodeKind;
use crate::node_state::NodeState;
use crate::reach::reaches;
use crate::reply::Reply;
use mix_fixed::MAX_GAIN;

/// What an edit is answered: the first refusal whose condition holds, or `Done`. The edit names
/// nodes that are there.
pub(crate) fn reply_to(nodes: &[NodeState], buses: &[Bus], edit: &Edit) -> Reply
    requires nodes { length nodes.now ≤ limits.most_nodes }
    requires buses { All (IsBusOf (length nodes.now)) buses.now }
    requires edit { IsTrue (names_nodes (length nodes.now) edit.now) }
    ensures { result ≡ spec.reply (record { nodes = nodes.now; buses = buses.now }) edit.now }
{
    match *edit {
        Edit::Attach { node, out, to } => reply_to_attach(nodes, buses, node, out, to),
        Edit::Detach { node, out } => reply_to_detach(nodes, buses, node, out),
        Edit::SetGain { node, out, gain } => reply_to_gain(nodes, node, out, gain),
        Edit::Start { .. } | Edit::Stop { .. } | Edit::From { .. } | Edit::Until { .. } => {
            Reply::Done
        }
        Edit::Seek { node, .. } | Edit::Loop { node, .. } => reply_to_sound(nodes, node),
    }
}

fn reply_to_attach(nodes: &[NodeState], buses: &[Bus], node: u32, out: u8, to: u32) -> Reply
    requires buses { All (IsBusOf limits.most_nodes) buses.now }
    requires node { node ≤ limits.most_nodes }
    requires to { to ≤ limits.most_nodes }
    ensures { result ≡ spec.reply (record { nodes = nodes.now; buses = buses.now }) (Edit.Attach node out to) }
{
    if !has_output(nodes, node, out) {
        return Reply::NoSuchBus;
    }
    if is_sound(nodes, to) {
        return Reply::NoInput;
    }
    match target(buses, node, out) {
        Some(to) => Reply::AlreadyAttached { to },
        None if reaches(buses, to, node) => Reply::Cycle { node: to },
        None => Reply::Done,
    }
}

fn reply_to_detach(nodes: &[NodeState], buses: &[Bus], node: u32, out: u8) -> Reply
    ensures { result ≡ spec.reply (record { nodes = nodes.now; buses = buses.now }) (Edit.Detach node out) }
{
    if !has_output(nodes, node, out) {
        return Reply::NoSuchBus;
    }
    match target(buses, node, out) {
        Some(_) => Reply::Done,
        None => Reply::NotAttached,
    }
}

fn reply_to_gain(nodes: &[NodeState], node: u32, out: u8, gain: u32) -> Reply
    ensures { result ≡ spec.gain_reply nodes.now node out gain }
{
    if !has_output(nodes, node, out) {
        return Reply::NoSuchBus;
    }
    if gain > MAX_GAIN {
        return Reply::GainTooLarge;
    }
    Reply::Done
}

fn reply_to_sound(nodes: &[NodeState], node: u32) -> Reply
    ensures { result ≡ spec.sound_reply nodes.now node }
{
    if is_sound(nodes, node) {
        Reply::Done
    } else {
        Reply::NotSound
    }
}

/// Whether the node has an output of that number.
fn has_output(nodes: &[NodeState], node: u32, out: u8) -> bool
    ensures { result ≡ spec.has_output nodes.now node out }
{
    match nodes.get(node as usize) {
        Some(state) => out < state.kind.outputs(),
        None => false,
    }
}

/// Whether the node is a sound, which the endpoint isn't.
fn is_sound(nodes: &[NodeState], node: u32) -> bool
    ensures { result ≡ spec.is_sound nodes.now node }
{
    match nodes.get(node as usize) {
        Some(state) => matches!(state.kind, NodeKind::Sound { .. }),
        None => false,
    }
}
