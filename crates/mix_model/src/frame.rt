//! The inputs of all nodes at a frame.

ghost use Rattle.std.specs.Prelude.{◌≡◌, ◌<◌, ◌≤◌, ◌+◌, ℕ, List, length, slice_index_or, if◌then◌else◌, pos};
ghost use Rattle.mix_fixed.specs.Sound.{Is24, IsScaled, sat24, scale, largest_gain};
ghost use Rattle.scene_model.specs.declared.bus.Bus.{Bus as ABus};
ghost use Rattle.scene_model.specs.IsPlan.{IsBusOf};
ghost use Rattle.mix_model.specs.Pulled.{no_node, is_active as active};
ghost use Rattle.mix_model.specs.Signals.{clip_sample_at, kind_output, input};
ghost use Rattle.mix_model.specs.OrderedBuses.{frame_state_of, AreOrderedBuses, HaveChannel, sum_at, ShareAdded, AreWithin};

use crate::pull::is_active;
use mix_fixed::{Gain, sat24, scale};
use scene_clips::SceneClip;
use scene_model::{Bus, NodeKind, NodeState};

/// Computes the input of each node and of the endpoint, before saturation, in one channel. The
/// buses are in a topological order, so that each sum is whole before it is passed on, and each bus
/// is looked at once.
pub(crate) fn inputs(
    nodes: &[NodeState],
    ordered_buses: &[Bus],
    clips: &[SceneClip],
    cursors: &[u64],
    time: u32,
    channel: u8,
    sums: &mut [i64],
)
    requires ordered_buses { AreOrderedBuses (length nodes.now) ordered_buses.now }
    requires cursors { length nodes.now ≤ length cursors.now }
    requires sums { length nodes.now < length sums.old }
    requires clips { HaveChannel channel clips.now }
    ensures { (n : ℕ) → n ≤ length nodes.now →
        sat24 (sum_at sums.new n) ≡ input (frame_state_of nodes.now ordered_buses.now time clips.now cursors.now) channel n }
{
    sums.fill(0);
    for bus in ordered_buses {
        add_share(nodes, clips, cursors, time, channel, bus, sums);
    }
}

/// Adds a bus's share to the sum of the node to which it is attached.
fn add_share(
    nodes: &[NodeState],
    clips: &[SceneClip],
    cursors: &[u64],
    time: u32,
    channel: u8,
    bus: &Bus,
    sums: &mut [i64],
)
    requires bus { IsBusOf (length nodes.now) bus.now }
    requires gain { bus.now.gain ≤ largest_gain }
    requires cursors { length nodes.now ≤ length cursors.now }
    requires sums { length nodes.now < length sums.old }
    requires clips { HaveChannel channel clips.now }
    requires within { AreWithin 1024 sums.old }
    ensures added { (buses : List ABus) →
        ShareAdded (frame_state_of nodes.now buses time clips.now cursors.now) channel bus.now sums.old sums.new }
    ensures within { (count : ℕ) → AreWithin count sums.old → AreWithin (count + 1) sums.new }
{
    let Some(to) = bus.to else { return };
    let from = bus.node as usize;
    let input = sat24(sums[from]);
    let output = output(&nodes[from], clips, cursors[from], channel, input);
    let share = share(&nodes[from], time, bus.gain, output);
    sums[to as usize] += i64::from(share);
}

/// What a bus passes on of its node's output: that by its gain, or 0 where the node isn't active.
fn share(node: &NodeState, time: u32, gain: u32, output: i32) -> i32
    requires output { Is24 output }
    requires gain { gain ≤ largest_gain }
    ensures value { result ≡ (if active time node.now then scale output gain else pos 0) }
    ensures range { IsScaled result }
{
    if !is_active(node, time) {
        return 0;
    }
    match Gain::new(gain) {
        Some(gain) => scale(output, gain),
        None => 0,
    }
}

/// The output of a node: a sound's is its clip's sample at the cursor, that of a group or a
/// splitter its input.
fn output(node: &NodeState, clips: &[SceneClip], cursor: u64, channel: u8, input: i32) -> i32
    requires clips { HaveChannel channel clips.now }
    requires input { Is24 input }
    ensures value { result ≡ kind_output clips.now channel cursor input node.now.kind }
    ensures range { Is24 result }
{
    match node.kind {
        NodeKind::Sound { resource, .. } => sample(clips, resource, cursor, channel),
        NodeKind::Group | NodeKind::Splitter { .. } => input,
    }
}

/// A clip's sample at a place, and 0 at the clip's end.
fn sample(clips: &[SceneClip], resource: u32, place: u64, channel: u8) -> i32
    requires { HaveChannel channel clips.now }
    ensures value { result ≡ clip_sample_at clips.now resource place channel }
    ensures range { Is24 result }
{
    match clips.get(resource as usize) {
        Some(clip) if place < clip.len() => clip.sample(place, channel),
        _ => 0,
    }
}
