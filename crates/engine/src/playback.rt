//! A scene while it is played, span by span.

use crate::cached_clip::CachedClip;
use crate::room::Room;
use mix_model::MAX_INPUTS;
use node_graph::Stage;
use plain_data::Rows;
use resource_mgr::Tape;
use scene_model::{Bus, NumberedEdit, Scene};
use std::snapshot::Snapshot;

/// A scene at a frame: its stage, where its sounds are in their clips, and room for the work of a
/// span. Lists by node have a place for the endpoint too.
#[derive(Drop)]
pub(crate) struct Playback {
    /// The scene, which only contracts read.
    pub(crate) scene: Snapshot<Scene>,
    /// The number of its frames.
    pub(crate) length: u32,
    /// The number of the frame.
    pub(crate) time: u32,
    /// The scene's channels.
    pub(crate) channels: usize,
    /// The plan before the edits of the frame, or after them.
    pub(crate) stage: Stage,
    /// The clips of the resources, at the scene's rate and channels.
    pub(crate) clips: Vec<CachedClip>,
    /// The tapes of the resources, of which the clips have their pages.
    pub(crate) tapes: Vec<Tape>,
    /// The edits of the scene in the order of their frames.
    pub(crate) edits: Rows<NumberedEdit>,
    /// The place of the first edit that isn't made yet.
    pub(crate) place: usize,
    /// The nodes, each behind those that feed it.
    pub(crate) order: Vec<u32>,
    /// The plan's buses in a topological order.
    pub(crate) ordered_buses: Vec<Bus>,
    /// The number of frames of each node's clip, 0 for a group or a splitter.
    pub(crate) frames: [u64; MAX_INPUTS],
    /// The place of each node in its clip.
    pub(crate) cursors: [u64; MAX_INPUTS],
    /// Which nodes are pulled.
    pub(crate) marks: [bool; MAX_INPUTS],
    pub(crate) room: Room,
}
