//! A scene before its first frame.

ghost use Rattle.std.specs.Prelude.{◌≡◌, ◌<◌, ◌≤◌, ℕ, List, map, length, slice_index, IfOk};
ghost use Rattle.mix_model.specs.Mix.{AreFramesOf, clips_of};
ghost use Rattle.resource_mgr.specs.Tapes.{files_of};
ghost use Rattle.scene_model.specs.Limits as limits;
ghost use Rattle.engine.specs.Playing.{IsBefore};

use crate::cached_clip::{CachedClip, cached};
use crate::order::put_in_order;
use crate::playback::Playback;
use crate::room::Room;
use mix_model::{MAX_INPUTS, clip_lengths};
use node_graph::Stage;
use plain_data::OutOfMemory;
use resource_mgr::Tape;
use scene_model::{Scene, edits_in_order};
use std::alloc::Global;
use std::snapshot::Snapshot;

impl Playback {
    /// A scene before its first frame, with the tapes of its resources, in their order.
    pub(crate) fn open(
        alloc: Global,
        scene: &Scene,
        tapes: Vec<Tape>,
    ) -> Result<Playback, OutOfMemory>
        ensures before { IfOk result (λ p. IsBefore p) }
        ensures time { IfOk result (λ p. p.time ≡ 0) }
        ensures scene { IfOk result (λ p. p.scene.value ≡ scene.now) }
        ensures clips { IfOk result (λ p. p.clips.items ≡ clips_of scene.now (files_of tapes.items)) }
        ensures tapes { IfOk result (λ p. p.tapes.items ≡ tapes.items) }
    {
        let edits = edits_in_order(alloc, scene.edits.as_slice())?;
        let stage = Stage::open(alloc, scene)?;
        let plan = stage.plan();
        let nodes = plan.nodes().len();
        let mut order = numbers(alloc, nodes as u32)?;
        let mut ordered_buses = Vec::from_slice(alloc, plan.buses())?;
        let room = Room::new(alloc, nodes, plan.buses().len())?;
        let (places, buses) = (order.as_mut_slice(), ordered_buses.as_mut_slice());
        put_in_order(plan, places, buses);
        let clips = cached(alloc, scene.rate, scene.channels, tapes.as_slice())?;
        let lengths = frames_of(alloc, clips.as_slice())?;
        let frames = clip_lengths(scene, lengths.as_slice());
        Ok(Playback {
            scene: Snapshot::of(scene),
            length: scene.length,
            time: 0,
            channels: usize::from(scene.channels),
            stage,
            clips,
            tapes,
            edits,
            place: 0,
            order,
            ordered_buses,
            frames,
            cursors: [0; MAX_INPUTS],
            marks: [false; MAX_INPUTS],
            room,
        })
    }
}

/// The numbers below `count`, in order.
fn numbers(alloc: Global, count: u32) -> Result<Vec<u32>, OutOfMemory>
    ensures count { IfOk result (λ numbers. length numbers.items ≡ count) }
    ensures each { IfOk result (λ numbers. (k : ℕ) → k < count → slice_index numbers.items k ≡ k) }
{
    let mut numbers = Vec::new(alloc);
    for number in 0..count {
        numbers.push(number)?;
    }
    Ok(numbers)
}

/// The number of frames of each clip.
fn frames_of(alloc: Global, clips: &[CachedClip]) -> Result<Vec<u64>, OutOfMemory>
    ensures { IfOk result (λ frames. AreFramesOf clips.now frames.items) }
{
    let mut frames = Vec::new(alloc);
    for k in 0..clips.len() {
        frames.push(clips[k].len())?;
    }
    Ok(frames)
}
