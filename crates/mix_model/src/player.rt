//! A scene while it is played, frame by frame.

ghost use Rattle.std.specs.Prelude.{◌≡◌, ◌<◌, ◌≤◌, ◌+◌, ◌++◌, All, length, map, IfOk};
ghost use Rattle.clip_decode.specs.ClipData.{ClipData};
ghost use Rattle.mix_model.specs.Mix.{clips_of, frame_state, frames_from};
ghost use Rattle.clip_decode.specs.Frames.{interleaved};
ghost use Rattle.mix_model.specs.Playing.{IsBefore, IsAt};
ghost use Rattle.mix_model.specs.Signals.{frame};
ghost use Rattle.clip_decode.specs.Limits.{most_sound_bytes};

use crate::clips::{clip_lengths, decoded, frames_of};
use crate::cursors::advance_cursors;
use crate::edits::make_due;
use crate::frame::inputs;
use crate::order::{MAX_INPUTS, topological_order};
use crate::pull::mark_pulled;
use clip_decode::Clip;
use mix_fixed::sat24;
use plain_data::{OutOfMemory, Rows};
use scene_clips::SceneClip;
use scene_model::{Bus, NumberedEdit, Plan, Scene, edits_in_order};
use std::alloc::Global;

/// A scene before a frame: its plan, where its sounds are in their clips, and room for the work of
/// a frame. Lists by node have a place for the endpoint too.
#[derive(Drop)]
pub(crate) struct Player {
    /// The number of the frame.
    pub(crate) time: u32,
    /// The plan before the edits of the frame.
    plan: Plan,
    /// The clips of the resources, at the scene's rate and channels.
    pub(crate) clips: Vec<SceneClip>,
    /// The edits of the scene in the order of their frames.
    edits: Rows<NumberedEdit>,
    /// The plan's buses in a topological order.
    ordered_buses: Vec<Bus>,
    /// The place of the first edit that isn't made yet.
    place: usize,
    /// The number of frames of each node's clip, 0 for a group or a splitter.
    frames: [u64; MAX_INPUTS],
    /// The place of each node in its clip.
    cursors: [u64; MAX_INPUTS],
    /// Which nodes are pulled.
    marks: [bool; MAX_INPUTS],
    /// The sums of what is added to each input.
    sums: [i64; MAX_INPUTS],
}

impl Player {
    /// A scene before its first frame. A resource's clip has at most 67,108,864 bytes.
    pub(crate) fn new(alloc: Global, scene: &Scene, clips: &[Clip]) -> Result<Player, OutOfMemory>
        requires { All (λ (c : ClipData). length c.bytes ≤ most_sound_bytes) clips.now }
        ensures before { IfOk result (λ player. IsBefore scene.now player) }
        ensures start { IfOk result (λ player. player.time ≡ 0) }
        ensures clips { IfOk result (λ player. player.clips.items
            ≡ clips_of scene.now (map (λ (c : ClipData). c.bytes) clips.now)) }
    {
        let clips = decoded(alloc, scene, clips)?;
        let edits = edits_in_order(alloc, scene.edits.as_slice())?;
        let plan = Plan::opening(alloc, scene)?;
        let ordered_buses = topological_order(alloc, plan.buses())?;
        let lengths = frames_of(alloc, clips.as_slice())?;
        let frames = clip_lengths(scene, lengths.as_slice());
        Ok(Player {
            time: 0,
            plan,
            clips,
            edits,
            ordered_buses,
            place: 0,
            frames,
            cursors: [0; MAX_INPUTS],
            marks: [false; MAX_INPUTS],
            sums: [0; MAX_INPUTS],
        })
    }

    /// Plays so many frames, one after the other, and appends their samples, interleaved.
    pub(crate) fn play_all(
        &mut self,
        alloc: Global,
        scene: &Scene,
        count: u32,
        samples: &mut Vec<i32>,
    ) -> Result<(), OutOfMemory>
        requires before { IsBefore scene.now self.old }
        requires left { self.old.time + count ≤ scene.now.length }
        ensures before { IfOk result (λ _. IsBefore scene.now self.new) }
        ensures next { IfOk result (λ _. (self.new.time ≡ self.old.time + count) × (self.new.clips.items ≡ self.old.clips.items)) }
        ensures samples { IfOk result (λ _. samples.new.items
            ≡ samples.old.items ++ interleaved (frames_from self.old.clips.items scene.now self.old.time count)) }
    {
        for _ in 0..count {
            self.play(alloc, scene, samples)?;
        }
        Ok(())
    }

    /// Plays a frame: appends its samples, one for each channel, to `samples`, and goes on to the
    /// next frame.
    fn play(
        &mut self,
        alloc: Global,
        scene: &Scene,
        samples: &mut Vec<i32>,
    ) -> Result<(), OutOfMemory>
        requires before { IsBefore scene.now self.old }
        requires left { self.old.time < scene.now.length }
        ensures before { IfOk result (λ _. IsBefore scene.now self.new) }
        ensures next { IfOk result (λ _. (self.new.time ≡ self.old.time + 1) × (self.new.clips.items ≡ self.old.clips.items)) }
        ensures samples { IfOk result (λ _. samples.new.items
            ≡ samples.old.items ++ frame (frame_state self.old.clips.items scene.now self.old.time) scene.now.channels) }
    {
        self.edit(alloc, scene)?;
        self.sound(scene, samples)?;
        self.advance(scene);
        Ok(())
    }

    /// Makes the edits of the frame.
    fn edit(&mut self, alloc: Global, scene: &Scene) -> Result<(), OutOfMemory>
        requires before { IsBefore scene.now self.old }
        requires left { self.old.time < scene.now.length }
        ensures at { IfOk result (λ _. IsAt scene.now self.new) }
        ensures same { (self.new.time ≡ self.old.time) × (self.new.clips.items ≡ self.old.clips.items) }
    {
        let edits = self.edits.as_slice();
        let frames = self.frames.as_slice();
        let plan = &mut self.plan;
        let cursors = self.cursors.as_mut_slice();
        let place = make_due(edits, self.place, self.time, plan, frames, cursors);
        if place != self.place {
            self.ordered_buses = topological_order(alloc, self.plan.buses())?;
            self.place = place;
        }
        Ok(())
    }

    /// Appends the endpoint's input in each channel.
    fn sound(&mut self, scene: &Scene, samples: &mut Vec<i32>) -> Result<(), OutOfMemory>
        requires { IsAt scene.now self.old }
        ensures samples { IfOk result (λ _. samples.new.items
            ≡ samples.old.items ++ frame (frame_state self.old.clips.items scene.now self.old.time) scene.now.channels) }
        ensures same { self.new ≡ record self.old { sums = self.new.sums } }
    {
        let nodes = self.plan.nodes();
        let ordered_buses = self.ordered_buses.as_slice();
        let clips = self.clips.as_slice();
        let cursors = self.cursors.as_slice();
        let sums = &mut self.sums.as_mut_slice()[..=nodes.len()];
        for channel in 0..scene.channels {
            inputs(
                nodes,
                ordered_buses,
                clips,
                cursors,
                self.time,
                channel,
                sums,
            );
            samples.push(sat24(sums[nodes.len()]))?;
        }
        Ok(())
    }

    /// Moves the cursors on, and goes to the next frame.
    fn advance(&mut self, scene: &Scene)
        requires { IsAt scene.now self.old }
        ensures before { IsBefore scene.now self.new }
        ensures next { (self.new.time ≡ self.old.time + 1) × (self.new.clips.items ≡ self.old.clips.items) }
    {
        let nodes = self.plan.nodes();
        let marks = &mut self.marks.as_mut_slice()[..=nodes.len()];
        mark_pulled(nodes, self.ordered_buses.as_slice(), self.time, marks);
        advance_cursors(
            nodes,
            marks,
            self.frames.as_slice(),
            self.cursors.as_mut_slice(),
        );
        self.time += 1;
    }
}
