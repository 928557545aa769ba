//! Room for the work on the nodes of a span.

ghost use Rattle.std.specs.Prelude.{◌≡◌, ◌≤◌, ◌<◌, ◌+◌, ◌*◌, ℕ, pos, false, length, IfOk, OnOk, IfErr};
ghost use Rattle.mix_fixed.specs.Kernels.{at, AreSamples};
ghost use Rattle.scene_clips.specs.ClipFrames.{clip_length};
ghost use Rattle.scene_model.specs.Limits as limits;
ghost use Rattle.scene_model.specs.Plans.{is_sound};
ghost use Rattle.scene_model.specs.PlanData.{PlanData};
ghost use Rattle.resource_mgr.specs.Tapes.{IsLater, bytes_of};
ghost use Rattle.engine.specs.Needs.{IsMissingAt};
ghost use Rattle.engine.specs.Room.{AreOthersKept, IsRoomFor};
ghost use Rattle.engine.specs.Sounds.{ArePlayed};
ghost use Rattle.engine.specs.Span.{Span, AreInputs, FeedsKept, IsSteadyAt, kept_at, most_span_frames, node_places};

use crate::cached_clip::CachedClip;
use crate::feeds::{FeedRoom, NODE_PLACES};
use crate::need::Missing;
use crate::sounds::play_sound;
use node_graph::Stage;
use plain_data::OutOfMemory;
use resource_mgr::Tape;
use std::alloc::Global;

/// Room for the samples of all nodes over a span, and for the work on one of them.
#[derive(Drop)]
pub(crate) struct Room {
    /// The outputs of the nodes: those of node `n` begin at place `1024 * n`.
    pub(crate) kept: Vec<i32>,
    feeds: FeedRoom,
    /// The samples of the node.
    pub(crate) samples: Vec<i32>,
}

impl Room {
    /// Room for a plan of so many nodes, at most 128, and so many buses, at most 256.
    pub(crate) fn new(alloc: Global, nodes: usize, buses: usize) -> Result<Room, OutOfMemory>
        requires nodes { nodes ≤ limits.most_nodes }
        requires buses { buses ≤ limits.most_buses }
        ensures { IfOk result (λ room. (p : PlanData) → length p.nodes ≡ nodes → length p.buses ≡ buses → IsRoomFor p room) }
    {
        Ok(Room {
            kept: vec![in alloc; 0i32; nodes * NODE_PLACES]?,
            feeds: FeedRoom::new(alloc, buses)?,
            samples: vec![in alloc; 0i32; NODE_PLACES]?,
        })
    }

    /// Mixes the input of a node, which has one, over the first `places` of its samples.
    pub(crate) fn mix(&mut self, stage: &mut Stage, n: u32, time: u32, places: usize)
        requires room { IsRoomFor stage.old self.old }
        requires node { n ≤ length stage.old.nodes }
        requires input { is_sound stage.old.nodes n ≡ false }
        requires few { places ≤ node_places }
        ensures stage { stage.new ≡ stage.old }
        ensures room { IsRoomFor stage.old self.new }
        ensures kept { self.new.kept.items ≡ self.old.kept.items }
        ensures inputs { (s : Span) → s.first.plan ≡ stage.old → s.first.time ≡ time → IsSteadyAt s places →
            FeedsKept s places n self.old.kept.items → AreInputs s places n self.new.samples.items }
    {
        let kept = self.kept.as_slice();
        let samples = self.samples.as_mut_slice();
        self.feeds.mix(stage, n, time, kept, places, samples);
    }

    /// Writes what a sound puts out over the next `frames` frames, at most 512, from its cursor on, as the outputs of node `n`.
    ///
    /// # Errors
    ///
    /// [`Missing`] where a page of the clip that it reads isn't shown yet.
    pub(crate) fn play(
        &mut self,
        n: u32,
        clip: &mut CachedClip,
        tape: &mut Tape,
        looped: bool,
        cursor: u64,
        frames: usize,
    ) -> Result<(), Missing>
        requires room { (n + 1) * node_places ≤ length self.old.kept.items }
        requires range { AreSamples self.old.kept.items }
        requires tape { bytes_of tape.old ≡ clip.old.bytes }
        requires cursor { cursor ≤ clip_length clip.old.bytes clip.old.rate }
        requires channels_least { 1 ≤ clip.old.channels }
        requires channels_most { clip.old.channels ≤ 2 }
        requires few { frames ≤ most_span_frames }
        ensures room { (p : PlanData) → IsRoomFor p self.old → IsRoomFor p self.new }
        ensures others { AreOthersKept n self.old.kept.items self.new.kept.items }
        ensures same { clip.new ≡ clip.old }
        ensures later { OnOk result (IsLater tape.old tape.new) }
        ensures missing { IfErr result (λ m. IsMissingAt clip.old looped cursor frames tape.old tape.new m.page m.shown) }
        ensures played { OnOk result (ArePlayed clip.old looped cursor (frames * clip.old.channels) (kept_at self.new.kept.items n)) }
    {
        let from = n as usize * NODE_PLACES;
        let samples = &mut self.kept.as_mut_slice()[from..from + NODE_PLACES];
        play_sound(clip, tape, looped, cursor, frames, samples)
    }

    /// Writes silence as the outputs of node `n`.
    pub(crate) fn silence(&mut self, n: u32)
        requires room { (n + 1) * node_places ≤ length self.old.kept.items }
        ensures room { (p : PlanData) → IsRoomFor p self.old → IsRoomFor p self.new }
        ensures others { AreOthersKept n self.old.kept.items self.new.kept.items }
        ensures silent { (j : ℕ) → j < node_places → at (kept_at self.new.kept.items n) j ≡ pos 0 }
    {
        let from = n as usize * NODE_PLACES;
        self.kept.as_mut_slice()[from..from + NODE_PLACES].fill(0);
    }

    /// Keeps the first `places` samples of the node as those of node `n`.
    pub(crate) fn keep(&mut self, n: u32, places: usize)
        requires samples { length self.old.samples.items ≡ node_places }
        requires range { AreSamples self.old.samples.items }
        requires room { (n + 1) * node_places ≤ length self.old.kept.items }
        requires few { places ≤ node_places }
        ensures room { (p : PlanData) → IsRoomFor p self.old → IsRoomFor p self.new }
        ensures here { (j : ℕ) → j < places → at self.new.kept.items (n * node_places + j) ≡ at self.old.samples.items j }
        ensures others { AreOthersKept n self.old.kept.items self.new.kept.items }
    {
        let from = n as usize * NODE_PLACES;
        let samples = &self.samples.as_slice()[..places];
        self.kept.as_mut_slice()[from..from + places].copy_from_slice(samples);
    }
}
