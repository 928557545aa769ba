//! The nodes of a span, one after the other.

ghost use Rattle.std.specs.Prelude.{◌≡◌, ◌≤◌, ◌<◌, ◌+◌, ◌*◌, ℕ, pos, true, false, None, IfSome, OnOk, IfErr, length, map, slice_get, slice_index};
ghost use Rattle.mix_fixed.specs.Kernels.{at, AreSamples};
ghost use Rattle.scene_clips.specs.SceneClipData.{SceneClipData};
ghost use Rattle.scene_model.specs.PlanData.{PlanData};
ghost use Rattle.scene_model.specs.Plans.{is_sound_kind};
ghost use Rattle.mix_model.specs.Pulled.{node, pulled};
ghost use Rattle.engine.specs.Nodes.{AreKept, AreMarked, IsPlayable, IsSoundOf, IsSpanOf};
ghost use Rattle.resource_mgr.specs.Tapes.{AreLater, files_of};
ghost use Rattle.engine.specs.Needs.{IsMissingOf, IsNeeded};
ghost use Rattle.engine.specs.Room.{AreOthersKept, IsRoomFor};
ghost use Rattle.engine.specs.Sounds.{ArePlayed, IsPlayedAt};
ghost use Rattle.engine.specs.Span.{Span, AreOutputs, FeedsKept, kept_at, most_span_frames, node_places};

use crate::cached_clip::CachedClip;
use crate::need::Need;
use crate::playback::Playback;
use crate::room::Room;
use resource_mgr::Tape;
use scene_model::NodeKind;

impl Playback {
    /// Renders all nodes that are pulled over the next `count` frames, at most 512, in which none
    /// begins or ceases to be active: keeps the outputs of each.
    ///
    /// # Errors
    ///
    /// [`Need`] where a sound reads a page that isn't shown yet.
    pub(crate) fn render_nodes(&mut self, count: usize) -> Result<(), Need>
        requires playable { IsPlayable self.old }
        requires marked { AreMarked self.old }
        requires few { count ≤ most_span_frames }
        ensures same { self.new ≡ record self.old { room = self.new.room; clips = self.new.clips; tapes = self.new.tapes } }
        ensures clips { self.new.clips.items ≡ self.old.clips.items }
        ensures tapes { AreLater self.old.tapes.items self.new.tapes.items }
        ensures room { IsRoomFor self.old.stage self.new.room }
        ensures need { IfErr result (λ need. IsNeeded self.old self.new.tapes.items count need.resource need.page need.shown) }
        ensures kept { OnOk result ((s : Span) → IsSpanOf s self.old count →
            AreKept s (count * self.old.channels) (length self.old.order.items) self.old.order.items self.new.room.kept.items) }
    {
        for k in 0..self.order.len() {
            let n = self.order.as_slice()[k];
            self.render_next(n, count)?;
        }
        Ok(())
    }

    /// Renders a node, if it is pulled, and keeps its outputs.
    fn render_next(&mut self, n: u32, count: usize) -> Result<(), Need>
        requires playable { IsPlayable self.old }
        requires marked { AreMarked self.old }
        requires node { n < length self.old.stage.nodes }
        requires few { count ≤ most_span_frames }
        ensures same { self.new ≡ record self.old { room = self.new.room; clips = self.new.clips; tapes = self.new.tapes } }
        ensures clips { self.new.clips.items ≡ self.old.clips.items }
        ensures tapes { AreLater self.old.tapes.items self.new.tapes.items }
        ensures room { IsRoomFor self.old.stage self.new.room }
        ensures need { IfErr result (λ need. IsNeeded self.old self.new.tapes.items count need.resource need.page need.shown) }
        ensures next { OnOk result ((s : Span) (k : ℕ) → IsSpanOf s self.old count → k < length self.old.order.items → slice_index self.old.order.items k ≡ n →
            AreKept s (count * self.old.channels) k self.old.order.items self.old.room.kept.items →
            AreKept s (count * self.old.channels) (k + 1) self.old.order.items self.new.room.kept.items) }
    {
        if !self.marks[n as usize] {
            return Ok(());
        }
        self.render_node(n, count)?;
        Ok(())
    }

    /// Renders a node that is pulled, and keeps its outputs.
    fn render_node(&mut self, n: u32, count: usize) -> Result<(), Need>
        requires playable { IsPlayable self.old }
        requires node { n < length self.old.stage.nodes }
        requires pulled { pulled self.old.stage self.old.time n ≡ true }
        requires few { count ≤ most_span_frames }
        ensures same { self.new ≡ record self.old { room = self.new.room; clips = self.new.clips; tapes = self.new.tapes } }
        ensures clips { self.new.clips.items ≡ self.old.clips.items }
        ensures tapes { AreLater self.old.tapes.items self.new.tapes.items }
        ensures room { IsRoomFor self.old.stage self.new.room }
        ensures others { AreOthersKept n self.old.room.kept.items self.new.room.kept.items }
        ensures need { IfErr result (λ need. IsNeeded self.old self.new.tapes.items count need.resource need.page need.shown) }
        ensures outputs { OnOk result ((s : Span) → IsSpanOf s self.old count →
            FeedsKept s (count * self.old.channels) n self.old.room.kept.items →
            AreOutputs s (count * self.old.channels) n (kept_at self.new.room.kept.items n)) }
    {
        let kind = self.stage.plan().nodes()[n as usize].kind;
        match resource_of(kind) {
            Some(resource) => self.play_sound(n, resource, count),
            None => {
                let places = count * self.channels;
                self.room.mix(&mut self.stage, n, self.time, places);
                self.room.keep(n, places);
                Ok(())
            }
        }
    }

    /// Writes what a sound of this resource puts out, from its place in the clip on, and keeps it.
    fn play_sound(&mut self, n: u32, resource: u32, count: usize) -> Result<(), Need>
        requires playable { IsPlayable self.old }
        requires node { n < length self.old.stage.nodes }
        requires sound { IsSoundOf resource (node self.old.stage n).kind }
        requires pulled { pulled self.old.stage self.old.time n ≡ true }
        requires few { count ≤ most_span_frames }
        ensures same { self.new ≡ record self.old { room = self.new.room; clips = self.new.clips; tapes = self.new.tapes } }
        ensures clips { self.new.clips.items ≡ self.old.clips.items }
        ensures tapes { AreLater self.old.tapes.items self.new.tapes.items }
        ensures room { IsRoomFor self.old.stage self.new.room }
        ensures others { AreOthersKept n self.old.room.kept.items self.new.room.kept.items }
        ensures need { IfErr result (λ need. IsNeeded self.old self.new.tapes.items count need.resource need.page need.shown) }
        ensures outputs { OnOk result ((s : Span) → IsSpanOf s self.old count →
            AreOutputs s (count * self.old.channels) n (kept_at self.new.room.kept.items n)) }
    {
        let looped = self.stage.plan().nodes()[n as usize].looped;
        let cursor = self.cursors[n as usize];
        let clips = self.clips.as_mut_slice();
        let tapes = self.tapes.as_mut_slice();
        play_resource(
            clips,
            tapes,
            resource,
            looped,
            cursor,
            count,
            n,
            &mut self.room,
        )?;
        Ok(())
    }
}

/// Writes what a sound of this resource puts out over the next `count` frames, from its cursor on, as the outputs of node `n`.
/// Where there is no such resource, it is silent.
fn play_resource(
    clips: &mut [CachedClip],
    tapes: &mut [Tape],
    resource: u32,
    looped: bool,
    cursor: u64,
    count: usize,
    n: u32,
    room: &mut Room,
) -> Result<(), Need>
    requires alike { files_of tapes.old ≡ map (λ (c : SceneClipData). c.bytes) clips.old }
    requires clip { IfSome (slice_get clips.old resource) (λ clip. IsPlayedAt clip cursor) }
    requires room { (n + 1) * node_places ≤ length room.old.kept.items }
    requires range { AreSamples room.old.kept.items }
    requires few { count ≤ most_span_frames }
    ensures clips { clips.new ≡ clips.old }
    ensures tapes { AreLater tapes.old tapes.new }
    ensures room { (p : PlanData) → IsRoomFor p room.old → IsRoomFor p room.new }
    ensures others { AreOthersKept n room.old.kept.items room.new.kept.items }
    ensures need { IfErr result (λ need. (need.resource ≡ resource)
        × IsMissingOf clips.old looped cursor count tapes.old tapes.new resource need.page need.shown) }
    ensures played { OnOk result (IfSome (slice_get clips.old resource) (λ clip. ArePlayed clip looped cursor (count * clip.channels) (kept_at room.new.kept.items n))) }
    ensures silent { slice_get clips.old resource ≡ None → (j : ℕ) → j < node_places → at (kept_at room.new.kept.items n) j ≡ pos 0 }
{
    let k = resource as usize;
    if k >= clips.len() {
        room.silence(n);
        return Ok(());
    }
    match room.play(n, &mut clips[k], &mut tapes[k], looped, cursor, count) {
        Ok(()) => Ok(()),
        Err(missing) => Err(missing.of_resource(resource)),
    }
}

/// The resource of a sound.
fn resource_of(kind: NodeKind) -> Option<u32>
    ensures some { IfSome result (λ resource. IsSoundOf resource kind) }
    ensures none { result ≡ None → is_sound_kind kind ≡ false }
{
    match kind {
        NodeKind::Sound { resource, .. } => Some(resource),
        NodeKind::Group => None,
        NodeKind::Splitter { .. } => None,
    }
}
