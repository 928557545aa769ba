//! A block: frames that follow one another, in which no edit falls.

ghost use Rattle.std.specs.Prelude.{◌≡◌, ◌≤◌, ◌<◌, ◌+◌, ◌-◌, ◌*◌, ◌/◌, ◌%◌, ℕ, length, All, OnOk, OnErr, IfErr};
ghost use Rattle.mix_fixed.specs.Kernels.{at};
ghost use Rattle.mix_model.specs.Mix.{frame_state};
ghost use Rattle.mix_model.specs.Pulled.{endpoint};
ghost use Rattle.mix_model.specs.Signals.{input};
ghost use Rattle.mix_model.specs.Spans.{IsSteady};
ghost use Rattle.scene_model.specs.IsPlan.{IsPlan};
ghost use Rattle.scene_model.specs.Order.{in_order};
ghost use Rattle.scene_model.specs.Times.{plan};
ghost use Rattle.resource_mgr.specs.Tapes.{AreLater};
ghost use Rattle.engine.specs.Needs.{ReadsPage, WasNotShownOf};
ghost use Rattle.engine.specs.Playing.{IsAt, IsBefore, IsBlock, IsInBlock, NoEditsBetween};
ghost use Rattle.engine.specs.Span.{most_span_frames};

use crate::edits::make_due;
use crate::need::Need;
use crate::order::put_in_order;
use crate::playback::Playback;
use crate::steady::span_end;
use node_graph::Stage;
use scene_model::Plan;

/// The most frames of a block.
const BLOCK_FRAMES: u32 = 512;

/// The plan of a stage, which keeps its limits.
fn lawful_plan(stage: &Stage) -> &Plan
    ensures value { result.now ≡ stage.now }
    ensures lawful { IsPlan stage.now }
{
    let plan = stage.plan();
    // Its nodes say that it keeps them.
    let _nodes = plan.nodes();
    plan
}

impl Playback {
    /// Makes the edits of the frame. It takes no memory.
    pub(crate) fn edit(&mut self)
        requires before { IsBefore self.old }
        requires left { self.old.time < self.old.scene.value.length }
        ensures at { IsAt self.new }
        ensures same { self.new ≡ record self.old { stage = self.new.stage; place = self.new.place; order = self.new.order; ordered_buses = self.new.ordered_buses; cursors = self.new.cursors } }
    {
        let edits = self.edits.as_slice();
        let frames = self.frames.as_slice();
        let cursors = self.cursors.as_mut_slice();
        let made = make_due(
            edits,
            self.place,
            self.time,
            &mut self.stage,
            frames,
            cursors,
        );
        self.place = made.next;
        let plan = lawful_plan(&self.stage);
        if made.buses {
            let (order, buses) = (self.order.as_mut_slice(), self.ordered_buses.as_mut_slice());
            put_in_order(plan, order, buses);
        }
    }

    /// The frame after the block that begins at this one: 512 frames later, or the next with an edit or
    /// the scene's end where that comes first.
    pub(crate) fn block_end(&self) -> u32
        requires at { IsAt self.now }
        ensures after { self.now.time < result }
        ensures block { IsBlock self.now.scene.value self.now.time (result - self.now.time) }
        ensures quiet { NoEditsBetween (in_order self.now.scene.value.edits) self.now.time result }
    {
        let end = self.length.min(self.time + BLOCK_FRAMES);
        match self.edits.as_slice().get(self.place) {
            Some(edit) => end.min(edit.row.at),
            None => end,
        }
    }

    /// Renders the frames of a block that begins at frame `start` and ends before frame `end`, at most 512, from the playback's frame on,
    /// into their places in `out`, interleaved. No edit falls between. Where it stops, it can go on later.
    ///
    /// # Errors
    ///
    /// [`Need`] where a sound reads a page that isn't shown yet. The frames before it are rendered then.
    pub(crate) fn render_block(&mut self, start: u32, end: u32, out: &mut [i32]) -> Result<(), Need>
        requires standing { IsInBlock self.old start end out.old }
        ensures standing { IsInBlock self.new start end out.new }
        ensures end { OnOk result (self.new.time ≡ end) }
        ensures scene { self.new.scene.value ≡ self.old.scene.value }
        ensures clips { self.new.clips.items ≡ self.old.clips.items }
        ensures tapes { AreLater self.old.tapes.items self.new.tapes.items }
        ensures need { IfErr result (λ need. ReadsPage self.old.clips.items self.old.scene.value start end need.resource need.page
            × WasNotShownOf need.resource self.old.tapes.items self.new.tapes.items need.page need.shown) }
    {
        while self.time < end {
            self.render_next_span(start, end, out)?;
        }
        Ok(())
    }

    /// Renders the next span of the block, as far as no node begins or ceases to be active, and makes the edits of the
    /// frame after it if that is before `end`.
    fn render_next_span(&mut self, start: u32, end: u32, out: &mut [i32]) -> Result<(), Need>
        requires standing { IsInBlock self.old start end out.old }
        requires some { self.old.time < end }
        ensures standing { IsInBlock self.new start end out.new }
        ensures later { OnOk result (self.old.time < self.new.time) }
        ensures scene { self.new.scene.value ≡ self.old.scene.value }
        ensures clips { self.new.clips.items ≡ self.old.clips.items }
        ensures tapes { AreLater self.old.tapes.items self.new.tapes.items }
        ensures need { IfErr result (λ need. ReadsPage self.old.clips.items self.old.scene.value self.old.time end need.resource need.page
            × WasNotShownOf need.resource self.old.tapes.items self.new.tapes.items need.page need.shown) }
    {
        let count = (span_end(self.stage.plan().nodes(), self.time, end) - self.time) as usize;
        let done = (self.time - start) as usize;
        self.play_span(count, done, out)?;
        if self.time < end {
            self.edit();
        }
        Ok(())
    }

    /// Renders a span, in which no node begins or ceases to be active and no edit falls, into its places behind `done` frames.
    fn play_span(&mut self, count: usize, done: usize, out: &mut [i32]) -> Result<(), Need>
        requires at { IsAt self.old }
        requires some { 0 < count }
        requires most { done + count ≤ most_span_frames }
        requires within { self.old.time + count ≤ self.old.scene.value.length }
        requires quiet { NoEditsBetween (in_order self.old.scene.value.edits) self.old.time (self.old.time + count) }
        requires steady { IsSteady self.old.stage self.old.time count }
        requires room { (done + count) * self.old.channels ≤ length out.old }
        ensures before { OnOk result (IsBefore self.new) }
        ensures at { OnErr result (IsAt self.new) }
        ensures time { OnOk result (self.new.time ≡ self.old.time + count) }
        ensures same_time { OnErr result (self.new.time ≡ self.old.time) }
        ensures scene { self.new.scene.value ≡ self.old.scene.value }
        ensures channels { self.new.channels ≡ self.old.channels }
        ensures clips { self.new.clips.items ≡ self.old.clips.items }
        ensures tapes { AreLater self.old.tapes.items self.new.tapes.items }
        ensures need { IfErr result (λ need. ReadsPage self.old.clips.items self.old.scene.value self.old.time (self.old.time + count) need.resource need.page
            × WasNotShownOf need.resource self.old.tapes.items self.new.tapes.items need.page need.shown) }
        ensures here { OnOk result ((j : ℕ) → j < count * self.old.channels → at out.new (done * self.old.channels + j)
            ≡ input (frame_state self.old.clips.items self.old.scene.value (self.old.time + j / self.old.channels)) (j % self.old.channels)
            (endpoint (plan self.old.scene.value (self.old.time + j / self.old.channels)))) }
        ensures rest { (j : ℕ) → j < done * self.old.channels → at out.new j ≡ at out.old j }
    {
        self.render_span(count, done, out)?;
        Ok(())
    }
}
