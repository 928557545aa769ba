//! A span: frames that follow one another, in which no node begins or ceases to be active.

ghost use Rattle.std.specs.Prelude.{◌≡◌, ◌≤◌, ◌<◌, ◌+◌, ◌*◌, ◌^◌, ℕ, length, slice_index, slice_index_or, OnOk, OnErr, IfErr};
ghost use Rattle.mix_fixed.specs.Kernels.{at};
ghost use Rattle.mix_model.specs.OrderedBuses.{mark_at};
ghost use Rattle.mix_model.specs.Pulled.{endpoint, no_node, node, pulled};
ghost use Rattle.mix_model.specs.Spans.{cursor_in};
ghost use Rattle.engine.specs.Nodes.{AreKept, AreMarked, IsPlayable, IsSpanOf};
ghost use Rattle.resource_mgr.specs.Tapes.{AreLater};
ghost use Rattle.engine.specs.Needs.{IsNeeded};
ghost use Rattle.engine.specs.Room.{IsRoomFor};
ghost use Rattle.engine.specs.Span.{Span, AreInputs, input_at, most_span_frames};

use crate::advance::played_to;
use crate::need::Need;
use crate::playback::Playback;
use mix_model::mark_pulled;
use scene_model::NodeState;

impl Playback {
    /// Renders the next `count` frames, 1 to 512, in which no node begins or ceases to be active, into
    /// their places behind `done` frames of `out`, interleaved. The sounds that are pulled play on.
    ///
    /// # Errors
    ///
    /// [`Need`] where a sound reads a page that isn't shown yet. Nothing has moved then.
    pub(crate) fn render_span(
        &mut self,
        count: usize,
        done: usize,
        out: &mut [i32],
    ) -> Result<(), Need>
        requires playable { IsPlayable self.old }
        requires few { count ≤ most_span_frames }
        requires early { done ≤ most_span_frames }
        requires time { self.old.time + count < 2 ^ 32 }
        requires room { (done + count) * self.old.channels ≤ length out.old }
        ensures ok { OnOk result (self.new ≡ record self.old { time = self.old.time + count; cursors = self.new.cursors; marks = self.new.marks; room = self.new.room; clips = self.new.clips; tapes = self.new.tapes }) }
        ensures err { OnErr result (self.new ≡ record self.old { marks = self.new.marks; room = self.new.room; clips = self.new.clips; tapes = self.new.tapes }) }
        ensures clips { self.new.clips.items ≡ self.old.clips.items }
        ensures tapes { AreLater self.old.tapes.items self.new.tapes.items }
        ensures room { IsRoomFor self.old.stage self.new.room }
        ensures need { IfErr result (λ need. IsNeeded self.old self.new.tapes.items count need.resource need.page need.shown) }
        ensures here { OnOk result ((s : Span) → IsSpanOf s self.old count → (j : ℕ) → j < count * self.old.channels →
            at out.new (done * self.old.channels + j) ≡ input_at s (endpoint self.old.stage) j) }
        ensures before { (j : ℕ) → j < done * self.old.channels → at out.new j ≡ at out.old j }
        ensures moved { OnOk result ((n : ℕ) → n < length self.old.stage.nodes → slice_index self.new.cursors n
            ≡ cursor_in (pulled self.old.stage self.old.time n) (slice_index self.old.frames n) (node self.old.stage n).looped (slice_index self.old.cursors n) count) }
        ensures rest { OnOk result ((n : ℕ) → length self.old.stage.nodes ≤ n → slice_index self.new.cursors n ≡ slice_index self.old.cursors n) }
    {
        self.mark();
        self.render_nodes(count)?;
        self.mix_endpoint(count);
        let (places, from) = (count * self.channels, done * self.channels);
        put_front(self.room.samples.as_slice(), places, from, out);
        self.advance(count);
        Ok(())
    }

    /// Marks the nodes that are pulled.
    fn mark(&mut self)
        requires { IsPlayable self.old }
        ensures same { self.new ≡ record self.old { marks = self.new.marks } }
        ensures marked { AreMarked self.new }
    {
        let nodes = self.stage.plan().nodes();
        let buses = self.ordered_buses.as_slice();
        mark_pulled(nodes, buses, self.time, self.marks.as_mut_slice());
    }

    /// Mixes the endpoint's input over the next `count` frames, where the outputs of all nodes that are
    /// pulled are kept.
    fn mix_endpoint(&mut self, count: usize)
        requires playable { IsPlayable self.old }
        requires few { count ≤ most_span_frames }
        ensures same { self.new ≡ record self.old { room = self.new.room } }
        ensures room { IsRoomFor self.old.stage self.new.room }
        ensures inputs { (s : Span) → IsSpanOf s self.old count →
            AreKept s (count * self.old.channels) (length self.old.order.items) self.old.order.items self.old.room.kept.items →
            AreInputs s (count * self.old.channels) (endpoint self.old.stage) self.new.room.samples.items }
    {
        let endpoint = self.stage.plan().nodes().len() as u32;
        let places = count * self.channels;
        self.room.mix(&mut self.stage, endpoint, self.time, places);
    }

    /// Goes on by so many frames: each sound that is marked plays on.
    fn advance(&mut self, count: usize)
        requires playable { IsPlayable self.old }
        requires few { count ≤ most_span_frames }
        requires time { self.old.time + count < 2 ^ 32 }
        ensures same { self.new ≡ record self.old { time = self.old.time + count; cursors = self.new.cursors } }
        ensures moved { (n : ℕ) → n < length self.old.stage.nodes → slice_index self.new.cursors n
            ≡ cursor_in (mark_at self.old.marks n) (slice_index self.old.frames n) (node self.old.stage n).looped (slice_index self.old.cursors n) count }
        ensures rest { (n : ℕ) → length self.old.stage.nodes ≤ n → slice_index self.new.cursors n ≡ slice_index self.old.cursors n }
    {
        let nodes = self.stage.plan().nodes();
        let (marks, frames) = (self.marks.as_slice(), self.frames.as_slice());
        play_on(
            nodes,
            marks,
            frames,
            count as u64,
            self.cursors.as_mut_slice(),
        );
        self.time += count as u32;
    }
}

/// Moves the cursor of each marked node on by `count` frames, and no other.
fn play_on(nodes: &[NodeState], marks: &[bool], frames: &[u64], count: u64, cursors: &mut [u64])
    requires marks { length nodes.now ≤ length marks.now }
    requires frames { length nodes.now ≤ length frames.now }
    requires cursors { length nodes.now ≤ length cursors.old }
    requires most { (n : ℕ) → n < length nodes.now → slice_index cursors.old n ≤ slice_index frames.now n }
    ensures moved { (n : ℕ) → n < length nodes.now → slice_index cursors.new n
        ≡ cursor_in (mark_at marks.now n) (slice_index frames.now n) (slice_index_or nodes.now n no_node).looped (slice_index cursors.old n) count }
    ensures rest { (n : ℕ) → length nodes.now ≤ n → slice_index cursors.new n ≡ slice_index cursors.old n }
{
    for n in 0..nodes.len() {
        cursors[n] = cursor_after(marks[n], frames[n], nodes[n].looped, cursors[n], count);
    }
}

/// The cursor of a node `count` frames later: where it is marked, it plays on.
fn cursor_after(is_marked: bool, frames: u64, looped: bool, cursor: u64, count: u64) -> u64
    requires { cursor ≤ frames }
    ensures { result ≡ cursor_in is_marked frames looped cursor count }
{
    if is_marked {
        played_to(frames, looped, cursor, count)
    } else {
        cursor
    }
}

/// Copies the first `places` samples to place `from` of `out`.
fn put_front(samples: &[i32], places: usize, from: usize, out: &mut [i32])
    requires samples { places ≤ length samples.now }
    requires room { from + places ≤ length out.old }
    ensures here { (j : ℕ) → j < places → at out.new (from + j) ≡ at samples.now j }
    ensures before { (j : ℕ) → j < from → at out.new j ≡ at out.old j }
{
    out[from..from + places].copy_from_slice(&samples[..places]);
}
