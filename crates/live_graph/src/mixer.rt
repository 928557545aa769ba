ghost use Rattle.std.specs.Prelude.{◌≡◌, ◌<◌, ◌≤◌, [], ℕ, true, length, slice_index, slice_index_or};
ghost use Rattle.std.specs.Arc.{arc_value};
ghost use Rattle.std.specs.Borrow.{sem, Lends};
ghost use Rattle.scene_model.specs.Opening.{opening};
ghost use Rattle.mix_model.specs.Board.{board};
ghost use Rattle.live_graph.specs.Parts.{IsMixer, most_of_run};
ghost use Rattle.live_graph.specs.Runs.{has_read, with_pass};

use crate::run::Run;
use bus_list::Pass;
use live_board::{Board, BoardSeat, Window};
use node_graph::Feed;
use std::alloc::Global;
use std::marker::{Model, PhantomData};
use std::sync::Arc;

/// The side of a run that plays: it reads the board and walks the lists of the inputs, while editors
/// change both. Nothing that it does waits or takes memory. Contracts see its readings, all its loads
/// from the board, and its passes.
#[derive(Drop)]
pub struct Mixer<N: Run> {
    board: Arc<Board, Global>,
    seat: BoardSeat,
    passes: Vec<Pass<Feed>>,
    of: PhantomData<N>,
}

impl<N: Run> Model for Mixer<N> {
    ghost use Rattle.std.specs.Arc.{arc_value};
    ghost use Rattle.live_graph.specs.Runs.{MixerData};
    ghost use Rattle.live_graph.specs.Parts.{IsMixer};

    ghost Value = { MixerData };

    ghost view = { λ m. record { readings = m.seat.me.0.mixing.readings; notes = m.seat.me.0.mixing.notes; passes = m.passes.items } };

    ghost invariant = { λ m. IsMixer N.run (arc_value m.board) m.seat };
}

impl<N: Run> Mixer<N> {
    ghost use Rattle.live_graph.specs.contracts.mixer.Mixer.{the_row};
    ghost use Rattle.bus_list.specs.contracts.pass.Pass.{the_row as pass_row};
    ghost use Rattle.node_graph.specs.contracts.feed.Feed.{the_row as feed_row};

    /// A mixer over a seat and the passes of all inputs.
    pub(crate) fn new(
        board: Arc<Board, Global>,
        seat: BoardSeat,
        passes: Vec<Pass<Feed>>,
    ) -> Mixer<N>
        requires { IsMixer N.run (arc_value board) seat }
        ensures { result ≡ record { readings = seat.me.0.mixing.readings; notes = seat.me.0.mixing.notes; passes = passes.items } }
    {
        Mixer {
            board,
            seat,
            passes,
            of: PhantomData,
        }
    }

    /// Reads the board: the count of its changes, the word of each dial, in order, into `out`, and the
    /// count again. There is room for one word of each dial. Each word stood at its dial at some time
    /// between the counts of the answer, and is at most that dial's largest word.
    pub fn board(&mut self, out: &mut [u64]) -> Window
        requires { length out.old ≡ length (board (opening N.run.scene)) }
        ensures length { length out.new ≡ length out.old }
        ensures in_range { (dial : ℕ) → dial < length out.new → slice_index out.new dial ≤ slice_index (most_of_run N.run) dial }
        ensures read { self.new ≡ has_read result.from result.until out.new self.old }
    {
        self.board.read(&mut self.seat, out)
    }

    /// The pass of a node's input, by which a visit walks the buses that are attached there. The
    /// endpoint has the number of the nodes; a sound has a pass of an empty list.
    pub fn pass(&mut self, node: u32) -> &mut Pass<Feed>
        requires { node < length self.old.passes }
        ensures* writes_back { sem 𝓛 (Lends (the_row N.row N.Run) (pass_row feed_row) self.entry result (with_pass self.entry.now node)) }
        ensures value { result.now ≡ slice_index_or self.old.passes node result.now }
    {
        &mut self.passes[node as usize]
    }

    /// Its seat at the board, and the passes.
    pub(crate) fn into_parts(self) -> (BoardSeat, Vec<Pass<Feed>>)
        ensures seat { (result.0.table_id ≡ N.run.board) × (result.0.me.1 ≡ []) × (result.0.me.0.mixes ≡ true) }
        ensures parts { (result.0.me.0.mixing.readings ≡ self.readings) × (result.1.items ≡ self.passes) }
    {
        (self.seat, self.passes)
    }
}
