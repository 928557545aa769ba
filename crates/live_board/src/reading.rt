//! A reading of all dials.

ghost use Rattle.std.specs.Prelude.{◌≡◌, ◌<◌, ◌≤◌, ℕ, true, length, slice_index};
ghost use Rattle.live_board.specs.Steps.{ended, reading_so_far};

use crate::board::{Board, BoardSeat};

/// The counts between which a reading was made.
#[derive(Debug, Clone, Copy, PartialEq, Eq)]
pub struct Window {
    /// The count that the first step of the reading found.
    pub from: u64,
    /// The count that its last step found.
    pub until: u64,
}

impl Board {
    /// Reads all dials: the count, the word of each dial, in order, into `out`, and the count again. Each
    /// word is at most the largest one of its dial. Takes no memory and doesn't wait.
    pub fn read(&self, seat: &mut BoardSeat, out: &mut [u64]) -> Window
        requires seat { (seat.old.table_id ≡ self.now.table.shared.table_id) × (seat.old.me.0.mixes ≡ true) }
        requires out { length out.old ≡ length self.now.table.shared.key.dials.items }
        ensures length { length out.new ≡ length out.old }
        ensures in_range { (dial : ℕ) → dial < length out.new → slice_index out.new dial ≤ slice_index seat.old.me.0.mixing.most dial }
        ensures table { seat.new.table_id ≡ seat.old.table_id }
        ensures read { seat.new.me ≡ (ended result.until (reading_so_far result.from out.new seat.old.me.0), seat.old.me.1) }
    {
        read_all(self, seat, out)
    }
}

/// The steps of a reading.
fn read_all(board: &Board, seat: &mut BoardSeat, out: &mut [u64]) -> Window
    requires seat { (seat.old.table_id ≡ board.now.table.shared.table_id) × (seat.old.me.0.mixes ≡ true) }
    requires out { length out.old ≡ length board.now.table.shared.key.dials.items }
    ensures length { length out.new ≡ length out.old }
    ensures in_range { (dial : ℕ) → dial < length out.new → slice_index out.new dial ≤ slice_index seat.old.me.0.mixing.most dial }
    ensures table { seat.new.table_id ≡ seat.old.table_id }
    ensures read { seat.new.me ≡ (ended result.until (reading_so_far result.from out.new seat.old.me.0), seat.old.me.1) }
{
    let from = board.load_first_count(seat);
    for i in 0..out.len() {
        out[i] = board.load_dial(seat, i);
    }
    let until = board.load_last_count(seat);
    Window { from, until }
}
