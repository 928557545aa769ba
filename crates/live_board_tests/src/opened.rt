//! Boards for tests.
ghost use Rattle.std.specs.Prelude.{◌≡◌, ◌<◌, ◌^◌, [], length, replicate, IfOk};
ghost use Rattle.live_board.specs.Rule.{opener};

use live_board::{Board, BoardSeat, Opening};
use std::alloc::{AllocError, Global};

/// A board of so many dials at 0, each of which goes up to `most`, and of so many editors.
pub(crate) fn open_at_zero(
    alloc: Global,
    dials: usize,
    most: u64,
    hands: usize,
) -> Result<(Board, BoardSeat), AllocError>
    requires { (dials < 2 ^ 16) × (hands < 2 ^ 16) }
    ensures table { IfOk result (λ t. t.1.table_id ≡ t.0.table.shared.table_id) }
    ensures seat { IfOk result (λ t. t.1.me ≡ (opener t.0.table.shared.key, [])) }
    ensures dials { IfOk result (λ t. t.0.table.shared.key.dials.items ≡ replicate dials 0) }
    ensures most { IfOk result (λ t. t.0.table.shared.key.most.items ≡ replicate dials most) }
    ensures hands { IfOk result (λ t. t.0.table.shared.key.hands ≡ hands) }
{
    let opening = Opening {
        dials: vec![in alloc; 0u64; dials]?,
        most: vec![in alloc; most; dials]?,
        hands,
    };
    Board::open(alloc, opening)
}
