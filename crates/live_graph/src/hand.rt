ghost use Rattle.std.specs.Prelude.{◌≡◌, ◌<◌, ◌≤◌, [], true, length, IfOk, MatchBool};
ghost use Rattle.mix_model.specs.Journals.{edits_by};
ghost use Rattle.live_graph.specs.Parts.{IsHand};

use crate::run::Run;
use live_board::BoardSeat;
use plain_data::OutOfMemory;
use scene_model::{Edit, Scene};
use std::alloc::Global;
use std::marker::{Model, PhantomData};

/// The hand of an editor, which makes that editor's edits in the order of the scene's rows. Contracts
/// see its editor and what its edits were answered.
#[derive(Drop)]
pub struct Hand<N: Run> {
    pub(crate) editor: usize,
    pub(crate) edits: Vec<Edit>,
    pub(crate) next: usize,
    pub(crate) seat: BoardSeat,
    of: PhantomData<N>,
}

impl<N: Run> Model for Hand<N> {
    ghost use Rattle.live_graph.specs.Runs.{HandData};
    ghost use Rattle.live_graph.specs.Parts.{IsHand};

    ghost Value = { HandData };

    ghost view = { λ h. record { editor = h.editor; replies = h.seat.me.0.hand.replies } };

    ghost invariant = { λ h. IsHand N.run h.editor h.edits.items h.next h.seat };
}

impl<N: Run> Hand<N> {
    /// A hand that has made nothing.
    pub(crate) fn new(editor: usize, edits: Vec<Edit>, seat: BoardSeat) -> Hand<N>
        requires { IsHand N.run editor edits.items 0 seat }
        ensures { result ≡ record { editor = editor; replies = [] } }
    {
        Hand {
            editor,
            edits,
            next: 0,
            seat,
            of: PhantomData,
        }
    }

    /// The number of its editor, 0 to 3.
    pub fn editor(&self) -> usize
        ensures { result ≡ self.now.editor }
    {
        self.editor
    }

    /// Whether all its edits are made.
    pub fn is_done(&self) -> bool
        ensures { MatchBool result (length (edits_by N.run.scene self.now.editor) ≡ length self.now.replies) (length self.now.replies < length (edits_by N.run.scene self.now.editor)) }
    {
        self.next == self.edits.len()
    }

    /// Its seat at the board.
    pub(crate) fn into_seat(self) -> BoardSeat
        ensures seat { (result.table_id ≡ N.run.board) × (result.me.1 ≡ []) × (result.me.0.hands ≡ true) }
        ensures hand { (result.me.0.hand.editor ≡ self.editor) × (result.me.0.hand.replies ≡ self.replies) × (result.me.0.hand.found ≡ length self.replies) }
    {
        self.seat
    }
}

/// The edits of an editor, in the order of the scene's rows.
///
/// # Errors
///
/// [`OutOfMemory`] where there is no memory.
pub(crate) fn edits_by(
    alloc: Global,
    scene: &Scene,
    editor: usize,
) -> Result<Vec<Edit>, OutOfMemory>
    ensures edits { IfOk result (λ edits. edits.items ≡ edits_by scene.now editor) }
    ensures few { IfOk result (λ edits. length edits.items ≤ 4096) }
{
    let rows = scene.edits.as_slice();
    let mut edits = Vec::with_capacity(alloc, rows.len())?;
    for row in rows {
        if usize::from(row.editor) == editor {
            edits.push(row.edit)?;
        }
    }
    Ok(edits)
}
