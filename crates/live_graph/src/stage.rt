//! What the editors of a live run change.

ghost use Rattle.std.specs.Prelude.{◌≡◌, ◌<◌, ◌≤◌, ◌+◌, ◌^◌, ◌++◌, ◌∷◌, [], ℕ, IsTrue, IfSome, List, Option, None, Some, true, false, length, slice_index_or};
ghost use Rattle.scene_model.specs.IsPlan.{can_apply};
ghost use Rattle.scene_model.specs.IsScene.{is_edit};
ghost use Rattle.scene_model.specs.Plans.{after, reply};
ghost use Rattle.mix_model.specs.Board.{board};
ghost use Rattle.node_graph.specs.ListChanges.{CanChange};
ghost use Rattle.node_graph.specs.ListData.{ListData};
ghost use Rattle.live_graph.specs.Dials.{word_at};
ghost use Rattle.live_graph.specs.InputEditors.{editors_changed, lists_of};

use crate::dials::dial_of;
use crate::input_editor::InputEditor;
use live_board::{Board, BoardSeat};
use node_graph::{ListChange, board_word, list_change};
use scene_model::{Edit, Plan, Reply, apply};
use std::sync::Wait;

/// What the editors of a live run change, one at a time: the plan, the lists of the inputs, and the
/// words of the board, with the seat that stores them.
#[derive(Drop)]
pub struct LiveStage {
    pub(crate) plan: Plan,
    pub(crate) inputs: Vec<InputEditor>,
    pub(crate) changes: u64,
    pub(crate) seat: BoardSeat,
}

impl LiveStage {
    ghost use Rattle.live_graph.specs.Stages.{IsStage, IsBoardOf, IsDialOf, IsEdited, HadFewer, with_changes};

    /// Makes an edit, or refuses it and leaves all as it was. A bus that is detached is out of the
    /// reach of the mixer when the call returns: it waits for that. It takes no memory.
    pub fn edit<R: Wait>(&mut self, rt: &R, board: &Board, edit: &Edit) -> Reply
        requires stage { IsStage self.old }
        requires board { IsBoardOf board.now self.old }
        requires edit { IsTrue (can_apply self.old.plan edit.now) × IsTrue (is_edit (length self.old.plan.nodes) edit.now) }
        requires room { (self.old.changes < 2 ^ 62) × HadFewer (2 ^ 62) (lists_of self.old.inputs.items) }
        ensures reply { result ≡ reply self.old.plan edit.now }
        ensures edited { IsEdited self.old edit.now self.new }
        ensures stage { IsStage self.new }
    {
        let list_change = list_change(self.plan.buses(), edit);
        let dial = dial_of(&self.plan, edit);
        let reply = apply(&mut self.plan, edit);
        if reply.is_done() {
            change(rt, self.inputs.as_mut_slice(), list_change);
            self.store(board, dial);
        }
        reply
    }

    /// Stores the word of a dial as the plan has it, and counts that.
    fn store(&mut self, board: &Board, dial: Option<u32>)
        requires seat { (self.old.seat.table_id ≡ board.now.table.shared.table_id) × (self.old.seat.me.0.locks ≡ true) × (self.old.seat.me.0.lock.stored ≡ false) }
        requires changes { (self.old.changes ≡ length self.old.seat.me.0.lock.history) × (self.old.changes < 2 ^ 62) }
        requires dial { IfSome dial (λ place. IsDialOf board.now self.old.plan place) }
        ensures plan { (self.new.plan ≡ self.old.plan) × (self.new.inputs ≡ self.old.inputs) }
        ensures table { self.new.seat.table_id ≡ self.old.seat.table_id }
        ensures stored { self.new.seat.me ≡ (with_changes (word_at self.old.plan dial) self.old.seat.me.0, self.old.seat.me.1) }
        ensures changes { self.new.changes ≡ length self.new.seat.me.0.lock.history }
    {
        let Some(dial) = dial else {
            return;
        };
        let word = board_word(&self.plan, dial);
        board.store_dial(&mut self.seat, dial as usize, word);
        self.changes += 1;
        board.store_count(&mut self.seat, self.changes);
    }
}

/// Makes a change in the lists.
fn change<R: Wait>(rt: &R, inputs: &mut [InputEditor], change: ListChange)
    requires can { CanChange (lists_of inputs.old) change }
    requires room { (node : ℕ) (list : ListData) → slice_index_or (lists_of inputs.old) node None ≡ Some list → length list.history < 2 ^ 62 }
    ensures { inputs.new ≡ editors_changed inputs.old change }
{
    match change {
        ListChange::Attached { feed, to } => inputs[to as usize].attach(feed),
        ListChange::Detached { bus, from } => inputs[from as usize].detach(rt, bus),
        ListChange::Unchanged => {}
    }
}
