//! What lies under the lock of a run.

ghost use Rattle.std.specs.Prelude.{◌≡◌, ◌<◌, ◌≤◌, ◌++◌, ◌∷◌, [], ℕ, true, All, IfOk, length, map};
ghost use Rattle.mix_model.specs.Histories.{AreReadingsOf};
ghost use Rattle.mix_model.specs.Journals.{IsLegalJournal, edits_by};
ghost use Rattle.live_board.specs.Rule.{entry_data, reading_data, replies_of};
ghost use Rattle.live_board.specs.Steps.{Heard, entry, found_as};
ghost use Rattle.live_graph.specs.Parts.{IsNewDesk, IsRunBoard};
ghost use Rattle.live_graph.specs.Runs.{replied};

use crate::blank::EDITORS;
use crate::hand::Hand;
use crate::mixer::Mixer;
use crate::run::Run;
use crate::stage::LiveStage;
use live_board::{Board, BoardSeat, Entry, told_word};
use plain_data::OutOfMemory;
use scene_model::{Reply, Scene};
use std::alloc::Global;
use std::marker::{Model, PhantomData};
use std::sync::Wait;

/// What lies under the lock. Contracts see the journal.
#[derive(Drop)]
pub(crate) struct Desk<N: Run> {
    stage: LiveStage,
    made: Vec<u32>,
    journal: Vec<Entry>,
    of: PhantomData<N>,
}

impl<N: Run> Model for Desk<N> {
    ghost use Rattle.std.specs.Prelude.{List, ◌≤◌, length, vec_capacity};
    ghost use Rattle.live_board.specs.declared.view.Entry.{Entry};
    ghost use Rattle.live_graph.specs.Parts.{IsDesk};

    ghost Value = { List Entry };

    ghost view = { λ d. d.journal.items };

    ghost invariant = { λ d. IsDesk N.run d.stage d.made.items d.journal.items × (length N.run.scene.edits ≤ vec_capacity d.journal) };
}

impl<N: Run> Desk<N> {
    /// The desk with which a run begins. It takes the journal's room.
    pub(crate) fn new(
        alloc: Global,
        scene: &Scene,
        stage: LiveStage,
    ) -> Result<Desk<N>, OutOfMemory>
        requires scene { scene.now ≡ N.run.scene }
        requires stage { IsNewDesk N.run stage }
        ensures { IfOk result (λ desk. desk ≡ []) }
    {
        let journal = Vec::with_capacity(alloc, scene.edits.len())?;
        let made = vec![in alloc; 0u32; EDITORS]?;
        Ok(Desk {
            stage,
            made,
            journal,
            of: PhantomData,
        })
    }

    /// Makes the hand's next edit, and books it. It takes no memory.
    pub(crate) fn edit<R: Wait>(&mut self, rt: &R, board: &Board, hand: &mut Hand<N>) -> Reply
        requires board { IsRunBoard N.run board.now }
        requires left { length hand.old.replies < length (edits_by N.run.scene hand.old.editor) }
        ensures hand { hand.new ≡ replied result hand.old }
        ensures journal { self.new ≡ self.old ++ entry hand.old.editor (length hand.old.replies) result ∷ [] }
    {
        let (editor, next) = (hand.editor, hand.next);
        let edit = hand.edits[next];
        wait_for(rt, self.made[editor] as usize == next);
        let reply = self.stage.edit(rt, board, &edit);
        let count = next as u64 + 1;
        let word = told_word(count, reply);
        board.store_told(&mut hand.seat, editor, word);
        await_told(rt, board, &mut self.stage.seat, editor, word);
        board.store_booked(&mut self.stage.seat, editor, count);
        await_booked(rt, board, &mut hand.seat, editor, count);
        hand.next += 1;
        self.made[editor] += 1;
        self.journal.push_reserved(Entry {
            editor: editor as u64,
            k: next as u64,
            reply,
        });
        reply
    }

    /// The journal, of which the mixer and the hands of the run know now that they have part in it.
    pub(crate) fn close(self, board: &Board, mixer: Mixer<N>, hands: Vec<Hand<N>>) -> Vec<Entry>
        requires { IsRunBoard N.run board.now }
        ensures journal { result.items ≡ self }
        ensures legal { IsLegalJournal N.run.scene (map entry_data result.items) }
        ensures hands { All (λ h. replies_of h.editor result.items ≡ h.replies) hands.items }
        ensures readings { AreReadingsOf N.run.scene (map entry_data result.items) (map reading_data mixer.readings) }
    {
        let Desk {
            stage,
            made: _,
            journal,
            of: _,
        } = self;
        let mut seat = stage.seat;
        let (mixing, _) = mixer.into_parts();
        board.join_mixer(&mut seat, mixing);
        board.learn(&mut seat);
        join_hands(board, &mut seat, hands);
        journal
    }
}

/// Joins the seats of hands, and looks after each what its editor has in the journal.
fn join_hands<N: Run>(board: &Board, seat: &mut BoardSeat, hands: Vec<Hand<N>>)
    requires board { board.now.table.shared.table_id ≡ N.run.board }
    requires seat { (seat.old.table_id ≡ N.run.board) × (seat.old.me.0.locks ≡ true) }
    ensures { All (λ h. replies_of h.editor seat.old.me.0.lock.journal ≡ h.replies) hands.items }
{
    for hand in hands {
        board.join_hand(seat, hand.into_seat());
        board.learn(seat);
    }
}

/// Waits for ever where it isn't so.
fn wait_for<R: Wait>(rt: &R, so: bool)
    ensures { so ≡ true }
{
    if so {
        return;
    }
    for _ in rt.forever() {}
    unreachable!()
}

/// Waits until the lock's seat finds that an editor has told this word.
fn await_told<R: Wait>(rt: &R, board: &Board, seat: &mut BoardSeat, editor: usize, word: u64)
    requires seat { (seat.old.table_id ≡ board.now.table.shared.table_id) × (seat.old.me.0.locks ≡ true) }
    requires editor { editor < board.now.table.shared.key.hands }
    ensures { (seat.new.table_id ≡ seat.old.table_id) × Heard editor seat.old.me word seat.new.me }
{
    for _ in rt.forever() {
        if board.load_told(seat, editor) == word {
            return;
        }
    }
    unreachable!()
}

/// Waits until a hand's seat finds that many edits booked.
fn await_booked<R: Wait>(rt: &R, board: &Board, seat: &mut BoardSeat, editor: usize, count: u64)
    requires seat { (seat.old.table_id ≡ board.now.table.shared.table_id) × (seat.old.me.0.hands ≡ true) × (seat.old.me.0.hand.editor ≡ editor) }
    requires editor { editor < board.now.table.shared.key.hands }
    ensures { (seat.new.table_id ≡ seat.old.table_id) × (seat.new.me ≡ (found_as count seat.old.me.0, seat.old.me.1)) }
{
    for _ in rt.forever() {
        if board.load_booked(seat, editor) == count {
            return;
        }
    }
    unreachable!()
}
