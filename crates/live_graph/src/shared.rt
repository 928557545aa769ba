//! A run: what its threads share, the mixer, and a hand for each editor.

ghost use Rattle.std.specs.Prelude.{◌≡◌, ◌<◌, ◌+◌, [], All, IfOk, IfNone, IfSome, length, map};
ghost use Rattle.std.specs.Arc.{arc_value};
ghost use Rattle.mix_model.specs.Histories.{AreReadingsOf};
ghost use Rattle.mix_model.specs.Journals.{IsLegalJournal, edits_by};
ghost use Rattle.live_board.specs.Rule.{entry_data, opener, reading_data, replies_of};
ghost use Rattle.live_graph.specs.Parts.{IsRunBoard};
ghost use Rattle.live_graph.specs.Passes.{ArePasses};
ghost use Rattle.live_graph.specs.Runs.{handed_out, new_hands, replied};

use crate::blank::{Blank, EDITORS};
use crate::desk::Desk;
use crate::hand::{Hand, edits_by};
use crate::mixer::Mixer;
use crate::run::Run;
use live_board::{Board, BoardSeat, Entry};
use plain_data::OutOfMemory;
use scene_model::{Reply, Scene};
use std::alloc::Global;
use std::sync::{Arc, Mutex, Wait};

/// What the threads of a run share: the board, and behind one lock the plan, the lists and the journal.
#[derive(Drop)]
pub struct Shared<N: Run> {
    board: Arc<Board, Global>,
    desk: Mutex<Desk<N>>,
    ghost board_is: { IsRunBoard N.run (arc_value board) },
}

/// The parts of a run.
#[derive(Drop)]
pub struct SharedParts<N: Run> {
    /// What editors and mixer share.
    pub shared: Shared<N>,
    /// The side that plays.
    pub mixer: Mixer<N>,
    /// A hand for each editor, in the order of their numbers.
    pub hands: Vec<Hand<N>>,
}

impl<N: Run> Shared<N> {
    /// Parts a run that has this name. All memory that its edits need is taken here.
    ///
    /// # Errors
    ///
    /// [`OutOfMemory`] where there is no memory.
    pub fn open(alloc: Global, blank: Blank) -> Result<SharedParts<N>, OutOfMemory>
        requires { blank ≡ N.run }
        ensures mixer { IfOk result (λ p. (p.mixer.readings ≡ []) × (p.mixer.notes ≡ [])) }
        ensures passes { IfOk result (λ p. ArePasses N.run.opened p.mixer.passes) }
        ensures inputs { IfOk result (λ p. length p.mixer.passes ≡ length N.run.scene.nodes + 1) }
        ensures hands { IfOk result (λ p. p.hands.items ≡ new_hands 4) }
    {
        let Blank {
            scene,
            mut stage,
            board,
            passes,
        } = blank;
        let hands = hands_out(alloc, &scene, &board, &mut stage.seat)?;
        let mixing = board.split_mixer(&mut stage.seat);
        let desk = Desk::new(alloc, &scene, stage)?;
        let board = Arc::new(alloc, board)?;
        let mixer = Mixer::new(Arc::try_clone(&board)?, mixing, passes);
        Ok(SharedParts {
            shared: Shared {
                board,
                desk: Mutex::new(desk),
            },
            mixer,
            hands,
        })
    }

    /// Makes the hand's next edit, and answers its reply, or `None` where the hand has made all its
    /// edits. One edit is made at a time: the lock is held until a detached bus is out of the mixer's
    /// reach, and the edit stands in the journal. It takes no memory.
    pub fn edit<R: Wait>(&self, rt: &R, hand: &mut Hand<N>) -> Option<Reply>
        ensures some { IfSome result (λ reply. hand.new ≡ replied reply hand.old) }
        ensures none { IfNone result ((hand.new ≡ hand.old) × (length (edits_by N.run.scene hand.old.editor) ≡ length hand.old.replies)) }
    {
        if hand.is_done() {
            return None;
        }
        let mut desk = self.desk.lock(rt);
        Some(desk.edit(rt, &self.board, hand))
    }

    /// Ends the run and gives its journal. It is legal, its entries of each editor are those that its
    /// hand made, and the mixer's readings are lawful in it.
    pub fn close(self, mixer: Mixer<N>, hands: Vec<Hand<N>>) -> Vec<Entry>
        ensures legal { IsLegalJournal N.run.scene (map entry_data result.items) }
        ensures hands { All (λ h. replies_of h.editor result.items ≡ h.replies) hands.items }
        ensures readings { AreReadingsOf N.run.scene (map entry_data result.items) (map reading_data mixer.readings) }
    {
        let Shared { board, desk } = self;
        desk.into_inner().close(&board, mixer, hands)
    }
}

/// A hand for each editor.
fn hands_out<N: Run>(
    alloc: Global,
    scene: &Scene,
    board: &Board,
    seat: &mut BoardSeat,
) -> Result<Vec<Hand<N>>, OutOfMemory>
    requires run { (scene.now ≡ N.run.scene) × (board.now.table.shared.table_id ≡ N.run.board) }
    requires seat { (seat.old.table_id ≡ N.run.board) × (seat.old.me ≡ (opener board.now.table.shared.key, [])) }
    ensures hands { IfOk result (λ hands. hands.items ≡ new_hands 4) }
    ensures seat { IfOk result (λ hands. (seat.new.table_id ≡ seat.old.table_id) × (seat.new.me ≡ (handed_out 4 seat.old.me.0, []))) }
{
    let mut hands = Vec::with_capacity(alloc, EDITORS)?;
    for editor in 0..EDITORS {
        let edits = edits_by(alloc, scene, editor)?;
        let mine = board.split_hand(seat);
        hands.push(Hand::new(editor, edits, mine))?;
    }
    Ok(hands)
}
