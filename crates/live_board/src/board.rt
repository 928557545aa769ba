//! The table of a board. Each function makes one kind of step.

ghost use Rattle.std.specs.Prelude.{◌≡◌, ◌<◌, ◌≤◌, ◌+◌, ◌*◌, ◌^◌, ℕ, suc, true, false, List, [], ◌∷◌, ◌++◌, length, replicate, slice_index, IfOk};
ghost use Rattle.scene_model.specs.declared.reply.Reply.{Reply};
ghost use Rattle.live_board.specs.Rule.{replies_of, told_word, reply_code, opener, told_at, booked_at};
ghost use Rattle.live_board.specs.Steps.{dial_stored, counted, begun, dial_read, ended, Heard, Learns, found_as, told_as, booked_as, hand_out, new_hand, without_mix, only_mix, with_hand, with_mix};

use crate::rule::{
    BoardRule, BooksEdit, FindsBooked, HandParts, HearsTold, LoadsDial, LoadsFirstCount,
    LoadsLastCount, Looks, MixerParts, StoresCount, StoresDial, TellsReply, Whose,
};
use crate::view::{Opening, View};
use atomic_table::{Seat, Table};
use std::alloc::{AllocError, Global};
use std::marker::Brand;

/// A side's place at a board.
pub type BoardSeat = Seat<bool, View>;

/// The words of a live run's dials and hands, for threads that have seats at it.
#[derive(Drop)]
pub struct Board {
    table: Table<bool, View, Opening, BoardRule, Global>,
    dials: usize,
    hands: usize,
    ghost dials_are: { dials ≡ length table.shared.key.dials.items },
    ghost hands_are: { hands ≡ table.shared.key.hands },
    ghost few: { (dials < 65536) × (hands < 65536) },
    ghost words_are: { table.shared.table_id.words ≡ 1 + length table.shared.key.dials.items + 2 * table.shared.key.hands },
}

impl Board {
    /// The place of the word in which an editor tells its replies.
    fn told_at(&self, editor: usize) -> usize
        requires { editor < self.now.table.shared.key.hands }
        ensures { (result ≡ told_at (length self.now.table.shared.key.dials.items) editor) × (result < self.now.table.shared.table_id.words) }
    {
        1 + self.dials + 2 * editor
    }

    /// The place of the word that counts the booked edits of an editor.
    fn booked_at(&self, editor: usize) -> usize
        requires { editor < self.now.table.shared.key.hands }
        ensures { (result ≡ booked_at (length self.now.table.shared.key.dials.items) editor) × (result < self.now.table.shared.table_id.words) }
    {
        2 + self.dials + 2 * editor
    }

    /// Opens a board with these words, each at most the largest one of its dial, and fewer than 2^16
    /// dials and hands. Its one seat has the part of the lock and that of the mixer.
    pub fn open(alloc: Global, opening: Opening) -> Result<(Board, BoardSeat), AllocError>
        requires { (length opening.dials.items < 2 ^ 16) × (opening.hands < 2 ^ 16) × ((i : ℕ) → i < length opening.dials.items → slice_index opening.dials.items i ≤ slice_index opening.most.items i) }
        ensures { IfOk result (λ t. (t.1.table_id ≡ t.0.table.shared.table_id) × (t.1.me ≡ (opener opening, [])) × (t.0.table.shared.key ≡ opening)) }
    {
        let words = opening_words(alloc, &opening)?;
        let dials = opening.dials.len();
        let hands = opening.hands;
        let (table, seat) = Table::of_words(alloc, words.as_slice(), &opening)?;
        Ok((
            Board {
                table,
                dials,
                hands,
            },
            seat,
        ))
    }

    /// Stores the new word of a dial, at most its largest one. The change before it is counted.
    pub fn store_dial(&self, seat: &mut BoardSeat, dial: usize, value: u64)
        requires seat { (seat.old.table_id ≡ self.now.table.shared.table_id) × (seat.old.me.0.locks ≡ true) × (seat.old.me.0.lock.stored ≡ false) }
        requires dial { dial < length self.now.table.shared.key.dials.items }
        requires value { value ≤ slice_index self.now.table.shared.key.most.items dial }
        ensures { (seat.new.table_id ≡ seat.old.table_id) × (seat.new.me ≡ (dial_stored dial value seat.old.me.0, seat.old.me.1)) }
    {
        self.table.shared.store::<StoresDial>(seat, dial + 1, value);
    }

    /// Stores the count, with the change that was stored last. `count` is the number of all changes.
    pub fn store_count(&self, seat: &mut BoardSeat, count: u64)
        requires seat { (seat.old.table_id ≡ self.now.table.shared.table_id) × (seat.old.me.0.locks ≡ true) × (seat.old.me.0.lock.stored ≡ true) }
        requires count { count ≡ length seat.old.me.0.lock.history }
        ensures { (seat.new.table_id ≡ seat.old.table_id) × (seat.new.me ≡ (counted seat.old.me.0, seat.old.me.1)) }
    {
        self.table.shared.store::<StoresCount>(seat, 0, count);
    }

    /// Begins a reading and answers the count that it found.
    pub fn load_first_count(&self, seat: &mut BoardSeat) -> u64
        requires { (seat.old.table_id ≡ self.now.table.shared.table_id) × (seat.old.me.0.mixes ≡ true) }
        ensures { (seat.new.table_id ≡ seat.old.table_id) × (seat.new.me ≡ (begun result seat.old.me.0, seat.old.me.1)) }
    {
        self.table.shared.load::<LoadsFirstCount>(seat, 0)
    }

    /// Loads the next dial of the open reading, in the order of dials.
    pub fn load_dial(&self, seat: &mut BoardSeat, dial: usize) -> u64
        requires seat { (seat.old.table_id ≡ self.now.table.shared.table_id) × (seat.old.me.0.mixes ≡ true) × (seat.old.me.0.mixing.reads ≡ true) }
        requires dial { (dial < length self.now.table.shared.key.dials.items) × (length seat.old.me.0.mixing.words ≡ dial) }
        ensures { (seat.new.table_id ≡ seat.old.table_id) × (seat.new.me ≡ (dial_read dial result seat.old.me.0, seat.old.me.1)) × (result ≤ slice_index seat.old.me.0.mixing.most dial) }
    {
        self.table.shared.load::<LoadsDial>(seat, dial + 1)
    }

    /// Ends a reading that has all dials, and answers the count that it found.
    pub fn load_last_count(&self, seat: &mut BoardSeat) -> u64
        requires seat { (seat.old.table_id ≡ self.now.table.shared.table_id) × (seat.old.me.0.mixes ≡ true) × (seat.old.me.0.mixing.reads ≡ true) }
        requires all { length seat.old.me.0.mixing.words ≡ length self.now.table.shared.key.dials.items }
        ensures { (seat.new.table_id ≡ seat.old.table_id) × (seat.new.me ≡ (ended result seat.old.me.0, seat.old.me.1)) }
    {
        self.table.shared.load::<LoadsLastCount>(seat, 0)
    }

    /// Tells a reply, where all those before it were found booked. `word` is [`told_word`](crate::told_word)
    /// of how many replies there then are, and the last of them.
    pub fn store_told(&self, seat: &mut BoardSeat, editor: usize, word: u64)
        requires seat { (seat.old.table_id ≡ self.now.table.shared.table_id) × (seat.old.me.0.hands ≡ true) × (seat.old.me.0.hand.editor ≡ editor) × (seat.old.me.0.hand.found ≡ length seat.old.me.0.hand.replies) }
        requires editor { editor < self.now.table.shared.key.hands }
        requires word { (r : Reply) × (reply_code r < 17179869184) × (word ≡ told_word (seat.old.me.0.hand.replies ++ r ∷ [])) }
        ensures table { seat.new.table_id ≡ seat.old.table_id }
        ensures told { (r : Reply) × (word ≡ told_word (seat.old.me.0.hand.replies ++ r ∷ [])) × (seat.new.me ≡ (told_as r seat.old.me.0, seat.old.me.1)) }
    {
        self.table
            .shared
            .store::<TellsReply>(seat, self.told_at(editor), word);
    }

    /// Finds what an editor has told: the replies to the edits that are booked, and at most one more.
    pub fn load_told(&self, seat: &mut BoardSeat, editor: usize) -> u64
        requires seat { (seat.old.table_id ≡ self.now.table.shared.table_id) × (seat.old.me.0.locks ≡ true) }
        requires editor { editor < self.now.table.shared.key.hands }
        ensures { (seat.new.table_id ≡ seat.old.table_id) × Heard editor seat.old.me result seat.new.me }
    {
        hear::<Brand>(self, seat, editor)
    }

    /// Books the edit that was heard. `count` is the number of that editor's edits in the journal, with
    /// this one.
    pub fn store_booked(&self, seat: &mut BoardSeat, editor: usize, count: u64)
        requires seat { (seat.old.table_id ≡ self.now.table.shared.table_id) × (seat.old.me.0.locks ≡ true) × (seat.old.me.0.lock.heard_of ≡ editor) }
        requires editor { editor < self.now.table.shared.key.hands }
        requires heard { (r : Reply) × (seat.old.me.0.lock.heard ≡ replies_of seat.old.me.0.lock.heard_of seat.old.me.0.lock.journal ++ r ∷ []) }
        requires count { count ≡ suc (length (replies_of editor seat.old.me.0.lock.journal)) }
        ensures table { seat.new.table_id ≡ seat.old.table_id }
        ensures booked { (r : Reply) × (seat.old.me.0.lock.heard ≡ replies_of seat.old.me.0.lock.heard_of seat.old.me.0.lock.journal ++ r ∷ []) × (seat.new.me ≡ (booked_as editor r seat.old.me.0, seat.old.me.1)) }
    {
        self.table
            .shared
            .store::<BooksEdit>(seat, self.booked_at(editor), count);
    }

    /// Finds how many of a hand's edits are booked.
    pub fn load_booked(&self, seat: &mut BoardSeat, editor: usize) -> u64
        requires seat { (seat.old.table_id ≡ self.now.table.shared.table_id) × (seat.old.me.0.hands ≡ true) × (seat.old.me.0.hand.editor ≡ editor) }
        requires editor { editor < self.now.table.shared.key.hands }
        ensures { (seat.new.table_id ≡ seat.old.table_id) × (seat.new.me ≡ (found_as result seat.old.me.0, seat.old.me.1)) }
    {
        self.table
            .shared
            .load::<FindsBooked>(seat, self.booked_at(editor))
    }

    /// Looks at the board, and so knows: the readings of a mixer whose part this seat has too are lawful in
    /// the whole history, and the journal has the edits of a hand whose part it has, if all were found
    /// booked.
    pub fn learn(&self, seat: &mut BoardSeat)
        requires { (seat.old.table_id ≡ self.now.table.shared.table_id) × (seat.old.me.0.locks ≡ true) }
        ensures { (seat.new.table_id ≡ seat.old.table_id) × (seat.new.me ≡ seat.old.me) × Learns seat.old.me }
    {
        self.table.shared.load::<Looks>(seat, 0);
    }

    /// Makes the seat of the next editor's hand.
    pub fn split_hand(&self, seat: &mut BoardSeat) -> BoardSeat
        requires { (seat.old.table_id ≡ self.now.table.shared.table_id) × (seat.old.me.0.locks ≡ true) }
        ensures { (seat.new.table_id ≡ seat.old.table_id) × (seat.new.me ≡ (hand_out seat.old.me.0, seat.old.me.1)) × (result.table_id ≡ seat.old.table_id) × (result.me ≡ (new_hand seat.old.me.0, [])) }
    {
        self.table.shared.split_seat::<HandParts>(seat)
    }

    /// Makes the mixer's seat of that part of this one.
    pub fn split_mixer(&self, seat: &mut BoardSeat) -> BoardSeat
        requires { (seat.old.table_id ≡ self.now.table.shared.table_id) × (seat.old.me.0.mixes ≡ true) }
        ensures { (seat.new.table_id ≡ seat.old.table_id) × (seat.new.me ≡ (without_mix seat.old.me.0, seat.old.me.1)) × (result.table_id ≡ seat.old.table_id) × (result.me ≡ (only_mix seat.old.me.0, [])) }
    {
        self.table.shared.split_seat::<MixerParts>(seat)
    }

    /// Joins the seat of a hand, whose part this seat then has.
    pub fn join_hand(&self, seat: &mut BoardSeat, other: BoardSeat)
        requires { (seat.old.table_id ≡ self.now.table.shared.table_id) × (other.table_id ≡ self.now.table.shared.table_id) × (other.me.1 ≡ []) × (other.me.0.hands ≡ true) }
        ensures { (seat.new.table_id ≡ seat.old.table_id) × (seat.new.me ≡ (with_hand seat.old.me.0 other.me.0, seat.old.me.1)) }
    {
        self.table.shared.join_seat::<HandParts>(seat, other);
    }

    /// Joins the mixer's seat, whose part this seat then has.
    pub fn join_mixer(&self, seat: &mut BoardSeat, other: BoardSeat)
        requires { (seat.old.table_id ≡ self.now.table.shared.table_id) × (other.table_id ≡ self.now.table.shared.table_id) × (other.me.1 ≡ []) × (other.me.0.mixes ≡ true) }
        ensures { (seat.new.table_id ≡ seat.old.table_id) × (seat.new.me ≡ (with_mix seat.old.me.0 other.me.0, seat.old.me.1)) }
    {
        self.table.shared.join_seat::<MixerParts>(seat, other);
    }
}

/// Loads what the editor that the call names has told.
fn hear<B: Whose>(board: &Board, seat: &mut BoardSeat, editor: usize) -> u64
    requires whose { editor ≡ B.editor }
    requires seat { (seat.old.table_id ≡ board.now.table.shared.table_id) × (seat.old.me.0.locks ≡ true) }
    requires editor { editor < board.now.table.shared.key.hands }
    ensures { (seat.new.table_id ≡ seat.old.table_id) × Heard B.editor seat.old.me result seat.new.me }
{
    board
        .table
        .shared
        .load::<HearsTold<B>>(seat, board.told_at(editor))
}

/// The count, each dial's first word, and two words of 0 for each hand.
fn opening_words(alloc: Global, opening: &Opening) -> Result<Vec<u64>, AllocError>
    requires { (length opening.now.dials.items < 2 ^ 16) × (opening.now.hands < 2 ^ 16) }
    ensures { IfOk result (λ v. v.items ≡ 0 ∷ (opening.now.dials.items ++ replicate (2 * opening.now.hands) 0)) }
{
    let mut words = Vec::new(alloc);
    words.push(0u64)?;
    for dial in &opening.dials {
        words.push(*dial)?;
    }
    for _ in 0..2 * opening.hands {
        words.push(0)?;
    }
    Ok(words)
}
