//! The rule of a board, and what each kind of step tells.
ghost use Rattle.std.specs.Prelude.{ℕ};

use crate::view::{Opening, View};
use atomic_table::{Join, Play, Split, TableRule};
use std::marker::{Brand, PhantomData};

/// The rule of the board and of hands.
pub struct BoardRule;

impl TableRule<bool, View, Opening> for BoardRule {
    ghost use Rattle.live_board.specs.Rule.{Kept, opener};

    ghost holds = { Kept };

    ghost first = { opener };
}

/// A store of a dial's word, which is an entry of the board's history.
pub struct StoresDial;

impl Play<bool, View> for StoresDial {
    ghost use Rattle.std.specs.Prelude.{◌≡◌, ◌-◌};
    ghost use Rattle.live_board.specs.Steps.{dial_stored};

    ghost then = { λ s me n now. now ≡ (dial_stored (s.word - 1) s.first me.0, me.1) };
}

/// A store of the count, by which the last entry is counted.
pub struct StoresCount;

impl Play<bool, View> for StoresCount {
    ghost use Rattle.std.specs.Prelude.{◌≡◌};
    ghost use Rattle.live_board.specs.Steps.{counted};

    ghost then = { λ s me n now. now ≡ (counted me.0, me.1) };
}

/// A load of the count that begins a reading.
pub struct LoadsFirstCount;

impl Play<bool, View> for LoadsFirstCount {
    ghost use Rattle.std.specs.Prelude.{◌≡◌};
    ghost use Rattle.live_board.specs.Steps.{begun};

    ghost then = { λ s me n now. now ≡ (begun n me.0, me.1) };
}

/// A load of a dial's word.
pub struct LoadsDial;

impl Play<bool, View> for LoadsDial {
    ghost use Rattle.std.specs.Prelude.{◌≡◌, ◌-◌, ◌≤◌, slice_index};
    ghost use Rattle.live_board.specs.Steps.{dial_read};

    ghost then = { λ s me n now. (now ≡ (dial_read (s.word - 1) n me.0, me.1)) × (n ≤ slice_index me.0.mixing.most (s.word - 1)) };
}

/// A load of the count that ends a reading.
pub struct LoadsLastCount;

impl Play<bool, View> for LoadsLastCount {
    ghost use Rattle.std.specs.Prelude.{◌≡◌};
    ghost use Rattle.live_board.specs.Steps.{ended};

    ghost then = { λ s me n now. now ≡ (ended n me.0, me.1) };
}

/// A store of the word by which a hand tells a reply.
pub struct TellsReply;

impl Play<bool, View> for TellsReply {
    ghost use Rattle.live_board.specs.Steps.{Told};

    ghost then = { λ s me n now. Told s me now };
}

/// Which editor's word is loaded: each call says it.
pub trait Whose {
    ghost editor: { ℕ };
}

impl Whose for Brand {
    ghost editor = { 0 };
}

/// A load of what the editor told.
pub struct HearsTold<B> {
    of: PhantomData<B>,
}

impl<B: Whose> Play<bool, View> for HearsTold<B> {
    ghost use Rattle.live_board.specs.Steps.{Heard};

    ghost then = { λ s me n now. Heard B.editor me n now };
}

/// A store of the number of booked edits, which puts the edit that was heard into the journal.
pub struct BooksEdit;

impl Play<bool, View> for BooksEdit {
    ghost use Rattle.live_board.specs.Steps.{Booked};

    ghost then = { λ s me n now. Booked s me now };
}

/// A load of the number of booked edits by the hand.
pub struct FindsBooked;

impl Play<bool, View> for FindsBooked {
    ghost use Rattle.std.specs.Prelude.{◌≡◌};
    ghost use Rattle.live_board.specs.Steps.{found_as};

    ghost then = { λ s me n now. now ≡ (found_as n me.0, me.1) };
}

/// A load that only tells what is known of the whole board.
pub struct Looks;

impl Play<bool, View> for Looks {
    ghost use Rattle.std.specs.Prelude.{◌≡◌};
    ghost use Rattle.live_board.specs.Steps.{Learns};

    ghost then = { λ s me n now. (now ≡ me) × Learns me };
}

/// A hand's seat is split off, or joined.
pub struct HandParts;

impl Split<View> for HandParts {
    ghost use Rattle.live_board.specs.Steps.{hand_out, new_hand};

    ghost left = { hand_out };

    ghost right = { new_hand };
}

impl Join<View> for HandParts {
    ghost use Rattle.live_board.specs.Steps.{with_hand};
    ghost use Rattle.live_board.specs.Rule.{nobody};

    ghost both = { with_hand };

    ghost spent = { nobody };
}

/// The mixer's seat is split off, or joined.
pub struct MixerParts;

impl Split<View> for MixerParts {
    ghost use Rattle.live_board.specs.Steps.{without_mix, only_mix};

    ghost left = { without_mix };

    ghost right = { only_mix };
}

impl Join<View> for MixerParts {
    ghost use Rattle.live_board.specs.Steps.{with_mix};
    ghost use Rattle.live_board.specs.Rule.{nobody};

    ghost both = { with_mix };

    ghost spent = { nobody };
}
