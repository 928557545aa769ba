//! The rule of the table, and what each kind of step tells.
use crate::view::{Sizes, View};
use atomic_table::{Join, Play, Split, TableRule};

/// The rule of tags.
pub struct TagRule;

impl<J> TableRule<Option<J>, View, Sizes> for TagRule {
    ghost use Rattle.slot_tags.specs.Rule.{Kept};
    ghost use Rattle.slot_tags.specs.Steps.{first_view};

    ghost holds = { Kept J.row.coded.code };

    ghost first = { first_view };
}

/// A tag's seat is split off.
pub struct TagSplits;

impl Split<View> for TagSplits {
    ghost use Rattle.slot_tags.specs.Steps.{split_off, new_tag};

    ghost left = { split_off };

    ghost right = { new_tag };
}

/// A further slot seat is split off, at the opening of a table.
pub struct SlotSeatSplits;

impl Split<View> for SlotSeatSplits {
    ghost use Rattle.slot_tags.specs.Steps.{unchanged, new_slot_seat};

    ghost left = { unchanged };

    ghost right = { new_slot_seat };
}

/// A tag's seat is joined into a slot seat.
pub struct TagJoins;

impl Join<View> for TagJoins {
    ghost use Rattle.slot_tags.specs.Steps.{joined, spent};

    ghost both = { joined };

    ghost spent = { spent };
}

/// A fetch_or of a slot's bit.
pub struct SetsBit;

impl<J> Play<Option<J>, View> for SetsBit {
    ghost use Rattle.slot_tags.specs.Steps.{SetBit};

    ghost then = { SetBit };
}

/// A fetch_add of 1 to a slot's counter.
pub struct CountsUp;

impl<J> Play<Option<J>, View> for CountsUp {
    ghost use Rattle.slot_tags.specs.Steps.{CountedUp};

    ghost then = { CountedUp };
}

/// A load at which the slot's cell goes out to the tag's seat.
pub struct OpensCell;

impl<J> Play<Option<J>, View> for OpensCell {
    ghost use Rattle.slot_tags.specs.Steps.{OpenedCell};

    ghost then = { OpenedCell J.row.coded.code };
}

/// A load at which the slot's cell comes home.
pub struct ClosesCell;

impl<J> Play<Option<J>, View> for ClosesCell {
    ghost use Rattle.slot_tags.specs.Steps.{ClosedCell};

    ghost then = { ClosedCell J.row.coded.code };
}

/// A fetch_and of a slot's bit.
pub struct ClearsBit;

impl<J> Play<Option<J>, View> for ClearsBit {
    ghost use Rattle.slot_tags.specs.Steps.{ClearedBit};

    ghost then = { ClearedBit };
}
