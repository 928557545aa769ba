//! The table, with one function for each kind of step. It is private to this module, so that no other
//! body makes a step or adds a note.
ghost use Rattle.std.specs.Prelude.{◌≡◌, ◌+◌, ◌*◌, ◌/◌, ◌%◌, ◌^◌, ◌<◌, ◌≤◌, [], ◌∷◌, Option, None, IfOk};
ghost use Rattle.std.specs.Int.{bit_at};
ghost use Rattle.slot_tags.specs.Rule.{code_of, CanEnd};
ghost use Rattle.slot_tags.specs.Steps.{first_view, new_slot_seat, split_off, new_tag, joined, tried, counted, opened, closed, cleared, IsNewer};

use crate::rule::{
    ClearsBit, ClosesCell, CountsUp, OpensCell, SetsBit, SlotSeatSplits, TagJoins, TagRule,
    TagSplits,
};
use crate::view::{Role, Sizes, View};
use atomic_table::{Seat, Table};
use plain_data::OutOfMemory;
use std::alloc::Global;

/// The slots of a group. Their bits lie in one word.
pub(crate) const SLOTS_PER_GROUP: u32 = 32;

/// A seat of the table, whose cells hold jobs.
pub(crate) type TableSeat<J> = Seat<Option<J>, View>;

/// The table of a [`SlotTable`](crate::SlotTable), with its numbers.
#[derive(Drop)]
pub struct StepTable<J> {
    table: Table<Option<J>, View, Sizes, TagRule, Global>,
    pub(crate) groups: u32,
    pub(crate) last: u32,
    ghost keyed: { table.shared.key ≡ record { groups = groups; last = last } },
    ghost words: { table.shared.table_id.words ≡ 33 * groups },
    pub(crate) ghost slots: { table.shared.table_id.slots ≡ 32 * groups },
    pub(crate) ghost within: { (0 < groups) × (groups ≤ 32) },
}

impl<J> StepTable<J> {
    ghost use Rattle.slot_tags.specs.Seats.{IsAt, Same};

    /// Splits a tag's seat off a slot seat.
    pub(crate) fn split_tag(&self, seat: &mut TableSeat<J>) -> TableSeat<J>
        requires at { IsAt self.now seat.old }
        requires role { seat.old.me.0.role ≡ Role.Splitter }
        ensures same { Same seat.old seat.new }
        ensures me { seat.new.me ≡ (split_off seat.old.me.0, seat.old.me.1) }
        ensures tag { IsAt self.now result × (result.me ≡ (new_tag seat.old.me.0, [])) }
    {
        self.table.shared.split_seat::<TagSplits>(seat)
    }

    /// A fetch_or of the bit of `slot`, which gives the word of the slot's group as it was.
    pub(crate) fn set_bit(&self, tag: &mut TableSeat<J>, slot: u32) -> u64
        requires at { IsAt self.now tag.old }
        requires role { tag.old.me.0.role ≡ Role.Free }
        requires slot { slot < 32 * self.now.groups }
        ensures same { Same tag.old tag.new }
        ensures me { tag.new.me ≡ (tried slot result tag.old.me.0, tag.old.me.1) }
    {
        self.table.shared.fetch_or::<SetsBit>(
            tag,
            (slot / SLOTS_PER_GROUP) as usize,
            1u64 << (slot % SLOTS_PER_GROUP),
        )
    }

    /// A fetch_add of 1 to the counter of the slot that was won, which gives the counter as it was.
    pub(crate) fn count_up(&self, tag: &mut TableSeat<J>, slot: u32) -> u64
        requires at { IsAt self.now tag.old }
        requires role { tag.old.me.0.role ≡ Role.Won }
        requires slot { (tag.old.me.0.slot ≡ slot) × (slot < 32 * self.now.groups) }
        ensures same { Same tag.old tag.new }
        ensures me { tag.new.me ≡ (counted result tag.old.me.0, tag.old.me.1) }
        ensures below { (result < tag.old.me.0.last) × (result + 1 < 2 ^ 32) }
        ensures new { IsNewer slot (result + 1) tag.old.me.0.given }
    {
        self.table
            .shared
            .fetch_add::<CountsUp>(tag, (self.groups + slot) as usize, 1)
    }

    /// A load at which the cell of the tag's slot goes out to the tag's seat.
    pub(crate) fn open_cell(&self, tag: &mut TableSeat<J>)
        requires at { IsAt self.now tag.old }
        requires role { tag.old.me.0.role ≡ Role.Held }
        ensures same { Same tag.old tag.new }
        ensures me { (x : Option J) × (code_of J.row.coded.code x ≡ tag.old.me.0.job)
            × (tag.new.me ≡ (opened tag.old.me.0, (tag.old.me.0.slot, x) ∷ tag.old.me.1)) }
    {
        self.table.shared.load::<OpensCell>(tag, 0);
    }

    /// A plain read and write of the cell that is out with the seat.
    pub(crate) fn change_cell(&self, tag: &mut TableSeat<J>, slot: u32, new: Option<J>) -> Option<J>
        requires at { IsAt self.now tag.old }
        requires cell { (x : Option J) × (tag.old.me.1 ≡ (slot, x) ∷ []) }
        ensures same { Same tag.old tag.new }
        ensures old { tag.old.me.1 ≡ (slot, result) ∷ [] }
        ensures new { tag.new.me ≡ (tag.old.me.0, (slot, new) ∷ []) }
    {
        self.table.shared.exchange(tag, slot as usize, new)
    }

    /// A load at which the cell of the tag's slot comes home.
    pub(crate) fn close_cell(&self, tag: &mut TableSeat<J>, slot: u32)
        requires at { IsAt self.now tag.old }
        requires role { (tag.old.me.0.role ≡ Role.Open) × (tag.old.me.0.slot ≡ slot) }
        requires cell { (x : Option J) × (tag.old.me.1 ≡ (slot, x) ∷ []) }
        ensures same { Same tag.old tag.new }
        ensures me { (x : Option J) × (tag.old.me.1 ≡ (slot, x) ∷ [])
            × (tag.new.me ≡ (closed (code_of J.row.coded.code x) tag.old.me.0, [])) }
    {
        self.table.shared.load::<ClosesCell>(tag, 0);
    }

    /// A fetch_and that clears the bit of the tag's slot, and gives the word of the slot's group as it
    /// was.
    pub(crate) fn clear_bit(&self, tag: &mut TableSeat<J>, slot: u32) -> u64
        requires at { IsAt self.now tag.old }
        requires role { (tag.old.me.0.role ≡ Role.Held) × (tag.old.me.0.job ≡ None) }
        requires slot { (tag.old.me.0.slot ≡ slot) × (slot < 32 * self.now.groups) }
        requires number { tag.old.me.0.number < self.now.last }
        ensures same { Same tag.old tag.new }
        ensures me { tag.new.me ≡ (cleared result tag.old.me.0, tag.old.me.1) }
        ensures told { bit_at result (slot % 32) ≡ 1 }
    {
        self.table.shared.fetch_and::<ClearsBit>(
            tag,
            (slot / SLOTS_PER_GROUP) as usize,
            !(1u64 << (slot % SLOTS_PER_GROUP)),
        )
    }

    /// Joins a tag's seat into a slot seat. A tag whose number is the last keeps its slot's bit set, so
    /// that the slot isn't given again.
    pub(crate) fn join_tag(&self, seat: &mut TableSeat<J>, tag: TableSeat<J>)
        requires at { IsAt self.now seat.old × IsAt self.now tag }
        requires role { seat.old.me.0.role ≡ Role.Splitter }
        requires ends { CanEnd self.now.last tag.me.0.role tag.me.0.number tag.me.0.job }
        requires cell { tag.me.1 ≡ [] }
        ensures same { Same seat.old seat.new }
        ensures me { seat.new.me ≡ (joined seat.old.me.0 tag.me.0, seat.old.me.1) }
    {
        self.table.shared.join_seat::<TagJoins>(seat, tag)
    }

    /// Splits a further slot seat off the first one.
    pub(crate) fn split_slot_seat(&self, seat: &mut TableSeat<J>) -> TableSeat<J>
        requires at { IsAt self.now seat.old }
        requires role { seat.old.me.0.role ≡ Role.Splitter }
        ensures same { Same seat.old seat.new }
        ensures me { seat.new.me ≡ seat.old.me }
        ensures seat { IsAt self.now result × (result.me ≡ (new_slot_seat seat.old.me.0, [])) }
    {
        self.table.shared.split_seat::<SlotSeatSplits>(seat)
    }
}

impl<J: Drop> StepTable<J> {
    ghost use Rattle.slot_tags.specs.Seats.{IsAt};

    /// A table whose slots are all free, and its first slot seat.
    pub(crate) fn new(
        alloc: Global,
        groups: u32,
        last: u32,
    ) -> Result<(StepTable<J>, TableSeat<J>), OutOfMemory>
        requires { (0 < groups) × (groups ≤ 32) × (0 < last) }
        ensures table { IfOk result (λ r. (r.0.groups ≡ groups) × (r.0.last ≡ last)) }
        ensures seat { IfOk result (λ r. IsAt r.0 r.1 × (r.1.me ≡ (first_view record { groups = groups; last = last }, []))) }
    {
        let words = vec![in alloc; 0u64; ((SLOTS_PER_GROUP + 1) * groups) as usize]?;
        let sizes = Sizes { groups, last };
        let (table, seat) = Table::vacant(
            alloc,
            words.as_slice(),
            (SLOTS_PER_GROUP * groups) as usize,
            &sizes,
        )?;
        Ok((
            StepTable {
                table,
                groups,
                last,
            },
            seat,
        ))
    }
}
