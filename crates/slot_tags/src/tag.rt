//! A tag: a slot that is held, with its number.
ghost use Rattle.std.specs.Prelude.{◌≡◌, ◌<◌, ◌∷◌, [], true, map, is_some};
ghost use Rattle.slot_tags.specs.Shown.{shown};

use crate::slot_table::SlotTable;
use crate::view::View;
use atomic_table::Badge;
use std::mem;

/// A slot that is held, with the number of this holding. No two tags of a table have one value, and no
/// other tag has the slot while this one is there.
///
/// A tag is full with a job, or empty. It is neither `Clone` nor `Copy`. A tag that is dropped keeps its
/// slot for ever; [`SlotTable::give`] ends it.
#[derive(Drop)]
pub struct SlotTag {
    pub(crate) slot: u32,
    pub(crate) number: u32,
    pub(crate) full: bool,
    pub(crate) badge: Badge<View>,
    pub(crate) ghost within: { slot < badge.table_id.slots },
    pub(crate) ghost held: { map shown badge.views ≡ (true, slot, number, full) ∷ [] },
}

impl SlotTag {
    ghost use Rattle.slot_tags.specs.Rule.{code_of};
    ghost use Rattle.slot_tags.specs.Tags.{value_of, job_of, SameTag, IsTagOf};

    /// The tag's number, times 2^32, plus its slot.
    pub fn value(&self) -> u64
        ensures { result ≡ value_of self.now }
    {
        let (slot, number) = (self.slot, self.number);
        u64::from(number) << 32 | u64::from(slot)
    }

    /// Whether a job lies under the tag.
    pub fn is_full(&self) -> bool
        ensures { result ≡ is_some (job_of self.now) }
    {
        self.full
    }

    // Puts `new` under the tag in place of what lay there.
    pub(crate) fn exchange<J>(&mut self, table: &SlotTable<J>, new: Option<J>) -> Option<J>
        requires { IsTagOf table.now self.old }
        ensures tag { SameTag self.old self.new }
        ensures new { job_of self.new ≡ code_of J.row.coded.code new }
        ensures old { job_of self.old ≡ code_of J.row.coded.code result }
    {
        let full = new.is_some();
        let mut seat = mem::replace(&mut self.badge, Badge::blank()).into_seat();
        let old = table.exchange_job(&mut seat, self.slot, new);
        self.badge = seat.into_badge();
        self.full = full;
        old
    }
}
