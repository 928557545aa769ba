//! The ring and the slot table, with one function for each kind of step of the ring. The ring is private to
//! this module, so that no other body makes a step.
ghost use Rattle.std.specs.Prelude.{◌≡◌, ◌*◌, ◌<◌, ◌≤◌, All, vec_len, IfOk, MatchOption, MatchResult};
ghost use Rattle.crossbeam_queue.specs.Fifo.{Held};
ghost use Rattle.crossbeam_queue.specs.Passes.{view, ruled_capacity};
ghost use Rattle.slot_tags.specs.Tags.{table_of_tag, HasJob, groups_of, last_of, capacity_of, table_of, IsNewSeatOf};
ghost use Rattle.job_queue.specs.declared.view.Role.TheVariants.{Opening, Working};
ghost use Rattle.job_queue.specs.Steps.{first_view, after_split, new_seat, Pushed, Popped, Stood};

use crate::rule::{NamesTable, PopsTag, PushesTag, RingRule, SplitsSeat};
use crate::view::JobView;
use crossbeam_queue::{Pass, RuledArrayQueue};
use plain_data::OutOfMemory;
use slot_tags::{SlotSeat, SlotTable, SlotTag};
use std::alloc::Global;
use std::marker::Brand;
use std::sync::Wait;

/// The slots of a group.
const SLOTS_PER_GROUP: u32 = 32;

/// A pass of the ring, which carries tags.
pub(crate) type JobPass<J> = Pass<SlotTag, JobView<J>>;

/// The ring of a [`JobQueue`](crate::JobQueue), with the slots in which its jobs lie.
#[derive(Drop)]
pub struct JobRing<J> {
    ring: RuledArrayQueue<SlotTag, JobView<J>, RingRule>,
    pub(crate) slots: SlotTable<J>,
    pub(crate) ghost sized: { ruled_capacity ring ≡ capacity_of slots },
}

impl<J> JobRing<J> {
    ghost use Rattle.job_queue.specs.Rings.{IsAt};

    /// Splits a job seat's pass off the first one.
    pub(crate) fn split_seat(&self, first: &mut JobPass<J>) -> JobPass<J>
        requires at { IsAt self.now first.old }
        requires role { (view first.old).role ≡ Opening }
        requires names { 0 < (view first.old).number → (view first.old).table.id ≡ table_of self.now.slots }
        ensures at { IsAt self.now first.new × IsAt self.now result }
        ensures first { view first.new ≡ after_split (table_of self.now.slots) (view first.old) }
        ensures seat { view result ≡ new_seat (table_of self.now.slots) (view first.old) }
    {
        self.split_named::<Brand>(first)
    }

    fn split_named<B: NamesTable>(&self, first: &mut JobPass<J>) -> JobPass<J>
        requires at { IsAt self.now first.old }
        requires role { (view first.old).role ≡ Opening }
        requires names { 0 < (view first.old).number → (view first.old).table.id ≡ table_of self.now.slots }
        requires table { table_of self.now.slots ≡ B.table }
        ensures at { IsAt self.now first.new × IsAt self.now result }
        ensures first { view first.new ≡ after_split (table_of self.now.slots) (view first.old) }
        ensures seat { view result ≡ new_seat (table_of self.now.slots) (view first.old) }
    {
        self.ring.another::<SplitsSeat<B>>(first)
    }

    /// Pushes a full tag to the back. It comes back where the ring was full at a moment of this call.
    pub(crate) fn push<R: Wait>(
        &self,
        rt: &R,
        pass: &mut JobPass<J>,
        tag: SlotTag,
    ) -> Result<(), SlotTag>
        requires at { IsAt self.now pass.old }
        requires role { (view pass.old).role ≡ Working }
        requires tag { table_of_tag tag ≡ (view pass.old).table.id }
        requires full { (job : J) × HasJob J.row.coded.code tag job }
        ensures at { IsAt self.now pass.new }
        ensures told { MatchResult result
            (λ _. Pushed J.row.coded.code (view pass.old) tag (view pass.new))
            (λ back. (back ≡ tag) × (view pass.new ≡ view pass.old) × Held (capacity_of self.now.slots) (Stood J.row.coded.code (view pass.old))) }
    {
        self.ring.push_as::<PushesTag, R>(rt, pass, tag)
    }

    /// Pops the tag at the front. `None` comes where the ring was empty at a moment of this call.
    pub(crate) fn pop<R: Wait>(&self, rt: &R, pass: &mut JobPass<J>) -> Option<SlotTag>
        requires at { IsAt self.now pass.old }
        requires role { (view pass.old).role ≡ Working }
        ensures at { IsAt self.now pass.new }
        ensures told { MatchOption result
            ((view pass.new ≡ view pass.old) × Held 0 (Stood J.row.coded.code (view pass.old)))
            (λ tag. Popped J.row.coded.code (view pass.old) tag (view pass.new)) }
    {
        self.ring.pop_as::<PopsTag, R>(rt, pass)
    }
}

impl<J: Drop> JobRing<J> {
    ghost use Rattle.job_queue.specs.Rings.{IsAt};

    /// An empty ring with as many places as there are slots, its first pass, and the seats of its slots.
    pub(crate) fn new(
        alloc: Global,
        groups: u32,
        last: u32,
        seats: u32,
    ) -> Result<(JobRing<J>, JobPass<J>, Vec<SlotSeat<J>>), OutOfMemory>
        requires groups { (1 ≤ groups) × (groups ≤ 32) }
        requires last { 1 ≤ last }
        requires seats { (1 ≤ seats) × (seats ≤ 64) }
        ensures slots { IfOk result (λ r. (groups_of r.0.slots ≡ groups) × (last_of r.0.slots ≡ last)) }
        ensures first { IfOk result (λ r. IsAt r.0 r.1 × (view r.1 ≡ first_view)) }
        ensures seats { IfOk result (λ r. (vec_len r.2 ≡ seats) × All (IsNewSeatOf r.0.slots) r.2.items) }
    {
        let (slots, seats) = SlotTable::new(alloc, groups, last, seats)?;
        let places = SLOTS_PER_GROUP * groups;
        let (ring, first) = RuledArrayQueue::ruled(alloc, places as usize)?;
        Ok((JobRing { ring, slots }, first, seats))
    }
}
