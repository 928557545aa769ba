//! A table of tagged slots, and its seats.
ghost use Rattle.std.specs.Prelude.{◌≡◌, ◌+◌, ◌*◌, ◌<◌, ◌≤◌, [], ◌∷◌, ◌++◌, Some, None, true, All, vec_len, is_some, IfOk, IfErr};
ghost use Rattle.slot_tags.specs.declared.view.Role.TheVariants.{Splitter};
ghost use Rattle.slot_tags.specs.Rule.{code_of};
ghost use Rattle.slot_tags.specs.Steps.{closed, IsNewer};
ghost use Rattle.slot_tags.specs.Notes.{Sought};

use crate::step_table::{SLOTS_PER_GROUP, StepTable, TableSeat};
use crate::tag::SlotTag;
use crate::view::Role;
use plain_data::OutOfMemory;
use std::alloc::Global;

/// No slot was free. The job comes back.
#[derive(Debug, Drop)]
pub struct Full<J> {
    pub job: J,
}

/// What a thread takes tags with, and gives them back through. It has no bytes, and is one of the
/// table with which it was made.
#[derive(Drop)]
pub struct SlotSeat<J> {
    pub(crate) seat: TableSeat<J>,
    pub(crate) ghost role: { seat.me.0.role ≡ Splitter },
}

/// Slots in groups of 32. Each is free, or held by a tag with a job or with none, or used up.
///
/// Threads share it by reference. Its calls neither wait for another thread nor take memory, but for
/// [`SlotTable::new`].
#[derive(Drop)]
pub struct SlotTable<J> {
    steps: StepTable<J>,
}

impl<J: Drop> SlotTable<J> {
    ghost use Rattle.slot_tags.specs.Tags.{groups_of, last_of, IsNewSeatOf};

    /// A table of `groups` times 32 free slots, each of which can be taken `last` times, and its slot
    /// seats, `seats` of them. There are 1 to 32 groups and 1 to 64 seats, and `last` is at least 1.
    /// It fails for want of memory alone.
    pub fn new(
        alloc: Global,
        groups: u32,
        last: u32,
        seats: u32,
    ) -> Result<(SlotTable<J>, Vec<SlotSeat<J>>), OutOfMemory>
        requires groups { (1 ≤ groups) × (groups ≤ 32) }
        requires last { 1 ≤ last }
        requires seats { (1 ≤ seats) × (seats ≤ 64) }
        ensures table { IfOk result (λ r. (groups_of r.0 ≡ groups) × (last_of r.0 ≡ last)) }
        ensures seats { IfOk result (λ r. (vec_len r.1 ≡ seats) × All (IsNewSeatOf r.0) r.1.items) }
    {
        let (steps, mut seat) = StepTable::new(alloc, groups, last)?;
        let mut all = Vec::with_capacity(alloc, seats as usize)?;
        for _ in 1..seats {
            let further = steps.split_slot_seat(&mut seat);
            all.push(SlotSeat { seat: further })?;
        }
        all.push(SlotSeat { seat })?;
        Ok((SlotTable { steps }, all))
    }
}

impl<J> SlotTable<J> {
    ghost use Rattle.slot_tags.specs.Seats.{IsAt, Same};
    ghost use Rattle.slot_tags.specs.Tags.{slot_of, number_of, job_of, SameTag, HasJob, last_of, capacity_of, given_of, IsSeatOf, IsTagOf, TakeNotes, GiveNotes};

    /// Takes the first slot whose bit it finds clear, and gives a tag that is full with `job`. The
    /// slot's counter rises by 1, from 0 at its first take, and is the tag's number: 1 to the
    /// table's last number.
    ///
    /// `Full` hands the job back. It comes only where this call made one fetch_or on each slot and
    /// each found its bit set. While other threads take and give, that may be so though at no moment
    /// all bits were set. On one thread the least free slot is taken, and `Full` comes exactly where
    /// none is free.
    pub fn take(&self, seat: &mut SlotSeat<J>, job: J) -> Result<SlotTag, Full<J>>
        requires { IsSeatOf self.now seat.old }
        ensures seat { IsSeatOf self.now seat.new × (given_of seat.new ≡ given_of seat.old) }
        ensures tag { IfOk result (λ t. IsTagOf self.now t × HasJob J.row.coded.code t job) }
        ensures slot { IfOk result (λ t. slot_of t < capacity_of self.now) }
        ensures number { IfOk result (λ t. (1 ≤ number_of t) × (number_of t ≤ last_of self.now)) }
        ensures new { IfOk result (λ t. IsNewer (slot_of t) (number_of t) (given_of seat.old)) }
        ensures notes { TakeNotes self.now seat.old seat.new result }
        ensures job { IfErr result (λ f. f.job ≡ job) }
    {
        let mut tag = self.steps.split_tag(&mut seat.seat);
        let Some(slot) = self.win(&mut tag) else {
            self.steps.join_tag(&mut seat.seat, tag);
            return Err(Full { job });
        };
        let before = self.steps.count_up(&mut tag, slot);
        let had = self.exchange_job(&mut tag, slot, Some(job));
        let None = had else { unreachable!() };
        Ok(SlotTag {
            slot,
            number: (before + 1) as u32,
            full: true,
            badge: tag.into_badge(),
        })
    }

    /// Takes the job out from under a full tag of this table, which is empty from then on.
    pub fn lift(&self, seat: &mut SlotSeat<J>, tag: &mut SlotTag) -> J
        requires seat { IsSeatOf self.now seat.old }
        requires tag { IsTagOf self.now tag.old }
        requires full { is_some (job_of tag.old) ≡ true }
        ensures seat { seat.new ≡ seat.old }
        ensures tag { SameTag tag.old tag.new × (job_of tag.new ≡ None) }
        ensures job { HasJob J.row.coded.code tag.old result }
        ensures own { (job : J) → HasJob J.row.coded.code tag.old job → result ≡ job }
    {
        let Some(job) = tag.exchange(self, None) else {
            unreachable!()
        };
        job
    }

    /// Puts a job under an empty tag of this table, which is full from then on.
    pub fn put(&self, seat: &mut SlotSeat<J>, tag: &mut SlotTag, job: J)
        requires seat { IsSeatOf self.now seat.old }
        requires tag { IsTagOf self.now tag.old }
        requires empty { job_of tag.old ≡ None }
        ensures seat { seat.new ≡ seat.old }
        ensures tag { SameTag tag.old tag.new × HasJob J.row.coded.code tag.new job }
    {
        let had = tag.exchange(self, Some(job));
        let None = had else { unreachable!() };
    }

    /// Ends an empty tag of this table. Its slot is free again where the tag's number is below the table's last
    /// one. Else it is used up, and never given again.
    pub fn give(&self, seat: &mut SlotSeat<J>, tag: SlotTag)
        requires seat { IsSeatOf self.now seat.old }
        requires tag { IsTagOf self.now tag }
        requires empty { job_of tag ≡ None }
        ensures seat { IsSeatOf self.now seat.new }
        ensures given { given_of seat.new ≡ given_of seat.old ++ (slot_of tag, number_of tag) ∷ [] }
        ensures notes { GiveNotes self.now seat.old seat.new tag }
    {
        let SlotTag {
            slot,
            number,
            full: _,
            badge,
        } = tag;
        let mut ended = badge.into_seat();
        if number < self.steps.last {
            self.steps.clear_bit(&mut ended, slot);
        }
        self.steps.join_tag(&mut seat.seat, ended);
    }

    // Sets the bit of each slot in turn until one is found clear, whose slot is won.
    fn win(&self, tag: &mut TableSeat<J>) -> Option<u32>
        requires at { IsAt self.now.steps tag.old }
        requires role { tag.old.me.0.role ≡ Role.Free }
        ensures same { Same tag.old tag.new }
        ensures won { Sought (capacity_of self.now) tag.old.me tag.new.me result }
    {
        for slot in 0..SLOTS_PER_GROUP * self.steps.groups {
            let found = self.steps.set_bit(tag, slot);
            if found >> (slot % SLOTS_PER_GROUP) & 1 == 0 {
                return Some(slot);
            }
        }
        None
    }

    // Puts `new` into the cell of the tag's slot, and gives what lay there.
    pub(crate) fn exchange_job(
        &self,
        tag: &mut TableSeat<J>,
        slot: u32,
        new: Option<J>,
    ) -> Option<J>
        requires at { IsAt self.now.steps tag.old }
        requires role { (tag.old.me.0.role ≡ Role.Held) × (tag.old.me.0.slot ≡ slot) }
        requires home { tag.old.me.1 ≡ [] }
        ensures same { Same tag.old tag.new }
        ensures me { tag.new.me ≡ (closed (code_of J.row.coded.code new) tag.old.me.0, []) }
        ensures job { tag.old.me.0.job ≡ code_of J.row.coded.code result }
    {
        self.steps.open_cell(tag);
        let old = self.steps.change_cell(tag, slot, new);
        self.steps.close_cell(tag, slot);
        old
    }
}
