//! A queue of jobs that threads share, and its seats.
ghost use Rattle.std.specs.Prelude.{◌≡◌, ◌+◌, ◌*◌, ◌≤◌, [], ◌∷◌, ◌++◌, None, All, map, vec_len, IfOk, IfErr, OnOk, OnErr, IsNone, IfSome};
ghost use Rattle.std.specs.List.{range_with_len};
ghost use Rattle.crossbeam_queue.specs.Passes.{view};
ghost use Rattle.slot_tags.specs.Tags.{slot_of, number_of, job_of, SameTag, groups_of, last_of, capacity_of, table_of_seat, given_of, GiveNotes};
ghost use Rattle.job_queue.specs.declared.view.Role.TheVariants.{Working};
ghost use Rattle.job_queue.specs.Rule.{tag_data};

use crate::job_ring::{JobPass, JobRing};
use plain_data::OutOfMemory;
use slot_tags::{Full, SlotSeat, SlotTag};
use std::alloc::Global;
use std::sync::Wait;

/// Where there was no room for a job.
#[derive(Clone, Copy, Debug, PartialEq, Eq)]
pub enum Place {
    /// No slot was free.
    Slots,
    /// The ring was full.
    Ring,
}

/// A job wasn't posted. It comes back.
#[derive(Debug, Drop)]
pub struct NoRoom<J> {
    pub job: J,
    pub place: Place,
}

/// What a thread posts jobs with, and takes them. It has no bytes, and is one of the queue with which it
/// was made.
#[derive(Drop)]
pub struct JobSeat<J> {
    pub(crate) pass: JobPass<J>,
    pub(crate) slot_seat: SlotSeat<J>,
    pub(crate) ghost works: { (view pass).role ≡ Working },
    pub(crate) ghost named: { (view pass).table.id ≡ table_of_seat slot_seat },
}

/// Jobs that are taken in the order in which they were posted, each once.
///
/// Threads share it by reference. Its calls take no memory, but for [`JobQueue::new`].
#[derive(Drop)]
pub struct JobQueue<J> {
    ring: JobRing<J>,
}

impl<J: Drop> JobQueue<J> {
    ghost use Rattle.job_queue.specs.Queues.{slot_table_of, seat_number, IsNewJobSeatOf};

    /// An empty queue over `groups` times 32 slots, each of which can be taken `last` times, and its job
    /// seats, `seats` of them, which are numbered from 1 on. There are 1 to 32 groups and 1 to 64 seats, and
    /// `last` is at least 1.
    ///
    /// # Errors
    ///
    /// [`OutOfMemory`] where there is no memory.
    pub fn new(
        alloc: Global,
        groups: u32,
        last: u32,
        seats: u32,
    ) -> Result<(JobQueue<J>, Vec<JobSeat<J>>), OutOfMemory>
        requires groups { (1 ≤ groups) × (groups ≤ 32) }
        requires last { 1 ≤ last }
        requires seats { (1 ≤ seats) × (seats ≤ 64) }
        ensures slots { IfOk result (λ r. (groups_of (slot_table_of r.0) ≡ groups) × (last_of (slot_table_of r.0) ≡ last)) }
        ensures seats { IfOk result (λ r. (vec_len r.1 ≡ seats) × All (IsNewJobSeatOf r.0) r.1.items) }
        ensures numbers { IfOk result (λ r. map seat_number r.1.items ≡ range_with_len 1 seats) }
    {
        let (ring, mut first, slot_seats) = JobRing::new(alloc, groups, last, seats)?;
        let mut all = Vec::with_capacity(alloc, seats as usize)?;
        for slot_seat in slot_seats {
            let pass = ring.split_seat(&mut first);
            all.push(JobSeat { pass, slot_seat })?;
        }
        Ok((JobQueue { ring }, all))
    }
}

impl<J> JobQueue<J> {
    ghost use Rattle.job_queue.specs.Queues.{slot_table_of, seat_number, posted_of, took_of, slot_seat_of, IsJobSeatOf, IsJobTagOf, RingHeld, WasPosted, HadNoRoom, WasTakenBy};

    /// Posts a job: takes a slot for it, and pushes the slot's tag to the back of the ring.
    ///
    /// # Errors
    ///
    /// [`NoRoom`] hands the job back. Its place is `Slots` only where this call tried each slot once and
    /// found none free, and `Ring` only where the ring was full at this call's push.
    pub fn post<R: Wait>(&self, rt: &R, seat: &mut JobSeat<J>, job: J) -> Result<(), NoRoom<J>>
        requires { IsJobSeatOf self.now seat.old }
        ensures seat { IsJobSeatOf self.now seat.new × (seat_number seat.new ≡ seat_number seat.old) }
        ensures took { took_of seat.new ≡ took_of seat.old }
        ensures posted { OnOk result (WasPosted self.now seat.old seat.new job) }
        ensures back { IfErr result (λ r. r.job ≡ job) }
        ensures same { OnErr result (posted_of seat.new ≡ posted_of seat.old) }
        ensures cause { IfErr result (λ r. HadNoRoom J.row.coded.code self.now seat.old seat.new r.place) }
    {
        let tag = match self.ring.slots.take(&mut seat.slot_seat, job) {
            Ok(tag) => tag,
            Err(Full { job }) => {
                return Err(NoRoom {
                    job,
                    place: Place::Slots,
                });
            }
        };
        let Err(mut refused) = self.ring.push(rt, &mut seat.pass, tag) else {
            return Ok(());
        };
        let job = self.ring.slots.lift(&mut seat.slot_seat, &mut refused);
        self.ring.slots.give(&mut seat.slot_seat, refused);
        Err(NoRoom {
            job,
            place: Place::Ring,
        })
    }

    /// Takes the job at the front. Its tag stays held, and is empty. `None` comes only where the ring was
    /// empty at this call's pop.
    pub fn next<R: Wait>(&self, rt: &R, seat: &mut JobSeat<J>) -> Option<(SlotTag, J)>
        requires { IsJobSeatOf self.now seat.old }
        ensures seat { IsJobSeatOf self.now seat.new × (seat_number seat.new ≡ seat_number seat.old) }
        ensures posted { posted_of seat.new ≡ posted_of seat.old }
        ensures slots { slot_seat_of seat.new ≡ slot_seat_of seat.old }
        ensures tag { IfSome result (λ r. IsJobTagOf self.now r.0 × (job_of r.0 ≡ None)) }
        ensures taken { IfSome result (λ r. WasTakenBy seat.old seat.new r.0 r.1) }
        ensures same { IsNone result → took_of seat.new ≡ took_of seat.old }
        ensures empty { IsNone result → RingHeld J.row.coded.code 0 seat.old }
    {
        let mut front = self.ring.pop(rt, &mut seat.pass)?;
        let job = self.ring.slots.lift(&mut seat.slot_seat, &mut front);
        Some((front, job))
    }

    /// Posts a job under an empty tag of this queue: puts it into the tag's slot, and pushes the tag to the
    /// back of the ring.
    ///
    /// # Errors
    ///
    /// The tag, which is empty again, and the job, only where the ring was full at this call's push.
    pub fn post_again<R: Wait>(
        &self,
        rt: &R,
        seat: &mut JobSeat<J>,
        mut tag: SlotTag,
        job: J,
    ) -> Result<(), (SlotTag, J)>
        requires seat { IsJobSeatOf self.now seat.old }
        requires tag { IsJobTagOf self.now tag }
        requires empty { job_of tag ≡ None }
        ensures seat { IsJobSeatOf self.now seat.new × (seat_number seat.new ≡ seat_number seat.old) }
        ensures took { took_of seat.new ≡ took_of seat.old }
        ensures slots { slot_seat_of seat.new ≡ slot_seat_of seat.old }
        ensures posted { OnOk result (posted_of seat.new ≡ posted_of seat.old ++ record { job = job; tag = tag_data tag } ∷ []) }
        ensures back { IfErr result (λ r. SameTag tag r.0 × (job_of r.0 ≡ None) × (r.1 ≡ job)) }
        ensures same { OnErr result (posted_of seat.new ≡ posted_of seat.old) }
        ensures full { OnErr result (RingHeld J.row.coded.code (capacity_of (slot_table_of self.now)) seat.old) }
    {
        self.ring.slots.put(&mut seat.slot_seat, &mut tag, job);
        let Err(mut back) = self.ring.push(rt, &mut seat.pass, tag) else {
            return Ok(());
        };
        let job = self.ring.slots.lift(&mut seat.slot_seat, &mut back);
        Err((back, job))
    }

    /// Ends an empty tag of this queue. Its slot is free again where the tag's number is below the last one.
    pub fn done(&self, seat: &mut JobSeat<J>, tag: SlotTag)
        requires seat { IsJobSeatOf self.now seat.old }
        requires tag { IsJobTagOf self.now tag }
        requires empty { job_of tag ≡ None }
        ensures seat { IsJobSeatOf self.now seat.new × (seat_number seat.new ≡ seat_number seat.old) }
        ensures same { (posted_of seat.new ≡ posted_of seat.old) × (took_of seat.new ≡ took_of seat.old) }
        ensures given { given_of (slot_seat_of seat.new) ≡ given_of (slot_seat_of seat.old) ++ (slot_of tag, number_of tag) ∷ [] }
        ensures notes { GiveNotes (slot_table_of self.now) (slot_seat_of seat.old) (slot_seat_of seat.new) tag }
    {
        self.ring.slots.give(&mut seat.slot_seat, tag);
    }
}
