//! Desks, at which the jobs of a library are posted and run.

use crate::work::Work;
use exec_reel::Ended;
use job_queue::JobSeat;
use slot_tags::SlotTag;

/// A job that was taken and found no room in the ring again, with the tag under which it is posted.
#[derive(Drop)]
pub struct Kept {
    pub(crate) tag: SlotTag,
    pub(crate) work: Work,
}

/// What a thread posts the jobs of a [`Library`](crate::Library) with, and runs them. Each thread has one of its own.
#[derive(Drop)]
pub struct Desk {
    pub(crate) seat: JobSeat<Work>,
    /// The job that is run first, before one is taken.
    pub(crate) kept: Option<Kept>,
    /// What is left of the ticket of the page that was decoded last.
    pub(crate) ended: Option<Ended>,
}
