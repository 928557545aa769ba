//! The running of a library's jobs.

ghost use Rattle.std.specs.Prelude.{◌≡◌, ◌∷◌, ◌++◌, [], None, MatchOption};
ghost use Rattle.exec_reel.specs.Tickets.{number_of};
ghost use Rattle.slot_tags.specs.Tags.{job_of};
ghost use Rattle.job_queue.specs.Queues.{took_of, posted_of, slot_seat_of, slot_table_of, IsJobTagOf};
ghost use Rattle.job_queue.specs.Rule.{tag_data};
ghost use Rattle.resource_mgr.specs.Desks.{queue_of, seat_of, desk_number, kept_of, ended_of, IsDeskOf};
ghost use Rattle.resource_mgr.specs.Holding.{HoldsJob, IsNext, IsPutBackAt, RanAs};
ghost use Rattle.resource_mgr.specs.Working.{WorkedOne, StoppedByQuit, NoneLost};
ghost use Rattle.resource_mgr.specs.contracts.work.Work.{the_row};

use crate::desk::{Desk, Kept};
use crate::library::Library;
use crate::work::{Work, Worked};
use exec_reel::{Ran, Reel, Ticket};
use slot_tags::SlotTag;
use snd_io::Gate;
use std::sync::Wait;
use std::sync::atomic::AtomicU64;
use std::thread;
use std::time::Duration;

/// How long a worker sleeps where there is no job, in milliseconds.
const PAUSE_MILLIS: u64 = 1;

impl Library {
    /// Runs one job: the one that the desk keeps, or else the one at the front, if there is one. A page's job whose turn
    /// hasn't come, and a [`Work::Quit`], are posted again, or kept at the desk where there is no room; nothing else is
    /// posted.
    ///
    /// The gate is called before each run of a page's job, by the numbers of the resource and the page, and after it where
    /// the page was decoded.
    ///
    /// [`Worked::Early`] comes only where the pointer that this call loaded is less than the page's number,
    /// [`Worked::Quit`] only where it came by a [`Work::Quit`], and [`Worked::Empty`] only where no job was kept and the
    /// ring was empty at this call's pop.
    pub fn work_one<R: Wait, G: Gate>(&self, rt: &R, desk: &mut Desk, gate: &G) -> Worked
        requires { IsDeskOf self.now desk.old }
        ensures desk { IsDeskOf self.now desk.new × (desk_number desk.new ≡ desk_number desk.old) }
        ensures worked { WorkedOne the_row.coded.code self.now desk.old desk.new result }
        ensures jobs { NoneLost desk.old desk.new }
    {
        let Some((tag, work)) = self.next_job(rt, desk) else {
            return Worked::Empty;
        };
        match work {
            Work::Page { resource, ticket } => {
                self.run_page(rt, desk, gate, tag, resource, ticket)
            }
            Work::Quit => {
                self.put_back(rt, desk, tag, Work::Quit);
                Worked::Quit
            }
        }
    }

    /// Runs jobs until it came by a [`Work::Quit`]. Where there is no job it sleeps for a millisecond.
    pub fn worker<R: Wait, G: Gate>(&self, rt: &R, desk: &mut Desk, gate: &G)
        requires { IsDeskOf self.now desk.old }
        ensures desk { IsDeskOf self.now desk.new × (desk_number desk.new ≡ desk_number desk.old) }
        ensures stopped { StoppedByQuit desk.old desk.new }
        ensures jobs { NoneLost desk.old desk.new }
    {
        let idle = AtomicU64::new(0);
        let pause = Duration::from_millis(PAUSE_MILLIS);
        for _ in rt.forever() {
            match self.work_one(rt, desk, gate) {
                Worked::Quit => return,
                Worked::Ran { .. } => {}
                Worked::Early { .. } => thread::yield_now(),
                Worked::Empty => idle.park_timeout(rt, 0, pause),
            }
        }
        unreachable!()
    }

    /// The job that the desk keeps, or else the one at the front.
    fn next_job<R: Wait>(&self, rt: &R, desk: &mut Desk) -> Option<(SlotTag, Work)>
        requires { IsDeskOf self.now desk.old }
        ensures { IsNext the_row.coded.code self.now desk.old desk.new result }
    {
        match desk.kept.take() {
            Some(Kept { tag, work }) => Some((tag, work)),
            None => self.queue.next(rt, &mut desk.seat),
        }
    }

    /// Posts a job again under its tag, or keeps it where the ring is full.
    fn put_back<R: Wait>(&self, rt: &R, desk: &mut Desk, tag: SlotTag, work: Work)
        requires { HoldsJob self.now desk.old tag work }
        ensures { IsPutBackAt the_row.coded.code self.now desk.old desk.new tag work }
    {
        if let Err((tag, work)) = self.queue.post_again(rt, &mut desk.seat, tag, work) {
            desk.kept = Some(Kept { tag, work });
        }
    }

    /// Runs the job of a page.
    fn run_page<R: Wait, G: Gate>(
        &self,
        rt: &R,
        desk: &mut Desk,
        gate: &G,
        tag: SlotTag,
        resource: u32,
        ticket: Ticket,
    ) -> Worked
        requires { HoldsJob self.now desk.old tag (Work.Page resource ticket) }
        ensures { RanAs the_row.coded.code self.now desk.old desk.new tag resource ticket result }
    {
        let page = ticket.number();
        gate.before_job(resource, page);
        match Reel::run(ticket) {
            Ran::Done { ended } => {
                self.queue.done(&mut desk.seat, tag);
                desk.ended = Some(ended);
                gate.after_job(resource, page);
                Worked::Ran { resource, page }
            }
            Ran::Early { ticket, pointer } => {
                self.put_back(rt, desk, tag, Work::Page { resource, ticket });
                Worked::Early {
                    resource,
                    page,
                    pointer,
                }
            }
        }
    }
}
