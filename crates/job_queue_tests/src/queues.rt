//! Queues of one group, and what the tests do with them.
ghost use Rattle.std.specs.Prelude.{◌≤◌, IfOk};
ghost use Rattle.job_queue.specs.Queues.{IsJobSeatOf};

use job_queue::{JobQueue, JobSeat, NoRoom, Place};
use plain_data::OutOfMemory;
use std::alloc::Global;
use std::sync::Wait;

/// A queue of one group and its only seat.
pub fn opened<J: Drop>(alloc: Global, last: u32) -> Result<(JobQueue<J>, JobSeat<J>), OutOfMemory>
    requires { 1 ≤ last }
    ensures { IfOk result (λ r. IsJobSeatOf r.0 r.1) }
{
    let (queue, mut seats) = JobQueue::new(alloc, 1, last, 1)?;
    let Some(seat) = seats.pop() else {
        unreachable!()
    };
    Ok((queue, seat))
}

/// Posts a job. Where there is no room for it, tells the job that comes back, and where there was none.
pub fn refused<R: Wait>(
    rt: &R,
    queue: &JobQueue<u64>,
    seat: &mut JobSeat<u64>,
    job: u64,
) -> Option<(u64, Place)>
    requires { IsJobSeatOf queue.now seat.old }
    ensures { IsJobSeatOf queue.now seat.new }
{
    match queue.post(rt, seat, job) {
        Ok(()) => None,
        Err(NoRoom { job, place }) => Some((job, place)),
    }
}

/// Takes the front job, with its tag's value, and ends the tag.
pub fn worked_off<R: Wait>(
    rt: &R,
    queue: &JobQueue<u64>,
    seat: &mut JobSeat<u64>,
) -> Option<(u64, u64)>
    requires { IsJobSeatOf queue.now seat.old }
    ensures { IsJobSeatOf queue.now seat.new }
{
    let (tag, job) = queue.next(rt, seat)?;
    let value = tag.value();
    queue.done(seat, tag);
    Some((value, job))
}

/// Takes the front job. Its tag is dropped, so that its slot stays held.
pub fn taken<R: Wait>(rt: &R, queue: &JobQueue<u64>, seat: &mut JobSeat<u64>) -> Option<u64>
    requires { IsJobSeatOf queue.now seat.old }
    ensures { IsJobSeatOf queue.now seat.new }
{
    let (_tag, job) = queue.next(rt, seat)?;
    Some(job)
}

/// Posts the jobs 0 and on, `count` of them, and tells for how many there was room.
pub fn posted<R: Wait>(rt: &R, queue: &JobQueue<u64>, seat: &mut JobSeat<u64>, count: u64) -> u64
    requires { IsJobSeatOf queue.now seat.old }
    ensures { IsJobSeatOf queue.now seat.new }
{
    let mut posts: u64 = 0;
    for job in 0..count {
        if refused(rt, queue, seat, job).is_none() {
            posts = posts.wrapping_add(1);
        }
    }
    posts
}

/// Works off `count` jobs at most, and tells the sum of those.
pub fn sum_of<R: Wait>(rt: &R, queue: &JobQueue<u64>, seat: &mut JobSeat<u64>, count: u64) -> u64
    requires { IsJobSeatOf queue.now seat.old }
    ensures { IsJobSeatOf queue.now seat.new }
{
    let mut sum: u64 = 0;
    for _ in 0..count {
        if let Some((_value, job)) = worked_off(rt, queue, seat) {
            sum = sum.wrapping_add(job);
        }
    }
    sum
}
