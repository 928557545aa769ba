//! Rounds of a post, a taking and an end.
ghost use Rattle.std.specs.Prelude.{◌≡◌};
ghost use Rattle.job_queue.specs.Queues.{IsJobSeatOf};

use job_queue::{JobQueue, JobSeat};
use plain_data::OutOfMemory;
use std::alloc::Global;
use std::sync::Wait;
use std::thread::{Threads, join};

/// The takes of all rounds, so many thousand of each thread, on a queue of one group.
pub fn takes<R: Threads + Wait + Sync>(
    rt: &R,
    alloc: Global,
    by_two: bool,
    thousands: u32,
) -> Result<u64, OutOfMemory> {
    let (queue, mut seats) = JobQueue::<u64>::new(alloc, 1, 4_294_967_295, 2)?;
    let Some(second) = seats.pop() else {
        unreachable!()
    };
    let Some(first) = seats.pop() else {
        unreachable!()
    };
    Ok(if by_two {
        both(rt, &queue, first, second, thousands)
    } else {
        turns(rt, &queue, first, thousands)
    })
}

/// The takes of two threads.
fn both<R: Threads + Wait + Sync>(
    rt: &R,
    queue: &JobQueue<u64>,
    first: JobSeat<u64>,
    second: JobSeat<u64>,
    thousands: u32,
) -> u64
    requires { IsJobSeatOf queue.now first × IsJobSeatOf queue.now second }
{
    let (one, two) = join(
        rt,
        || -> u64
            requires { IsJobSeatOf queue.now first }
        { turns(rt, queue, first, thousands) },
        || -> u64
            requires { IsJobSeatOf queue.now second }
        { turns(rt, queue, second, thousands) },
    );
    one.wrapping_add(two)
}

/// The takes of one thread, each behind a post of its own.
fn turns<R: Wait>(rt: &R, queue: &JobQueue<u64>, mut seat: JobSeat<u64>, thousands: u32) -> u64
    requires { IsJobSeatOf queue.now seat }
{
    let mut takes: u64 = 0;
    for job in 0..1000 * u64::from(thousands) {
        if queue.post(rt, &mut seat, job).is_ok()
            && let Some((tag, _)) = queue.next(rt, &mut seat)
        {
            queue.done(&mut seat, tag);
            takes = takes.wrapping_add(1);
        }
    }
    takes
}
