//! Threads that post jobs to one queue and take them from it, against each other.
ghost use Rattle.std.specs.Prelude.{◌≡◌, ◌+◌, ◌≤◌, All, vec_len, IfOk};
ghost use Rattle.std.specs.Thread.{IsSync};
ghost use Rattle.job_queue.specs.Queues.{IsJobSeatOf};

use crate::queues::{refused, worked_off};
use job_queue::{JobQueue, JobSeat, NoRoom};
use plain_data::OutOfMemory;
use std::alloc::Global;
use std::sync::Wait;
use std::test::*;
use std::thread::{Threads, join};

/// Rounds of one thread. In each it posts a job, and in two of three it takes one.
const ROUNDS: u64 = 20_000;

/// What a thread did: how many jobs it posted, how many it took and what they come to, and whether those of
/// each poster came to it in their order. A job is twice its number, plus 0 or 1 for its poster.
#[derive(Drop)]
struct Work {
    posts: u64,
    takes: u64,
    sum: u64,
    next: [u64; 2],
    in_order: bool,
}

impl Work {
    fn none() -> Work {
        Work {
            posts: 0,
            takes: 0,
            sum: 0,
            next: [0; 2],
            in_order: true,
        }
    }

    fn take(&mut self, job: u64) {
        let poster = (job % 2) as usize;
        self.in_order = self.in_order && self.next[poster] <= job;
        self.next[poster] = job.wrapping_add(1);
        self.takes = self.takes.wrapping_add(1);
        self.sum = self.sum.wrapping_add(job);
    }
}

fn post_and_take<R: Wait>(
    rt: &R,
    queue: &JobQueue<u64>,
    mut seat: JobSeat<u64>,
    poster: u64,
) -> Work
    requires { IsJobSeatOf queue.now seat }
{
    let mut work = Work::none();
    for round in 0..ROUNDS {
        let job = work.posts.wrapping_mul(2).wrapping_add(poster);
        if refused(rt, queue, &mut seat, job).is_none() {
            work.posts = work.posts.wrapping_add(1);
        }
        if round % 3 != 0 {
            if let Some((_value, job)) = worked_off(rt, queue, &mut seat) {
                work.take(job);
            }
        }
    }
    work
}

fn both_post_and_take<R: Threads + Wait + Sync>(
    rt: &R,
    queue: &JobQueue<u64>,
    first: JobSeat<u64>,
    second: JobSeat<u64>,
) -> (Work, Work)
    requires { IsJobSeatOf queue.now first × IsJobSeatOf queue.now second }
{
    join(
        rt,
        || -> Work
            requires { IsSync R.row × IsJobSeatOf queue.now first }
        { post_and_take(rt, queue, first, 0) },
        || -> Work
            requires { IsSync R.row × IsJobSeatOf queue.now second }
        { post_and_take(rt, queue, second, 1) },
    )
}

/// Takes the jobs that are left.
fn take_the_rest<R: Wait>(rt: &R, queue: &JobQueue<u64>, mut seat: JobSeat<u64>) -> Work
    requires { IsJobSeatOf queue.now seat }
{
    let mut work = Work::none();
    for _ in 0..64 {
        if let Some((_value, job)) = worked_off(rt, queue, &mut seat) {
            work.take(job);
        }
    }
    work
}

/// The last of these seats, which are the queue's.
fn next_seat(queue: &JobQueue<u64>, seats: &mut Vec<JobSeat<u64>>) -> JobSeat<u64>
    requires some { 1 ≤ vec_len seats.old }
    requires seats { All (IsJobSeatOf queue.now) seats.old.items }
    ensures seat { IsJobSeatOf queue.now result }
    ensures seats { All (IsJobSeatOf queue.now) seats.new.items × (vec_len seats.new + 1 ≡ vec_len seats.old) }
{
    let Some(seat) = seats.pop() else {
        unreachable!()
    };
    seat
}

/// A queue of one group, and three seats.
fn opened_for_threads(alloc: Global) -> Result<(JobQueue<u64>, Vec<JobSeat<u64>>), OutOfMemory>
    ensures { IfOk result (λ r. All (IsJobSeatOf r.0) r.1.items × (vec_len r.1 ≡ 3)) }
{
    JobQueue::new(alloc, 1, 4_294_967_295, 3)
}

/// The sum of the jobs that a thread posted: twice the numbers below `posts`, and `posts` times `poster`.
fn sum_of_posts(posts: u64, poster: u64) -> u64 {
    posts.wrapping_mul(posts.wrapping_add(poster).wrapping_sub(1))
}

fn may_be_sent<T: Send>() {}

fn may_be_shared<T: Sync>() {}

// The parts of a queue cross threads where its jobs do.
fn parts_cross_threads<J: Send>() {
    may_be_sent::<NoRoom<J>>();
    may_be_sent::<JobSeat<J>>();
    may_be_sent::<JobQueue<J>>();
    may_be_shared::<JobQueue<J>>();
}

#[test]
fn each_job_of_two_threads_is_taken_once(rt: HostRuntime) -> Result<(), Fail> {
    parts_cross_threads::<u64>();
    let (queue, mut seats) = opened_for_threads(rt.alloc())?;
    let first = next_seat(&queue, &mut seats);
    let second = next_seat(&queue, &mut seats);
    let (one, two) = both_post_and_take(&rt, &queue, first, second);
    let rest = take_the_rest(&rt, &queue, next_seat(&queue, &mut seats));
    assert!(rt; one.in_order && two.in_order && rest.in_order);
    let posts = one.posts.wrapping_add(two.posts);
    let takes = one.takes.wrapping_add(two.takes).wrapping_add(rest.takes);
    assert_eq!(rt; takes, posts);
    let posted = sum_of_posts(one.posts, 0).wrapping_add(sum_of_posts(two.posts, 1));
    let taken = one.sum.wrapping_add(two.sum).wrapping_add(rest.sum);
    assert_eq!(rt; taken, posted);
    assert!(rt; ROUNDS < posts);
    Ok(())
}
