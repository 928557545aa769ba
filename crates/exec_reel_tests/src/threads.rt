//! Threads that run the tickets of one reel against each other.
ghost use Rattle.std.specs.Prelude.{◌≡◌, ◌≤◌, length, vec_len};
ghost use Rattle.std.specs.Thread.{IsSync};
ghost use Rattle.exec_reel.specs.ClipPages.{page_total};
ghost use Rattle.exec_reel.specs.Reels.{clip_of_reader};

use crate::clips::{ima_clip, pcm_clip, walked};
use crate::tickets::opened;
use clip_decode::Clip;
use exec_reel::{Ran, Reader, Reel, Ticket};
use std::alloc::Global;
use std::process::Abort;
use std::test::*;
use std::thread;
use std::thread::{Threads, join};

/// How often a ticket is run at most.
const RUNS: u32 = 10_000_000;

/// How often two threads run the tickets of a reel against each other.
const ROUNDS: u32 = 200;

/// Runs a ticket until its page is decoded, and tells whether it was.
fn run_until_done(first: Ticket) -> bool {
    let mut ticket = first;
    for _ in 0..RUNS {
        match Reel::run(ticket) {
            Ran::Done { ended: _ } => return true,
            Ran::Early {
                ticket: back,
                pointer: _,
            } => ticket = back,
        }
        thread::yield_now();
    }
    false
}

/// Runs tickets one after the other, each until its page is decoded.
fn run_all(tickets: Vec<Ticket>) -> bool {
    let mut all = true;
    for ticket in tickets {
        let done = run_until_done(ticket);
        all = all && done;
    }
    all
}

fn both_run<R: Threads + Sync>(rt: &R, first: Vec<Ticket>, second: Vec<Ticket>) -> (bool, bool) {
    join(
        rt,
        || -> bool { run_all(first) },
        || -> bool { run_all(second) },
    )
}

fn three_run<R: Threads + Sync>(rt: &R, parts: [Vec<Ticket>; 3]) -> (bool, (bool, bool)) {
    let [first, second, third] = parts;
    join(
        rt,
        || -> bool { run_all(first) },
        || -> (bool, bool)
            requires { IsSync R.row }
        { both_run(rt, second, third) },
    )
}

/// Deals tickets out to two, in turn.
fn dealt_to_two(alloc: Global, tickets: Vec<Ticket>) -> Result<[Vec<Ticket>; 2], Fail> {
    let (mut first, mut second) = (Vec::new(alloc), Vec::new(alloc));
    for ticket in tickets {
        match ticket.number() % 2 {
            0 => first.push(ticket)?,
            _ => second.push(ticket)?,
        }
    }
    Ok([first, second])
}

/// Deals tickets out to three, in turn.
fn dealt_to_three(alloc: Global, tickets: Vec<Ticket>) -> Result<[Vec<Ticket>; 3], Fail> {
    let (mut first, mut second, mut third) = (Vec::new(alloc), Vec::new(alloc), Vec::new(alloc));
    for ticket in tickets {
        match ticket.number() % 3 {
            0 => first.push(ticket)?,
            1 => second.push(ticket)?,
            _ => third.push(ticket)?,
        }
    }
    Ok([first, second, third])
}

/// Whether the reader is given these pages.
fn has_pages(reader: &mut Reader, want: &[Vec<i32>]) -> bool
    requires pages { length want.now ≤ page_total (clip_of_reader reader.old) }
    requires few { length want.now ≤ 16384 }
    ensures { clip_of_reader reader.new ≡ clip_of_reader reader.old }
{
    let mut all = true;
    for k in 0..want.len() {
        let same = match reader.page(k as u32) {
            Ok(page) => page.samples() == want[k].as_slice(),
            Err(_) => false,
        };
        all = all && same;
    }
    all
}

/// Whether two threads decode a clip so that its reader is given these pages.
fn two_decode<R: Threads + Abort + Sync>(
    rt: &R,
    alloc: Global,
    clip: &Clip,
    want: &[Vec<i32>],
) -> Result<bool, Fail> {
    assert!(rt; want.len() <= 16_384);
    let (tickets, mut reader) = opened(rt, alloc, clip.share()?, want.len() as u32)?;
    let [first, second] = dealt_to_two(alloc, tickets)?;
    let (one, two) = both_run(rt, first, second);
    Ok(one && two && has_pages(&mut reader, want))
}

/// Whether three threads do.
fn three_decode<R: Threads + Abort + Sync>(
    rt: &R,
    alloc: Global,
    clip: Clip,
    want: &[Vec<i32>],
) -> Result<bool, Fail> {
    assert!(rt; want.len() <= 16_384);
    let (tickets, mut reader) = opened(rt, alloc, clip, want.len() as u32)?;
    let (one, (two, three)) = three_run(rt, dealt_to_three(alloc, tickets)?);
    Ok(one && two && three && has_pages(&mut reader, want))
}

#[test]
fn two_threads_decode_all_pages(rt: HostRuntime) -> Result<(), Fail> {
    let clip = pcm_clip(rt.alloc(), 20_000)?;
    let want = walked(rt.alloc(), &clip)?;
    for _ in 0..ROUNDS {
        assert!(rt; two_decode(&rt, rt.alloc(), &clip, &want)?);
    }
    Ok(())
}

#[test]
fn three_threads_decode_pages_that_begin_inside_blocks(rt: HostRuntime) -> Result<(), Fail> {
    let clip = ima_clip(rt.alloc(), 50)?;
    let want = walked(rt.alloc(), &clip)?;
    assert_eq!(rt; want.len(), 4);
    assert!(rt; three_decode(&rt, rt.alloc(), clip, &want)?);
    Ok(())
}
