//! Takes slots of one table and gives them back, or posts jobs to one queue and takes them, in one thread or in two, for
//! `bench/tags.sh` and `bench/jobs.sh`, and prints the number of takes.
//!
//! `tag_bench [jobs] THREADS THOUSANDS` runs one thread or two, each with so many thousand rounds of a take, a lift and a
//! give, or with `jobs` of a post, a taking and an end. With no words it runs a thousand rounds of each.
#![tactic(auto)]

mod job_rounds;
mod order;
mod rounds;

use order::{Order, Work};
use std::alloc::Global;
use std::sync::Wait;
use std::thread::Threads;
use std::{env, io};

const USAGE: &str = "usage: tag_bench [[jobs] 1|2 THOUSANDS]";

fn main(rt: HostRuntime) -> io::Result<()> {
    let words: Vec<String> = env::args(&rt)?.skip(1).collect(rt.alloc())?;
    if words.is_empty() {
        return tell_all(&rt, rt.alloc());
    }
    match Order::read(&words) {
        Some(order) => tell(&rt, rt.alloc(), order),
        None => println!(rt; "{USAGE}"),
    }
}

/// Runs a thousand rounds of each order, and prints their takes.
fn tell_all<R: Threads + Wait + Sync + Print>(rt: &R, alloc: Global) -> io::Result<()> {
    for work in [Work::Slots, Work::Jobs] {
        for by_two in [false, true] {
            tell(
                rt,
                alloc,
                Order {
                    work,
                    by_two,
                    thousands: 1,
                },
            )?;
        }
    }
    Ok(())
}

/// Runs the order, and prints its takes.
fn tell<R: Threads + Wait + Sync + Print>(rt: &R, alloc: Global, order: Order) -> io::Result<()> {
    let takes = match order.work {
        Work::Slots => rounds::takes(rt, alloc, order.by_two, order.thousands),
        Work::Jobs => job_rounds::takes(rt, alloc, order.by_two, order.thousands),
    };
    match takes {
        Ok(takes) => println!(rt; "{takes}"),
        Err(error) => println!(rt; "no takes: {error}"),
    }
}
