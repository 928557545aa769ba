//! Makes visits and edits of a bus list, for `bench/lists.sh`, and prints a number made of the feeds that
//! came.
//!
//! - `list_bench visits BUSES ROUNDS` makes that many visits of a list of 1 to 256 buses.
//! - `list_bench edits BUSES ROUNDS` attaches one bus more (so at most 255 before), and detaches it, so many times.
//! - `list_bench beside BUSES ROUNDS` makes visits while another thread does that, and prints ROUNDS.
//!
//! With no words it does a few rounds of the first two.
#![tactic(auto)]

ghost use Rattle.std.specs.Thread.{IsSync};

mod beside;
mod lists;
mod order;

use order::{Order, Work};
use std::alloc::Global;
use std::sync::Wait;
use std::thread::Threads;
use std::{env, io};

const USAGE: &str = "usage: list_bench [visits|edits|beside BUSES ROUNDS]";

fn main(rt: HostRuntime) -> io::Result<()> {
    let words: Vec<String> = env::args(&rt)?.skip(1).collect(rt.alloc())?;
    if words.is_empty() {
        return run_each(&rt, rt.alloc());
    }
    match Order::read(&words) {
        Some(order) => match order.run(&rt, rt.alloc()) {
            Ok(sum) => println!(rt; "{sum}"),
            Err(error) => println!(rt; "no sum: {error}"),
        },
        None => println!(rt; "{USAGE}"),
    }
}

/// A few rounds of visits and of edits.
fn run_each<R: Threads + Wait + Sync + Print>(rt: &R, alloc: Global) -> io::Result<()>
    requires { IsSync R.row }
{
    for (label, work, buses) in [
        ("visits of 1 bus", Work::Visits, 1),
        ("visits of 16 buses", Work::Visits, 16),
        ("visits of 256 buses", Work::Visits, 256),
        ("edits", Work::Edits, 16),
    ] {
        let order = Order {
            work,
            buses,
            rounds: 10,
        };
        match order.run(rt, alloc) {
            Ok(sum) => println!(rt; "{label}: {sum}")?,
            Err(error) => println!(rt; "{label}: no sum: {error}")?,
        }
    }
    Ok(())
}
