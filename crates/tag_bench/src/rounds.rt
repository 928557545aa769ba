//! Rounds of a take, a lift and a give.
ghost use Rattle.std.specs.Prelude.{◌≡◌};
ghost use Rattle.slot_tags.specs.Tags.{IsSeatOf};

use plain_data::OutOfMemory;
use slot_tags::{SlotSeat, SlotTable};
use std::alloc::Global;
use std::thread::{Threads, join};

/// The takes of all rounds, so many thousand of each thread, on a table of one group.
pub fn takes<R: Threads + Sync>(
    rt: &R,
    alloc: Global,
    by_two: bool,
    thousands: u32,
) -> Result<u64, OutOfMemory> {
    let (table, mut seats) = SlotTable::<u64>::new(alloc, 1, 4_294_967_295, 2)?;
    let Some(second) = seats.pop() else {
        unreachable!()
    };
    let Some(first) = seats.pop() else {
        unreachable!()
    };
    Ok(if by_two {
        both(rt, &table, first, second, thousands)
    } else {
        turns(&table, first, thousands)
    })
}

/// The takes of two threads.
fn both<R: Threads + Sync>(
    rt: &R,
    table: &SlotTable<u64>,
    first: SlotSeat<u64>,
    second: SlotSeat<u64>,
    thousands: u32,
) -> u64
    requires { IsSeatOf table.now first × IsSeatOf table.now second }
{
    let (one, two) = join(
        rt,
        || -> u64
            requires { IsSeatOf table.now first }
        { turns(table, first, thousands) },
        || -> u64
            requires { IsSeatOf table.now second }
        { turns(table, second, thousands) },
    );
    one.wrapping_add(two)
}

/// The takes of one thread whose job came back at its lift.
fn turns(table: &SlotTable<u64>, mut seat: SlotSeat<u64>, thousands: u32) -> u64
    requires { IsSeatOf table.now seat }
{
    let mut takes: u64 = 0;
    for job in 0..1000 * u64::from(thousands) {
        if let Ok(mut tag) = table.take(&mut seat, job) {
            let lifted = table.lift(&mut seat, &mut tag);
            table.give(&mut seat, tag);
            takes = takes.wrapping_add(u64::from(lifted == job));
        }
    }
    takes
}
