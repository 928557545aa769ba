//! Threads that share a table.
ghost use Rattle.std.specs.Prelude.{◌≡◌, ◌+◌, ◌≤◌, All, vec_len, IfOk};
ghost use Rattle.std.specs.Thread.{IsSync};
ghost use Rattle.slot_tags.specs.Tags.{IsSeatOf};

use crate::tables::{through, turn};
use plain_data::OutOfMemory;
use slot_tags::{SlotSeat, SlotTable, SlotTag};
use std::alloc::Global;
use std::sync::Arc;
use std::test::*;
use std::thread::{Threads, join};

/// Rounds of one thread where no take may be refused.
const ROUNDS: u64 = 10_000;

/// The last number of the table of which one slot is left, and the attempts of each of its threads.
const LAST: u32 = 2_000;

/// What a seat got: whether each value was new to it, and the number of its takes.
#[derive(Drop)]
struct Takes {
    are_new: bool,
    count: u64,
}

// Takes, lifts and gives back, `rounds` times. A value is new to its seat where its number is above all that
// the seat got before of its slot.
fn take_often(
    table: &SlotTable<u64>,
    mut seat: SlotSeat<u64>,
    rounds: u64,
) -> (SlotSeat<u64>, Takes)
    requires { IsSeatOf table.now seat }
    ensures { IsSeatOf table.now result.0 }
{
    let mut numbers = [0u64; 32];
    let mut takes = Takes {
        are_new: true,
        count: 0,
    };
    for round in 0..rounds {
        if let Some(value) = turn(table, &mut seat, round) {
            let slot = (value % 32) as usize;
            let is_new = value % 4_294_967_296 < 32 && numbers[slot] < value >> 32;
            numbers[slot] = value >> 32;
            takes.are_new = takes.are_new && is_new;
            takes.count = takes.count.wrapping_add(1);
        }
    }
    (seat, takes)
}

fn both_take<R: Threads + Sync>(
    rt: &R,
    table: &SlotTable<u64>,
    first: SlotSeat<u64>,
    second: SlotSeat<u64>,
    rounds: u64,
) -> (Takes, Takes)
    requires { IsSeatOf table.now first × IsSeatOf table.now second }
{
    let (one, two) = join(
        rt,
        || -> (SlotSeat<u64>, Takes)
            requires { IsSeatOf table.now first }
        { take_often(table, first, rounds) },
        || -> (SlotSeat<u64>, Takes)
            requires { IsSeatOf table.now second }
        { take_often(table, second, rounds) },
    );
    (one.1, two.1)
}

fn four_take<R: Threads + Sync>(
    rt: &R,
    table: &SlotTable<u64>,
    pairs: (
        (SlotSeat<u64>, SlotSeat<u64>),
        (SlotSeat<u64>, SlotSeat<u64>),
    ),
    rounds: u64,
) -> ((Takes, Takes), (Takes, Takes))
    requires first { IsSeatOf table.now pairs.0.0 × IsSeatOf table.now pairs.0.1 }
    requires second { IsSeatOf table.now pairs.1.0 × IsSeatOf table.now pairs.1.1 }
{
    let (one, two) = pairs;
    join(
        rt,
        || -> (Takes, Takes)
            requires { IsSync R.row × IsSeatOf table.now one.0 × IsSeatOf table.now one.1 }
        { both_take(rt, table, one.0, one.1, rounds) },
        || -> (Takes, Takes)
            requires { IsSync R.row × IsSeatOf table.now two.0 × IsSeatOf table.now two.1 }
        { both_take(rt, table, two.0, two.1, rounds) },
    )
}

/// A job that shares a table of other jobs.
#[derive(Drop)]
struct Work {
    table: Arc<SlotTable<u64>, Global>,
}

fn may_be_sent<T: Send>() {}

fn may_be_shared<T: Sync>() {}

// The parts of a table cross threads where its jobs do.
fn parts_cross_threads<J: Send>() {
    may_be_sent::<SlotTag>();
    may_be_sent::<SlotSeat<J>>();
    may_be_sent::<SlotTable<J>>();
    may_be_shared::<SlotTable<J>>();
}

// The last of these seats, which are the table's.
fn next_seat(table: &SlotTable<u64>, seats: &mut Vec<SlotSeat<u64>>) -> SlotSeat<u64>
    requires some { 1 ≤ vec_len seats.old }
    requires seats { All (IsSeatOf table.now) seats.old.items }
    ensures seat { IsSeatOf table.now result }
    ensures seats { All (IsSeatOf table.now) seats.new.items × (vec_len seats.new + 1 ≡ vec_len seats.old) }
{
    let Some(seat) = seats.pop() else {
        unreachable!()
    };
    seat
}

// A table of one group and five seats.
fn opened_for_threads(
    alloc: Global,
    last: u32,
) -> Result<(SlotTable<u64>, Vec<SlotSeat<u64>>), OutOfMemory>
    requires { 1 ≤ last }
    ensures { IfOk result (λ r. All (IsSeatOf r.0) r.1.items × (vec_len r.1 ≡ 5)) }
{
    SlotTable::new(alloc, 1, last, 5)
}

#[test]
fn no_value_comes_twice_to_a_seat(rt: HostRuntime) -> Result<(), Fail> {
    let (table, mut seats) = opened_for_threads(rt.alloc(), 4_294_967_295)?;
    let first = next_seat(&table, &mut seats);
    let second = next_seat(&table, &mut seats);
    let (one, two) = both_take(&rt, &table, first, second, ROUNDS);
    assert!(rt; one.are_new && two.are_new);
    assert_eq!(rt; one.count, ROUNDS);
    assert_eq!(rt; two.count, ROUNDS);
    Ok(())
}

#[test]
fn four_threads_share_one_slot(rt: HostRuntime) -> Result<(), Fail> {
    let (table, mut seats) = opened_for_threads(rt.alloc(), LAST)?;
    let (seat, used) = take_often(&table, next_seat(&table, &mut seats), 31 * u64::from(LAST));
    assert_eq!(rt; used.count, 31 * u64::from(LAST));
    let first = (next_seat(&table, &mut seats), next_seat(&table, &mut seats));
    let second = (next_seat(&table, &mut seats), next_seat(&table, &mut seats));
    let (one, two) = four_take(&rt, &table, (first, second), u64::from(LAST));
    assert!(rt; one.0.are_new && one.1.are_new && two.0.are_new && two.1.are_new);
    let (_seat, left) = take_often(&table, seat, u64::from(LAST));
    let shared = [
        one.0.count,
        one.1.count,
        two.0.count,
        two.1.count,
        left.count,
    ];
    let sum = shared
        .iter()
        .fold(0u64, |sum, count| sum.wrapping_add(*count));
    assert_eq!(rt; sum, u64::from(LAST));
    Ok(())
}

#[test]
fn jobs_may_share_a_table(rt: HostRuntime) -> Result<(), Fail> {
    parts_cross_threads::<u64>();
    parts_cross_threads::<Work>();
    let (inner, mut inner_seats) = opened_for_threads(rt.alloc(), 9)?;
    let mut inner_seat = next_seat(&inner, &mut inner_seats);
    let (table, mut seats) = SlotTable::<Work>::new(rt.alloc(), 1, 2, 1)?;
    let mut seat = seats.pop().ok_or("no seat")?;
    let work = Work {
        table: Arc::new(rt.alloc(), inner)?,
    };
    let work = through(&table, &mut seat, work);
    assert_eq!(rt; turn(&work.table, &mut inner_seat, 3), Some(4_294_967_296));
    Ok(())
}
