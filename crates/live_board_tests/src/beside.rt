//! Many changes on one thread beside many readings on another one.
ghost use Rattle.std.specs.Prelude.{◌≡◌, ℕ, ◌<◌, [], length, slice_index, true, false};
ghost use Rattle.std.specs.Thread.{IsSync};

use crate::opened::open_at_zero;
use live_board::{Board, BoardSeat, Window};
use std::alloc::Global;
use std::test::*;
use std::thread;
use std::thread::{Threads, join};

const DIALS: usize = 8;

const CHANGES: u64 = 20_000;

const READINGS: usize = 5_000;

/// What a reading found.
#[derive(Debug, Clone, Copy, PartialEq, Eq)]
struct Found {
    window: Window,
    words: [u64; 8],
}

/// The mixer's seat, with what its readings found.
#[derive(Drop)]
struct Readings {
    seat: BoardSeat,
    found: Vec<Found>,
}

/// Change k, from 0, sets dial k modulo 8 to k + 1.
fn change_many(board: &Board, seat: BoardSeat) -> BoardSeat
    requires table { seat.table_id ≡ board.now.table.shared.table_id }
    requires seat { (seat.me.0.locks ≡ true) × (seat.me.0.lock.stored ≡ false) × (seat.me.0.lock.history ≡ []) }
    requires dials { length board.now.table.shared.key.dials.items ≡ 8 }
    requires most { (i : ℕ) → i < 8 → slice_index board.now.table.shared.key.most.items i ≡ 20000 }
    ensures { (result.table_id ≡ seat.table_id) × (result.me.0.locks ≡ true) }
{
    let mut seat = seat;
    for k in 0..CHANGES {
        board.store_dial(&mut seat, k as usize % DIALS, k + 1);
        board.store_count(&mut seat, k + 1);
        thread::yield_now();
    }
    seat
}

/// Reads again and again.
fn read_many(alloc: Global, board: &Board, seat: BoardSeat) -> Readings
    requires seat { (seat.table_id ≡ board.now.table.shared.table_id) × (seat.me.0.mixes ≡ true) × (seat.me.1 ≡ []) }
    requires dials { length board.now.table.shared.key.dials.items ≡ 8 }
    ensures { (result.seat.table_id ≡ seat.table_id) × (result.seat.me.0.mixes ≡ true) × (result.seat.me.1 ≡ []) }
{
    let mut seat = seat;
    let mut found = Vec::new(alloc);
    for _ in 0..READINGS {
        let mut words = [0u64; 8];
        let window = board.read(&mut seat, &mut words);
        if found.push(Found { window, words }).is_err() {
            break;
        }
    }
    Readings { seat, found }
}

fn at_once<R: Threads + Sync>(
    rt: &R,
    alloc: Global,
    board: &Board,
    seat: BoardSeat,
    mixer: BoardSeat,
) -> (BoardSeat, Readings)
    requires table { (seat.table_id ≡ board.now.table.shared.table_id) × (mixer.table_id ≡ board.now.table.shared.table_id) }
    requires seat { (seat.me.0.locks ≡ true) × (seat.me.0.lock.stored ≡ false) × (seat.me.0.lock.history ≡ []) }
    requires mixer { (mixer.me.0.mixes ≡ true) × (mixer.me.1 ≡ []) }
    requires dials { length board.now.table.shared.key.dials.items ≡ 8 }
    requires most { (i : ℕ) → i < 8 → slice_index board.now.table.shared.key.most.items i ≡ 20000 }
    ensures { (result.0.table_id ≡ board.now.table.shared.table_id) × (result.0.me.0.locks ≡ true) × (result.1.seat.table_id ≡ board.now.table.shared.table_id) × (result.1.seat.me.0.mixes ≡ true) × (result.1.seat.me.1 ≡ []) }
{
    join(
        rt,
        || -> BoardSeat
            requires { (seat.table_id ≡ board.now.table.shared.table_id) × (seat.me.0.locks ≡ true) × (seat.me.0.lock.stored ≡ false) × (seat.me.0.lock.history ≡ []) × (length board.now.table.shared.key.dials.items ≡ 8) × ((i : ℕ) → i < 8 → slice_index board.now.table.shared.key.most.items i ≡ 20000) }
            ensures { (result.table_id ≡ seat.table_id) × (result.me.0.locks ≡ true) }
        { change_many(board, seat) },
        || -> Readings
            requires { (mixer.table_id ≡ board.now.table.shared.table_id) × (mixer.me.0.mixes ≡ true) × (mixer.me.1 ≡ []) × (length board.now.table.shared.key.dials.items ≡ 8) }
            ensures { (result.seat.table_id ≡ mixer.table_id) × (result.seat.me.0.mixes ≡ true) × (result.seat.me.1 ≡ []) }
        { read_many(alloc, board, mixer) },
    )
}

/// The word of a dial after so many changes.
fn word_after(dial: u64, changes: u64) -> u64 {
    if changes <= dial {
        0
    } else {
        changes - (changes - 1 - dial) % 8
    }
}

/// Whether each word stood there after some number of changes within the window.
fn is_lawful(found: &Found) -> bool {
    let Window { from, until } = found.window;
    if until < from || CHANGES < until {
        return false;
    }
    let last = if until < CHANGES { until + 1 } else { until };
    found.words.iter().enumerate().all(|(dial, word)| (from..=last).any(|changes| word_after(
        dial as u64,
        changes,
    ) == *word))
}

#[test]
fn each_reading_beside_changes_is_lawful(rt: HostRuntime) -> Result<(), Fail> {
    let alloc = rt.alloc();
    let (board, mut seat) = open_at_zero(alloc, DIALS, CHANGES, 0)?;
    let mixer = board.split_mixer(&mut seat);
    let (mut seat, Readings { seat: mixer, found }) = at_once(&rt, alloc, &board, seat, mixer);
    assert_eq!(rt; found.len(), READINGS);
    assert!(rt; found.iter().all(|found| is_lawful(found)));
    assert!(rt;
        found
            .iter()
            .zip(found.iter().skip(1))
            .all(|(a, b)| a.window.until <= b.window.from)
    );
    board.join_mixer(&mut seat, mixer);
    board.learn(&mut seat);
    Ok(())
}
