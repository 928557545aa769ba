//! Gates that several threads share.

use crate::events::{AMPLE_TURNS, holding};
use snd_io::{Event, Gate};
use std::alloc::{AllocError, Global};
use std::sync::atomic::{AtomicU32, Ordering};
use std::test::*;
use std::thread;
use std::thread::{Threads, join};

/// The threads of the largest test.
const COUNT: u32 = 4;

/// Enters a block, takes the next number, and leaves the block.
fn number_of<G: Gate>(gate: &G, block: u32, next: &AtomicU32) -> u32 {
    gate.before_block(block);
    let number = next.fetch_add(1, Ordering::SeqCst);
    gate.after_block(block);
    number
}

/// The numbers of the blocks 0 and 1, which two threads enter at once.
fn numbers_of_two<R: Threads + Sync, G: Gate + Sync>(rt: &R, gate: &G) -> (u32, u32) {
    let next = AtomicU32::new(0);
    join(
        rt,
        || number_of(gate, 0, &next),
        || number_of(gate, 1, &next),
    )
}

/// The numbers of the blocks 0 to 3, each of which a thread of its own enters.
fn numbers_of_four<R: Threads + Sync, G: Gate + Sync>(
    rt: &R,
    alloc: Global,
    gate: &G,
) -> Result<Vec<u32>, AllocError> {
    let next = AtomicU32::new(0);
    thread::map_indices(
        rt,
        alloc,
        COUNT as usize,
        &|block: usize| { number_of(gate, block as u32, &next) },
    )
}

#[test]
fn two_threads_pass_in_the_listed_order(rt: HostRuntime) -> Result<(), Fail> {
    let order = [Event::AfterBlock { n: 1 }, Event::BeforeBlock { n: 0 }];
    let gate = holding(rt.alloc(), &order, AMPLE_TURNS)?;
    assert_eq!(rt; numbers_of_two(&rt, &gate), (1, 0));
    assert!(rt; gate.kept());
    let order = [Event::AfterBlock { n: 0 }, Event::BeforeBlock { n: 1 }];
    let gate = holding(rt.alloc(), &order, AMPLE_TURNS)?;
    assert_eq!(rt; numbers_of_two(&rt, &gate), (0, 1));
    assert!(rt; gate.kept());
    Ok(())
}

#[test]
fn four_threads_pass_in_the_listed_order(rt: HostRuntime) -> Result<(), Fail> {
    let order = [
        Event::AfterBlock { n: 2 },
        Event::BeforeBlock { n: 0 },
        Event::AfterBlock { n: 0 },
        Event::BeforeBlock { n: 3 },
        Event::AfterBlock { n: 3 },
        Event::BeforeBlock { n: 1 },
    ];
    let gate = holding(rt.alloc(), &order, AMPLE_TURNS)?;
    let numbers = numbers_of_four(&rt, rt.alloc(), &gate)?;
    assert_eq!(rt; numbers.as_slice(), [1u32, 3, 0, 2].as_slice());
    assert!(rt; gate.kept());
    Ok(())
}

#[test]
fn an_event_that_two_threads_pass_at_once_is_kept(rt: HostRuntime) -> Result<(), Fail> {
    let order = [
        Event::BeforeBlock { n: 0 },
        Event::AfterBlock { n: 0 },
        Event::BeforeBlock { n: 1 },
        Event::AfterBlock { n: 1 },
    ];
    for _ in 0..1000 {
        let gate = holding(rt.alloc(), &order, AMPLE_TURNS)?;
        let both_blocks = || {
            gate.before_block(0);
            gate.after_block(0);
            gate.before_block(1);
            gate.after_block(1);
        };
        let _ = join(&rt, &both_blocks, &both_blocks);
        assert!(rt; gate.kept());
    }
    Ok(())
}
