//! Decoding by workers that a gate holds: 2 pages of 8192 frames are a resource of 16384 frames.

use crate::threads::count_whole;
use plain_data::OutOfMemory;
use snd_io::{Event, HoldGate};
use std::alloc::Global;
use std::process::Abort;
use std::sync::Wait;
use std::test::*;
use std::thread::Threads;

/// As many turns as no test uses up where its events can come in their order.
const AMPLE_TURNS: u32 = 10_000_000;

/// A gate at which the first page of resource 0 waits for the second one of resource `last`.
fn gate_after(alloc: Global, last: u32, turns: u32) -> Result<HoldGate, OutOfMemory> {
    let mut order = Vec::new(alloc);
    order.push(Event::AfterJob {
        resource: last,
        page: 1,
    })?;
    order.push(Event::BeforeJob {
        resource: 0,
        page: 0,
    })?;
    HoldGate::new(alloc, order, turns)
}

/// Decodes clips of so many frames at a gate, and tells whether its order was kept.
fn keeps<R: Threads + Wait + Sync + Abort>(
    rt: &R,
    alloc: Global,
    frames: &[u32],
    workers: u32,
    gate: &HoldGate,
) -> Result<bool, Fail> {
    assert_eq!(rt;
        count_whole(rt, alloc, 1, frames, workers, gate)?,
        frames.len()
    );
    Ok(gate.kept())
}

#[test]
fn the_later_of_two_resources_may_be_decoded_first(rt: HostRuntime) -> Result<(), Fail> {
    let gate = gate_after(rt.alloc(), 1, AMPLE_TURNS)?;
    assert!(rt; keeps(&rt, rt.alloc(), &[16_384; 2], 2, &gate)?);
    Ok(())
}

#[test]
fn the_caller_alone_decodes_the_first_page_first(rt: HostRuntime) -> Result<(), Fail> {
    let gate = gate_after(rt.alloc(), 1, 1_000)?;
    assert!(rt; !keeps(&rt, rt.alloc(), &[16_384; 2], 0, &gate)?);
    Ok(())
}

#[test]
fn the_first_pages_of_all_resources_come_before_the_second_ones(
    rt: HostRuntime,
) -> Result<(), Fail> {
    let mut order = Vec::new(rt.alloc());
    for (resource, page) in [(0, 0), (1, 0), (2, 0), (3, 0), (4, 0), (3, 1)] {
        order.push(Event::BeforeJob { resource, page })?;
        order.push(Event::AfterJob { resource, page })?;
    }
    let gate = HoldGate::new(rt.alloc(), order, 0)?;
    assert!(rt; keeps(&rt, rt.alloc(), &[300, 100, 300, 8_193, 200], 0, &gate)?);
    Ok(())
}
