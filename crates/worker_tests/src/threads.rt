//! Several workers at the desks of one shelf.
ghost use Rattle.std.specs.Prelude.{All};
ghost use Rattle.resource_mgr.specs.Desks.{IsDeskOf};

use crate::sounds::{FORMATS, clips};
use crate::tapes::{is_whole, lengths};
use resource_mgr::{Desk, Library, MAX_WORKERS, Posted, Poster, Shelf, Tape};
use snd_io::{Event, FreeGate, Gate, HoldGate};
use std::alloc::Global;
use std::process::Abort;
use std::sync::Wait;
use std::test::*;
use std::thread;
use std::thread::Threads;

/// Posts all pages, and then a quit; runs jobs while there is no room.
fn post_all<R: Wait, G: Gate>(
    rt: &R,
    library: &Library,
    poster: &mut Poster,
    desk: &mut Desk,
    gate: &G,
)
    requires { IsDeskOf library.now desk.old }
    ensures { IsDeskOf library.now desk.new }
{
    for _ in rt.forever() {
        if library.post_some(rt, poster, desk) == Posted::All {
            break;
        }
        library.work_one(rt, desk, gate);
    }
    for _ in rt.forever() {
        if library.post_quit(rt, desk).is_ok() {
            break;
        }
        library.work_one(rt, desk, gate);
    }
}

/// Runs jobs until all pages of the tape are shown.
fn show<R: Wait, G: Gate>(rt: &R, library: &Library, desk: &mut Desk, tape: &mut Tape, gate: &G)
    requires { IsDeskOf library.now desk.old }
    ensures { IsDeskOf library.now desk.new }
{
    let pages = tape.pages();
    for _ in rt.forever() {
        if tape.ask_first(pages).is_ok() {
            break;
        }
        library.work_one(rt, desk, gate);
    }
}

/// Posts all pages and a quit at the last desk, has a worker at each other one decode, and then shows what is left.
fn decode<R: Threads + Wait + Sync, G: Gate + Sync>(
    rt: &R,
    library: &Library,
    poster: &mut Poster,
    mut desks: Vec<Desk>,
    tapes: &mut [Tape],
    gate: &G,
)
    requires { All (IsDeskOf library.now) desks.items }
{
    let Some(mut own) = desks.pop() else {
        return;
    };
    post_all(rt, library, poster, &mut own, gate);
    work_at_once(rt, library, desks, gate);
    for tape in tapes {
        show(rt, library, &mut own, tape, gate);
    }
}

/// Has a worker at each desk run jobs until it comes by a quit.
fn work_at_once<R: Threads + Wait + Sync, G: Gate + Sync>(
    rt: &R,
    library: &Library,
    desks: Vec<Desk>,
    gate: &G,
)
    requires { All (IsDeskOf library.now) desks.items }
{
    thread::scope(
        thread::scope_env(),
        rt,
        |scope| -> ()
            requires { All (IsDeskOf library.now) desks.items }
        {
            for desk in desks {
                if scope.spawn(move || work(rt, library, desk, gate)).is_err() {
                    break;
                }
            }
        },
    );
}

/// Runs jobs at a desk until it comes by a quit.
fn work<R: Wait, G: Gate>(rt: &R, library: &Library, mut desk: Desk, gate: &G)
    requires { IsDeskOf library.now desk }
{
    library.worker(rt, &mut desk, gate);
}

/// Decodes clips of so many frames with so many workers at a gate, and tells how many tapes are whole.
pub fn count_whole<R: Threads + Wait + Sync + Abort, G: Gate + Sync>(
    rt: &R,
    alloc: Global,
    formats: usize,
    frames: &[u32],
    workers: u32,
    gate: &G,
) -> Result<usize, Fail> {
    let wanted = clips(rt, alloc, formats, frames)?;
    let clips = clips(rt, alloc, formats, frames)?;
    assert!(rt; clips.len() <= 64 && workers <= 16);
    let Shelf {
        library,
        mut poster,
        desks,
        mut tapes,
    } = Library::open(alloc, clips, workers)?;
    decode(rt, &library, &mut poster, desks, tapes.as_mut_slice(), gate);
    assert_eq!(rt; tapes.len(), wanted.len());
    let mut count: usize = 0;
    for (tape, clip) in tapes.into_iter().zip(wanted) {
        if is_whole(rt, alloc, tape, clip)? {
            count = count.saturating_add(1);
        }
    }
    Ok(count)
}

#[test]
fn workers_at_desks_make_the_whole_tapes_of_all_clips(rt: HostRuntime) -> Result<(), Fail> {
    let lengths = lengths();
    for (count, workers) in [(0, 2), (1, 0), (5, 3), (64, MAX_WORKERS)] {
        let whole = count_whole(
            &rt,
            rt.alloc(),
            FORMATS,
            &lengths[..count],
            workers,
            &FreeGate,
        )?;
        assert_eq!(rt; whole, count);
    }
    Ok(())
}

#[test]
fn a_page_that_comes_early_waits_again(rt: HostRuntime) -> Result<(), Fail> {
    let mut order = Vec::new(rt.alloc());
    for page in [1, 0] {
        order.push(Event::BeforeJob { resource: 0, page })?;
    }
    let gate = HoldGate::new(rt.alloc(), order, 10_000_000)?;
    assert_eq!(rt; count_whole(&rt, rt.alloc(), 1, &[16_384], 2, &gate)?, 1);
    assert!(rt; gate.kept());
    Ok(())
}

#[test]
fn the_gate_is_called_round_each_page_in_order(rt: HostRuntime) -> Result<(), Fail> {
    let mut order = Vec::new(rt.alloc());
    for (resource, page) in [(0, 0), (1, 0), (2, 0), (1, 1)] {
        order.push(Event::BeforeJob { resource, page })?;
        order.push(Event::AfterJob { resource, page })?;
    }
    let gate = HoldGate::new(rt.alloc(), order, 0)?;
    let whole = count_whole(&rt, rt.alloc(), 1, &[300, 8_193, 100], 0, &gate)?;
    assert_eq!(rt; whole, 3);
    assert!(rt; gate.kept());
    Ok(())
}
