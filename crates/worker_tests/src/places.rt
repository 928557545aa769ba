//! More pages than a library has places for jobs, which are 1024.

use crate::shelves::{opened, run_in_order};
use job_queue::Place;
use resource_mgr::{Posted, Worked};
use snd_io::FreeGate;
use std::test::*;

/// The frames of a clip of 275 pages.
const FRAMES: u32 = 2_252_800;

#[test]
fn pages_without_a_place_are_posted_later(rt: HostRuntime) -> Result<(), Fail> {
    let (library, mut poster, mut desk, _tapes) = opened(&rt, rt.alloc(), &[FRAMES; 4])?;
    let no_slot = Posted::Some {
        place: Place::Slots,
    };
    assert_eq!(rt; library.post_some(&rt, &mut poster, &mut desk), no_slot);
    assert_eq!(rt; library.post_some(&rt, &mut poster, &mut desk), no_slot);
    assert_eq!(rt; library.post_quit(&rt, &mut desk), Err(Place::Slots));
    assert!(rt; run_in_order(&rt, &library, &mut desk, 0, 50, 4));
    assert_eq!(rt; library.post_some(&rt, &mut poster, &mut desk), no_slot);
    assert!(rt; run_in_order(&rt, &library, &mut desk, 50, 1_000, 4));
    assert_eq!(rt; library.post_some(&rt, &mut poster, &mut desk), Posted::All);
    assert!(rt; run_in_order(&rt, &library, &mut desk, 1_000, 1_100, 4));
    assert_eq!(rt; library.work_one(&rt, &mut desk, &FreeGate), Worked::Empty);
    Ok(())
}
