//! Shelves of mono clips without workers: the pages of their clips, decoded at one desk.
ghost use Rattle.std.specs.Prelude.{◌≤◌, IfOk};
ghost use Rattle.resource_mgr.specs.Desks.{IsDeskOf};

use crate::sounds::clips;
use resource_mgr::{Desk, Library, Posted, Poster, Shelf, Tape, Worked};
use snd_io::FreeGate;
use std::alloc::Global;
use std::process::Abort;
use std::sync::Wait;
use std::test::*;

/// A shelf of clips of so many frames: its library, its poster, its only desk and its tapes.
pub fn opened(
    rt: &impl Abort,
    alloc: Global,
    frames: &[u32],
) -> Result<(Library, Poster, Desk, Vec<Tape>), Fail>
    ensures { IfOk result (λ r. IsDeskOf r.0 r.2) }
{
    let clips = clips(rt, alloc, 1, frames)?;
    assert!(rt; clips.len() <= 64);
    let Shelf {
        library,
        poster,
        mut desks,
        tapes,
    } = Library::open(alloc, clips, 0)?;
    let desk = desks.pop().ok_or("a desk")?;
    Ok((library, poster, desk, tapes))
}

/// Runs the jobs that are `from` to `until` in the order of their pages, where so many clips have one length. Tells
/// whether each of them ran.
pub fn run_in_order<R: Wait>(
    rt: &R,
    library: &Library,
    desk: &mut Desk,
    from: u32,
    until: u32,
    clips: u32,
) -> bool
    requires { IsDeskOf library.now desk.old }
    ensures { IsDeskOf library.now desk.new }
{
    let clips = clips.max(1);
    let mut ran = true;
    for number in from..until {
        let (resource, page) = (number % clips, number / clips);
        ran = ran && library.work_one(rt, desk, &FreeGate) == Worked::Ran { resource, page };
    }
    ran
}

#[test]
fn the_pages_of_a_clip_are_decoded_in_order(rt: HostRuntime) -> Result<(), Fail> {
    let (library, mut poster, mut desk, mut tapes) = opened(&rt, rt.alloc(), &[20_000])?;
    let mut tape = tapes.pop().ok_or("a tape")?;
    assert_eq!(rt; library.post_some(&rt, &mut poster, &mut desk), Posted::All);
    assert!(rt; run_in_order(&rt, &library, &mut desk, 0, 3, 1));
    assert_eq!(rt; library.work_one(&rt, &mut desk, &FreeGate), Worked::Empty);
    assert_eq!(rt; tape.pages(), 3);
    let page = tape.page(2).ok().ok_or("a page")?;
    assert_eq!(rt; page.samples().len(), 3616);
    Ok(())
}

#[test]
fn a_quit_goes_back_each_time(rt: HostRuntime) -> Result<(), Fail> {
    let (library, mut poster, mut desk, _tapes) = opened(&rt, rt.alloc(), &[20_000])?;
    assert_eq!(rt; library.post_quit(&rt, &mut desk), Ok(()));
    assert_eq!(rt; library.work_one(&rt, &mut desk, &FreeGate), Worked::Quit);
    assert_eq!(rt; library.work_one(&rt, &mut desk, &FreeGate), Worked::Quit);
    library.worker(&rt, &mut desk, &FreeGate);
    assert_eq!(rt; library.post_some(&rt, &mut poster, &mut desk), Posted::All);
    assert_eq!(rt; library.work_one(&rt, &mut desk, &FreeGate), Worked::Quit);
    assert!(rt; run_in_order(&rt, &library, &mut desk, 0, 3, 1));
    Ok(())
}

#[test]
fn a_shelf_without_clips_has_no_page(rt: HostRuntime) -> Result<(), Fail> {
    let (library, mut poster, mut desk, tapes) = opened(&rt, rt.alloc(), &[])?;
    assert_eq!(rt; tapes.len(), 0);
    assert_eq!(rt; library.post_some(&rt, &mut poster, &mut desk), Posted::All);
    assert_eq!(rt; library.work_one(&rt, &mut desk, &FreeGate), Worked::Empty);
    Ok(())
}
