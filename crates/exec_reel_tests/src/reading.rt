//! The pages that a reader is given, and those that it isn't given yet.
ghost use Rattle.std.specs.Prelude.{◌≡◌, ◌<◌};
ghost use Rattle.exec_reel.specs.ClipPages.{page_total};
ghost use Rattle.exec_reel.specs.Reels.{clip_of_reader};

use crate::clips::pcm_clip;
use crate::tickets::{numbers, opened, run_one};
use clip_decode::pages;
use exec_reel::{NotYet, Reader, Reel};
use std::alloc::Global;
use std::process::Abort;
use std::test::Fail;

/// The number of samples of a page, and its first one.
fn told(reader: &mut Reader, k: u32) -> Result<(usize, Option<i32>), NotYet>
    requires { k < page_total (clip_of_reader reader.old) }
    ensures { clip_of_reader reader.new ≡ clip_of_reader reader.old }
{
    match reader.page(k) {
        Ok(page) => Ok((page.samples().len(), page.samples().first().copied())),
        Err(early) => Err(early),
    }
}

#[test]
fn tickets_are_drawn_in_order_until_none_is_left(rt: HostRuntime) -> Result<(), Fail> {
    let clip = pcm_clip(rt.alloc(), 20_000)?;
    let (tickets, _reader) = opened(&rt, rt.alloc(), clip, 3)?;
    let numbers = numbers(rt.alloc(), &tickets)?;
    assert_eq!(rt; numbers.as_slice(), [0, 1, 2].as_slice());
    Ok(())
}

#[test]
fn pages_are_shown_in_the_order_of_their_numbers(rt: HostRuntime) -> Result<(), Fail> {
    let clip = pcm_clip(rt.alloc(), 20_000)?;
    let (mut tickets, mut reader) = opened(&rt, rt.alloc(), clip, 3)?;
    assert_eq!(rt; run_one(&mut tickets, 2)?, Some(0));
    assert_eq!(rt; run_one(&mut tickets, 0)?, None);
    assert_eq!(rt; told(&mut reader, 0), Ok((8_192, Some(0))));
    assert_eq!(rt; told(&mut reader, 1), Err(NotYet { shown: 1 }));
    assert_eq!(rt; run_one(&mut tickets, 1)?, None);
    assert_eq!(rt; run_one(&mut tickets, 2)?, None);
    assert_eq!(rt; told(&mut reader, 2), Ok((3_616, Some(84 * 65_536))));
    Ok(())
}

#[test]
fn a_page_is_given_again(rt: HostRuntime) -> Result<(), Fail> {
    let clip = pcm_clip(rt.alloc(), 20_000)?;
    let (mut tickets, mut reader) = opened(&rt, rt.alloc(), clip, 3)?;
    assert_eq!(rt; run_one(&mut tickets, 0)?, None);
    assert_eq!(rt; run_one(&mut tickets, 1)?, None);
    assert_eq!(rt; told(&mut reader, 1), Ok((8_192, Some(92 * 65_536))));
    assert_eq!(rt; told(&mut reader, 0), Ok((8_192, Some(0))));
    assert_eq!(rt; told(&mut reader, 1), Ok((8_192, Some(92 * 65_536))));
    Ok(())
}

#[test]
fn a_whole_reel_shows_all_pages_at_once(rt: HostRuntime) -> Result<(), Fail> {
    let clip = pcm_clip(rt.alloc(), 20_000)?;
    assert!(rt; clip.bytes().len() <= 67_108_864);
    assert!(rt; pages(clip.wave()) == 3);
    let mut reader = Reel::whole(rt.alloc(), clip)?;
    assert_eq!(rt; told(&mut reader, 2), Ok((3_616, Some(84 * 65_536))));
    assert_eq!(rt; told(&mut reader, 0), Ok((8_192, Some(0))));
    Ok(())
}

#[test]
fn a_clip_without_frames_has_no_ticket(rt: HostRuntime) -> Result<(), Fail> {
    let clip = pcm_clip(rt.alloc(), 0)?;
    let (tickets, _reader) = opened(&rt, rt.alloc(), clip, 0)?;
    assert!(rt; tickets.is_empty());
    Ok(())
}

/// Runs the only ticket of a clip of so many frames, and gives its page before and after.
fn only_page(
    rt: &impl Abort,
    alloc: Global,
    frames: u32,
) -> Result<(Option<NotYet>, Option<(usize, Option<i32>)>), Fail> {
    let (mut tickets, mut reader) = opened(rt, alloc, pcm_clip(alloc, frames)?, 1)?;
    let before = told(&mut reader, 0).err();
    assert_eq!(rt; tickets.len(), 1);
    assert_eq!(rt; run_one(&mut tickets, 0)?, None);
    Ok((before, told(&mut reader, 0).ok()))
}

#[test]
fn a_clip_of_8192_frames_has_one_page(rt: HostRuntime) -> Result<(), Fail> {
    let (before, after) = only_page(&rt, rt.alloc(), 8_192)?;
    assert_eq!(rt; before, Some(NotYet { shown: 0 }));
    assert_eq!(rt; after, Some((8_192, Some(0))));
    Ok(())
}

#[test]
fn the_frame_after_8192_is_a_page_of_its_own(rt: HostRuntime) -> Result<(), Fail> {
    let clip = pcm_clip(rt.alloc(), 8_193)?;
    let (mut tickets, mut reader) = opened(&rt, rt.alloc(), clip, 2)?;
    assert_eq!(rt; run_one(&mut tickets, 0)?, None);
    assert_eq!(rt; told(&mut reader, 1), Err(NotYet { shown: 1 }));
    assert_eq!(rt; run_one(&mut tickets, 1)?, None);
    assert_eq!(rt; told(&mut reader, 1), Ok((1, Some(92 * 65_536))));
    Ok(())
}
