//! The tapes that workers make, beside those that are made one after the other.
use clip_decode::Clip;
use resource_mgr::Tape;
use std::alloc::Global;
use std::process::Abort;
use std::test::*;

/// The frames of 64 sounds, of 1 to 4 pages.
pub fn lengths() -> [u32; 64] {
    let mut lengths = [0; 64];
    for (number, length) in lengths.iter_mut().enumerate() {
        *length = (number * 1_237 % 28_000) as u32 + 1;
    }
    lengths
}

/// Whether the tape shows the pages of the clip, all of them.
pub fn is_whole(rt: &impl Abort, alloc: Global, mut tape: Tape, clip: Clip) -> Result<bool, Fail> {
    assert!(rt; clip.bytes().len() <= 67_108_864);
    let mut wanted = Tape::whole(alloc, clip)?;
    if tape.pages() != wanted.pages() {
        return Ok(false);
    }
    for k in 0..wanted.pages() {
        assert!(rt; k < tape.pages() && k < wanted.pages());
        let (Ok(page), Ok(alike)) = (tape.page(k), wanted.page(k)) else {
            return Ok(false);
        };
        if page.samples() != alike.samples() {
            return Ok(false);
        }
    }
    Ok(true)
}
