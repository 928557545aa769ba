//! Streams that are heard from their first page to their last one, on one thread.

use crate::clips::{Format, IMA, PCM_16, clip, walked};
use crate::player::{Heard, digest_of, hear, opened};
use clip_decode::Clip;
use std::alloc::Global;
use std::process::Abort;
use std::test::Fail;
use stream_reel::{Ends, NotLoaded, Stream};

/// How often a page is asked for at most.
const CALLS: u32 = 64;

/// All pages that are heard, where the filler has a turn whenever none is loaded.
fn heard_whole(rt: &impl Abort, alloc: Global, clip: Clip) -> Result<Vec<Heard>, Fail> {
    let (ends, pages) = opened(rt, alloc, clip)?;
    let Ends {
        mut filler,
        mut listener,
    } = ends;
    let mut heard = Vec::new(alloc);
    for _ in 0..CALLS {
        match hear(&mut listener, pages) {
            Ok(page) => heard.push(page)?,
            Err(NotLoaded) => {
                filler.turn();
            }
        }
    }
    let listener = Stream::close(filler, listener);
    assert_eq!(rt; (listener.round(), listener.place()), (0, pages));
    Ok(heard)
}

/// Compares what is heard of a clip with the pages that are filled one after the other.
fn compare(rt: &impl Abort, alloc: Global, format: &Format, frames: u16) -> Result<(), Fail> {
    let clip = clip(alloc, format, frames)?;
    let mut want = Vec::new(alloc);
    for (number, page) in walked(alloc, &clip)?.iter().enumerate() {
        want.push(Heard {
            round: 0,
            number: u32::try_from(number).unwrap_or(u32::MAX),
            digest: digest_of(page),
        })?;
    }
    let heard = heard_whole(rt, alloc, clip)?;
    assert_eq!(rt; heard, want, "{format:?}, {frames} frames or blocks");
    Ok(())
}

/// Linear PCM of two channels in containers of so many bytes.
fn stereo_pcm(bytes: u8) -> Format {
    Format {
        tag: 1,
        channels: 2,
        align: 2 * u16::from(bytes),
        bits: 8 * u16::from(bytes),
    }
}

/// G.711, by its tag.
fn companded(tag: u16) -> Format {
    Format {
        tag,
        channels: 1,
        align: 1,
        bits: 8,
    }
}

#[test]
fn all_pages_of_each_format_are_heard(rt: HostRuntime) -> Result<(), Fail> {
    for format in [
        stereo_pcm(1),
        stereo_pcm(2),
        stereo_pcm(3),
        stereo_pcm(4),
        companded(6),
        companded(7),
    ] {
        compare(&rt, rt.alloc(), &format, 20_000)?;
    }
    compare(&rt, rt.alloc(), &IMA, 50)?;
    for frames in [0, 1, 8_192, 8_193] {
        compare(&rt, rt.alloc(), &PCM_16, frames)?;
    }
    Ok(())
}
