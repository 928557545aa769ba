//! Both ends of a stream on one thread.
ghost use Rattle.std.specs.Prelude.{◌≡◌, ◌<◌, IfOk};
ghost use Rattle.stream_reel.specs.Ends.{IsStream, SameFiller, SameListener};

use clip_decode::{Clip, pages};
use std::alloc::Global;
use std::process::Abort;
use std::test::Fail;
use stream_reel::{Ends, Filler, Listener, NotLoaded, Stream, Turned};

/// A page that was heard: the round and the place that stood before, and a digest of its samples.
#[derive(Clone, Copy, Debug, PartialEq, Eq)]
pub(crate) struct Heard {
    pub(crate) round: u32,
    pub(crate) number: u32,
    pub(crate) digest: Digest,
}

/// The number of some samples, and a sum that differs where they do, most likely.
#[derive(Clone, Copy, Debug, PartialEq, Eq)]
pub(crate) struct Digest {
    pub(crate) len: usize,
    pub(crate) sum: u64,
}

/// The digest of samples.
pub(crate) fn digest_of(samples: &[i32]) -> Digest {
    let mut sum: u64 = 0;
    for sample in samples {
        let next = u64::from(sample.cast_unsigned());
        sum = sum
            .wrapping_mul(6_364_136_223_846_793_005)
            .wrapping_add(next);
    }
    Digest {
        len: samples.len(),
        sum,
    }
}

/// Opens a stream of a clip, with the number of its pages.
pub(crate) fn opened(rt: &impl Abort, alloc: Global, clip: Clip) -> Result<(Ends, u32), Fail>
    ensures { IfOk result (λ opened. IsStream opened.0.filler opened.0.listener × (opened.0.listener.pages ≡ opened.1) × (opened.1 < 65536)) }
{
    assert!(rt; clip.bytes().len() <= 67_108_864);
    let pages = pages(clip.wave());
    assert!(rt; pages <= 65_535);
    let ends = Stream::open(alloc, clip)?;
    assert_eq!(rt; (ends.listener.round(), ends.listener.place()), (0, 0));
    Ok((ends, pages as u32))
}

/// Hears the page at the place, where there is one and it is loaded.
pub(crate) fn hear(listener: &mut Listener, pages: u32) -> Result<Heard, NotLoaded>
    requires { listener.old.pages ≡ pages }
    ensures { SameListener listener.old listener.new }
{
    let (round, number) = (listener.round(), listener.place());
    if number >= pages {
        return Err(NotLoaded);
    }
    let page = listener.next()?;
    Ok(Heard {
        round,
        number,
        digest: digest_of(page.samples()),
    })
}

/// Goes to a page, where there is such a place and there were few seeks.
pub(crate) fn seek(listener: &mut Listener, pages: u32, number: u32)
    requires { listener.old.pages ≡ pages }
    ensures { SameListener listener.old listener.new }
{
    if number <= pages && listener.round() < u32::MAX - 1 {
        listener.seek(number);
    }
}
