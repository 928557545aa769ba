//! A listener that seeks beside a filler on a thread of its own.
ghost use Rattle.std.specs.Prelude.{◌≡◌, ◌<◌, IfOk};
ghost use Rattle.std.specs.Thread.{IsSync};
ghost use Rattle.stream_reel.specs.Ends.{IsStream, SameFiller, SameListener};

use crate::clips::{Format, IMA, PCM_16, clip, walked};
use crate::player::{Digest, Heard, digest_of, hear, opened, seek};
use clip_decode::Clip;
use plain_data::OutOfMemory;
use std::alloc::{AllocError, Global};
use std::process::Abort;
use std::sync::Wait;
use std::sync::atomic::{AtomicBool, Ordering};
use std::test::*;
use std::thread;
use std::thread::{Threads, join};
use stream_reel::{Ends, Filler, Listener, Stream};

const SEED: u64 = 20_261_202;

/// The most pages that are heard after a seek.
const PAGES: u32 = 3;

/// How often a page is waited for at most.
const TRIES: u32 = 10_000_000;

/// What was heard, and the pages that were sought.
#[derive(Drop)]
struct Played {
    listener: Listener,
    sought: Vec<u32>,
    heard: Vec<Heard>,
}

/// Waits for the page at the place, where there is one.
fn wait_for_page(listener: &mut Listener, pages: u32) -> Option<Heard>
    requires { listener.old.pages ≡ pages }
    ensures { SameListener listener.old listener.new }
{
    if listener.place() >= pages {
        return None;
    }
    for _ in 0..TRIES {
        if let Ok(heard) = hear(listener, pages) {
            return Some(heard);
        }
        thread::yield_now();
    }
    None
}

/// Hears the pages from the place on, as far as there are such, and at most `PAGES` of them.
fn hear_some(played: &mut Played, pages: u32) -> Result<(), AllocError>
    requires { played.old.listener.pages ≡ pages }
    ensures { SameListener played.old.listener played.new.listener }
{
    for _ in 0..PAGES {
        if let Some(heard) = wait_for_page(&mut played.listener, pages) {
            played.heard.push(heard)?;
        }
    }
    Ok(())
}

/// Goes to so many pages, which a linear congruential generator chooses, and hears some pages from each on.
fn play(alloc: Global, listener: Listener, pages: u32, seeks: u32) -> Result<Played, AllocError>
    requires { (listener.pages ≡ pages) × (pages < 65536) }
    ensures { IfOk result (λ played. SameListener listener played.listener) }
{
    let mut played = Played {
        listener,
        sought: Vec::new(alloc),
        heard: Vec::new(alloc),
    };
    let mut state = SEED;
    for _ in 0..seeks {
        state = state
            .wrapping_mul(6_364_136_223_846_793_005)
            .wrapping_add(1_442_695_040_888_963_407);
        let number = (state >> 33) as u32 % (pages + 1);
        seek(&mut played.listener, pages, number);
        played.sought.push(number)?;
        hear_some(&mut played, pages)?;
    }
    Ok(played)
}

/// The filler works on a thread of its own until all was heard.
fn play_beside<R: Threads + Wait + Sync>(
    rt: &R,
    alloc: Global,
    filler: Filler,
    listener: Listener,
    pages: u32,
    seeks: u32,
) -> (Filler, Result<Played, AllocError>)
    requires { IsStream filler listener × (listener.pages ≡ pages) × (pages < 65536) }
    ensures { IfOk result.1 (λ played. IsStream result.0 played.listener) }
{
    let stop = AtomicBool::new(false);
    join(
        rt,
        || -> Filler
            requires { IsSync R.row }
            ensures { SameFiller filler result }
        {
            let mut filler = filler;
            filler.work(rt, &stop);
            filler
        },
        || -> Result<Played, AllocError>
            requires { (listener.pages ≡ pages) × (pages < 65536) }
            ensures { IfOk result (λ played. SameListener listener played.listener) }
        {
            let played = play(alloc, listener, pages, seeks);
            stop.store(true, Ordering::SeqCst);
            played
        },
    )
}

/// Whether a page may be heard behind another one, where these pages were sought.
fn may_follow(before: Option<&Heard>, heard: &Heard, sought: &[u32]) -> bool {
    match before {
        Some(before) if before.round == heard.round => {
            before.number.checked_add(1) == Some(heard.number)
        }
        before => {
            let later = before.is_none_or(|before| before.round < heard.round);
            let place = (heard.round as usize).checked_sub(1);
            later && place.and_then(|place| sought.get(place)) == Some(&heard.number)
        }
    }
}

/// Whether all that was heard is lawful for a file of these pages, and each round begins with the page that
/// was sought.
fn is_lawful(played: &Played, pages: &[Digest]) -> bool {
    let mut before = None;
    let mut lawful = true;
    for heard in &played.heard {
        lawful = lawful
            && may_follow(before, heard, &played.sought)
            && pages.get(heard.number as usize) == Some(&heard.digest);
        before = Some(heard);
    }
    lawful
}

/// How many pages there are to hear after these seeks.
fn pages_to_hear(sought: &[u32], pages: u32) -> usize {
    let mut count: usize = 0;
    for number in sought {
        let left = PAGES.min(pages.saturating_sub(*number));
        count = count.saturating_add(left as usize);
    }
    count
}

/// The digest of each page of a clip.
fn digests(alloc: Global, clip: &Clip) -> Result<Vec<Digest>, OutOfMemory> {
    let mut digests = Vec::new(alloc);
    for page in walked(alloc, clip)? {
        digests.push(digest_of(&page))?;
    }
    Ok(digests)
}

/// Plays a sound of so many frames, or blocks of IMA ADPCM, on two threads, with so many seeks.
fn check_two_threads<R: Threads + Wait + Abort + Sync>(
    rt: &R,
    alloc: Global,
    format: &Format,
    frames: u16,
    seeks: u32,
) -> Result<(), Fail> {
    let clip = clip(alloc, format, frames)?;
    let digests = digests(alloc, &clip)?;
    let (Ends { filler, listener }, pages) = opened(rt, alloc, clip)?;
    let (filler, played) = play_beside(rt, alloc, filler, listener, pages, seeks);
    let Played {
        listener,
        sought,
        heard,
    } = played?;
    let listener = Stream::close(filler, listener);
    assert_eq!(rt; listener.round(), seeks);
    assert_eq!(rt; heard.len(), pages_to_hear(&sought, pages));
    assert!(rt;
        is_lawful(
            &Played {
                listener,
                sought,
                heard
            },
            &digests
        )
    );
    Ok(())
}

#[test]
fn what_is_heard_beside_a_filler_is_lawful(rt: HostRuntime) -> Result<(), Fail> {
    check_two_threads(&rt, rt.alloc(), &PCM_16, 40_000, 3_000)?;
    check_two_threads(&rt, rt.alloc(), &IMA, 100, 1_000)
}
