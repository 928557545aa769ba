//! Streams on one thread, call by call.

ghost use Rattle.std.specs.Prelude.{◌≡◌};
ghost use Rattle.stream_reel.specs.Ends.{SameFiller, SameListener};

use crate::clips::{PCM_16, clip};
use crate::player::{hear, opened, seek};
use std::process::Abort;
use std::test::Fail;
use stream_reel::{Ends, Filler, Listener, NotLoaded, Stream, Turned};

/// The round, the number and the frames of the page that is heard next, of a mono sound.
fn next(listener: &mut Listener, pages: u32) -> Result<(u32, u32, usize), NotLoaded>
    requires { listener.old.pages ≡ pages }
    ensures { SameListener listener.old listener.new }
{
    let heard = hear(listener, pages)?;
    Ok((heard.round, heard.number, heard.digest.len))
}

/// Expects that the filler fills these pages, by round and number, and that nothing is left to do then.
fn fills(rt: &impl Abort, filler: &mut Filler, pages: &[(u32, u32)])
    ensures { SameFiller filler.old filler.new }
{
    for (round, number) in pages {
        let want = Turned::Filled {
            round: *round,
            number: *number,
        };
        assert_eq!(rt; filler.turn(), want);
    }
    assert_eq!(rt; filler.turn(), Turned::Idle);
}

#[test]
fn three_pages_are_heard_and_the_last_one_again(rt: HostRuntime) -> Result<(), Fail> {
    let (ends, pages) = opened(&rt, rt.alloc(), clip(rt.alloc(), &PCM_16, 20_000)?)?;
    let Ends {
        mut filler,
        mut listener,
    } = ends;
    assert_eq!(rt; next(&mut listener, pages), Err(NotLoaded));
    fills(&rt, &mut filler, &[(0, 0), (0, 1)]);
    assert_eq!(rt; next(&mut listener, pages), Ok((0, 0, 8_192)));
    assert_eq!(rt; next(&mut listener, pages), Ok((0, 1, 8_192)));
    seek(&mut listener, pages, 2);
    fills(&rt, &mut filler, &[(0, 2), (1, 2)]);
    assert_eq!(rt; next(&mut listener, pages), Ok((1, 2, 3_616)));
    let listener = Stream::close(filler, listener);
    assert_eq!(rt; (listener.round(), listener.place()), (1, 3));
    Ok(())
}

#[test]
fn a_stream_goes_on_from_any_page_after_a_seek(rt: HostRuntime) -> Result<(), Fail> {
    let (ends, pages) = opened(&rt, rt.alloc(), clip(rt.alloc(), &PCM_16, 20_000)?)?;
    let Ends {
        mut filler,
        mut listener,
    } = ends;
    seek(&mut listener, pages, 3);
    assert_eq!(rt; (listener.round(), listener.place()), (1, 3));
    fills(&rt, &mut filler, &[(0, 0), (0, 1)]);
    seek(&mut listener, pages, 1);
    assert_eq!(rt; next(&mut listener, pages), Err(NotLoaded));
    assert_eq!(rt; (listener.round(), listener.place()), (2, 1));
    fills(&rt, &mut filler, &[(2, 1), (2, 2)]);
    assert_eq!(rt; next(&mut listener, pages), Ok((2, 1, 8_192)));
    assert_eq!(rt; next(&mut listener, pages), Ok((2, 2, 3_616)));
    seek(&mut listener, pages, 0);
    fills(&rt, &mut filler, &[(3, 0), (3, 1)]);
    assert_eq!(rt; next(&mut listener, pages), Ok((3, 0, 8_192)));
    Ok(())
}

#[test]
fn answers_are_exact_where_both_ends_met(rt: HostRuntime) -> Result<(), Fail> {
    let (ends, pages) = opened(&rt, rt.alloc(), clip(rt.alloc(), &PCM_16, 20_000)?)?;
    let Ends {
        mut filler,
        mut listener,
    } = ends;
    Stream::meet(&mut filler, &mut listener);
    assert_eq!(rt; next(&mut listener, pages), Err(NotLoaded));
    assert_eq!(rt;
        filler.turn(),
        Turned::Filled {
            round: 0,
            number: 0
        }
    );
    Stream::meet(&mut filler, &mut listener);
    assert_eq!(rt; next(&mut listener, pages), Ok((0, 0, 8_192)));
    assert_eq!(rt;
        filler.turn(),
        Turned::Filled {
            round: 0,
            number: 1
        }
    );
    Stream::meet(&mut filler, &mut listener);
    assert_eq!(rt; filler.turn(), Turned::Idle);
    assert_eq!(rt; next(&mut listener, pages), Ok((0, 1, 8_192)));
    Stream::meet(&mut filler, &mut listener);
    assert_eq!(rt; next(&mut listener, pages), Err(NotLoaded));
    assert_eq!(rt; NotLoaded.to_string(rt.alloc())?.as_str(), "not loaded");
    Ok(())
}
