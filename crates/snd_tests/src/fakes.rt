//! The stores and sinks in memory, and the calls at which they fail.
ghost use Rattle.std.specs.Prelude.{◌≡◌, None};
ghost use Rattle.snd_io.specs.MemFiles.{mem_writing};

use crate::programs::is_bytes;
use snd_io::{
    Depot, Fetch, FetchFault, MemDepot, MemSink, Put, PutFault, Sink, Snag, SureDepot, write_file,
};
use std::test::Fail;

#[test]
fn a_store_gives_and_writes_files(rt: HostRuntime) -> Result<(), Fail> {
    let alloc = rt.alloc();
    let mut depot = SureDepot::new(alloc)?;
    depot.set(alloc, "a", b"first")?;
    depot.set(alloc, "a", b"second")?;
    assert!(rt; is_bytes(depot.file("a"), b"second"));
    assert!(rt; depot.file("b").is_none());
    let mut bytes = Vec::new(alloc);
    assert_eq!(rt; depot.fetch(alloc, "b", 9, &mut bytes), Fetch::Absent);
    assert_eq!(rt; depot.fetch(alloc, "a", 5, &mut bytes), Fetch::TooLong);
    assert_eq!(rt; depot.fetch(alloc, "a", 6, &mut bytes), Fetch::Fetched);
    assert_eq!(rt; bytes.as_slice(), b"second".as_slice());
    assert_eq!(rt; depot.create(alloc, "a"), Put::Done);
    assert_eq!(rt; depot.append(alloc, b"th"), Put::Done);
    assert_eq!(rt; depot.append(alloc, b"ird"), Put::Done);
    assert_eq!(rt; depot.finish(), Put::Done);
    assert!(rt; is_bytes(depot.file("a"), b"third"));
    Ok(())
}

/// What is left of `abcdef` in `f`, written in appends of two bytes each, where a call fails: whether
/// appends alone are counted, the number of the call, and how many bytes it takes.
const WRITES: &[(bool, u32, u32, Option<&[u8]>)] = &[
    (true, 1, 0, Some(b"")),
    (true, 2, 0, Some(b"ab")),
    (true, 2, 1, Some(b"abc")),
    (true, 3, 9, Some(b"abcdef")),
    (true, 4, 0, None),
    (true, 0, 0, None),
    (false, 1, 0, Some(b"old")),
    (false, 2, 1, Some(b"a")),
    (false, 4, 0, Some(b"abcd")),
    (false, 5, 0, Some(b"abcdef")),
    (false, 6, 0, None),
];

fn snag(appends_only: bool, call: u32, taken: u32) -> Snag {
    Snag {
        appends_only,
        call,
        taken,
    }
}

/// Creates `f`, appends `abcdef` in three pieces and finishes it, up to the first answer other than
/// `Done`.
fn write_in_pieces(rt: &HostRuntime, depot: &mut MemDepot) -> Put
    requires { mem_writing depot.old ≡ None }
{
    let alloc = rt.alloc();
    let created = depot.create(alloc, "f");
    if created != Put::Done {
        return created;
    }
    let first = depot.append(alloc, b"ab");
    if first != Put::Done {
        return first;
    }
    let second = depot.append(alloc, b"cd");
    if second != Put::Done {
        return second;
    }
    let third = depot.append(alloc, b"ef");
    if third != Put::Done {
        return third;
    }
    depot.finish()
}

#[test]
fn a_store_fails_at_the_calls_that_are_listed(rt: HostRuntime) -> Result<(), Fail> {
    let alloc = rt.alloc();
    for (appends_only, call, taken, left) in WRITES {
        let snag = snag(*appends_only, *call, *taken);
        let mut depot = MemDepot::new(alloc)?;
        depot.set(alloc, "f", b"old")?;
        depot.fail(alloc, snag)?;
        let answer = write_in_pieces(&rt, &mut depot);
        let (want, bytes) = match left {
            Some(bytes) => (Put::Failed, *bytes),
            None => (Put::Done, b"abcdef".as_slice()),
        };
        assert_eq!(rt; answer, want, "{snag:?}");
        assert!(rt; is_bytes(depot.file("f"), bytes), "{snag:?}");
    }
    let mut depot = MemDepot::new(alloc)?;
    depot.set(alloc, "f", b"old")?;
    depot.fail(alloc, snag(false, 2, 0))?;
    let mut bytes = Vec::new(alloc);
    assert_eq!(rt; depot.fetch(alloc, "g", 9, &mut bytes), Fetch::Absent);
    assert_eq!(rt; depot.fetch(alloc, "f", 9, &mut bytes), Fetch::Failed);
    assert!(rt; bytes.is_empty());
    assert_eq!(rt; depot.fetch(alloc, "f", 9, &mut bytes), Fetch::Fetched);
    Ok(())
}

#[test]
fn a_sink_fails_at_the_writes_that_are_listed(rt: HostRuntime) -> Result<(), Fail> {
    let alloc = rt.alloc();
    let mut sink = MemSink::new(alloc)?;
    sink.fail(alloc, 2, 1)?;
    assert_eq!(rt; sink.write(alloc, b"one "), Put::Done);
    assert_eq!(rt; sink.write(alloc, b"two "), Put::Failed);
    assert_eq!(rt; sink.write(alloc, b"three"), Put::Done);
    assert_eq!(rt; sink.bytes(), b"one tthree".as_slice());
    Ok(())
}

#[test]
fn an_answer_is_a_result_and_a_file_is_written_whole(rt: HostRuntime) -> Result<(), Fail> {
    let alloc = rt.alloc();
    assert_eq!(rt; Put::Done.into_result(), Ok(()));
    assert_eq!(rt; Put::Failed.into_result(), Err(PutFault::Failed));
    assert_eq!(rt; Fetch::Absent.into_result(), Err(FetchFault::Absent));
    let mut depot = MemDepot::new(alloc)?;
    assert_eq!(rt; write_file(alloc, &mut depot, "f", b"all"), Ok(()));
    assert!(rt; is_bytes(depot.file("f"), b"all"));
    depot.fail(alloc, snag(false, 6, 0))?;
    assert_eq!(rt;
        write_file(alloc, &mut depot, "f", b"bytes"),
        Err(PutFault::Failed)
    );
    assert!(rt; is_bytes(depot.file("f"), b"bytes"));
    Ok(())
}
