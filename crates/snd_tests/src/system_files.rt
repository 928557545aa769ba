//! Files of the system and standard output.
ghost use Rattle.std.specs.Prelude.{◌≡◌, None};

use snd_io::{Depot, Fetch, Put, Sink};
use snd_tools::{DiskDepot, TextOut};
use std::alloc::Global;
use std::io;
use std::test::Fail;

/// Writes a file of two pieces.
fn write_pieces<D: Depot>(
    alloc: Global,
    depot: &mut D,
    name: &str,
    first: &[u8],
    second: &[u8],
) -> Put
    requires { D.writing depot.old ≡ None }
    ensures { D.writing depot.new ≡ None }
{
    match depot.create(alloc, name) {
        Put::Done => {}
        answer => return answer,
    }
    match depot.append(alloc, first) {
        Put::Done => {}
        answer => return answer,
    }
    match depot.append(alloc, second) {
        Put::Done => depot.finish(),
        answer => answer,
    }
}

/// Fetches a file.
fn fetch_file<D: Depot>(alloc: Global, depot: &mut D, name: &str, limit: u64) -> (Fetch, Vec<u8>)
    requires { D.writing depot.old ≡ None }
    ensures { D.writing depot.new ≡ None }
{
    let mut bytes = Vec::new(alloc);
    let answer = depot.fetch(alloc, name, limit, &mut bytes);
    (answer, bytes)
}

#[test]
fn files_of_the_system_are_written_and_read(rt: HostRuntime) -> Result<(), Fail> {
    let alloc = rt.alloc();
    let mut depot = DiskDepot::new(&rt);
    assert_eq!(rt; fetch_file(alloc, &mut depot, "a", 9).0, Fetch::Absent);
    let long = "0123456789".repeat(alloc, 5000)?;
    let long = long.as_str().as_bytes();
    assert_eq!(rt;
        write_pieces(alloc, &mut depot, "a", b"old", b"er"),
        Put::Done
    );
    assert_eq!(rt;
        write_pieces(alloc, &mut depot, "a", long, b"end"),
        Put::Done
    );
    assert_eq!(rt;
        fetch_file(alloc, &mut depot, "a", 50_002).0,
        Fetch::TooLong
    );
    let (answer, bytes) = fetch_file(alloc, &mut depot, "a", 50_003);
    assert_eq!(rt; answer, Fetch::Fetched);
    assert_eq!(rt; bytes.len(), 50_003);
    assert!(rt; bytes.as_slice().starts_with(b"0123456789012"));
    assert!(rt; bytes.as_slice().ends_with(b"789end"));
    // A folder is no file that can be read or written.
    assert_eq!(rt; fetch_file(alloc, &mut depot, ".", 9).0, Fetch::Failed);
    assert_eq!(rt; write_pieces(alloc, &mut depot, ".", b"", b""), Put::Failed);
    Ok(())
}

#[test]
fn standard_output_takes_text(rt: HostRuntime) {
    let mut text = TextOut::new(io::writer(&rt));
    assert_eq!(rt; text.write(rt.alloc(), b"a line\n"), Put::Done);
    assert_eq!(rt; text.write(rt.alloc(), b""), Put::Done);
}
