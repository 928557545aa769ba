ghost use Rattle.std.specs.Prelude.{◌≡◌, ◌≤◌, [], None, vec_len};

use snd_io::{Depot, Fetch, Put};
use std::alloc::Global;
use std::fs;
use std::io::{ErrorKind, Read, Write};
use std::rt::Files;

/// The files of the system, by their paths. It tells nothing of what they hold. Its count of faults
/// rises at each error of the system, except where a file to be read isn't there, and a call that a
/// signal interrupts is made again. An error that the system has only at the closing of a file isn't
/// seen: `finish` always answers `Done`.
#[derive(Drop)]
pub struct DiskDepot<'a, R: Files> {
    rt: &'a R,
    current: Option<OpenFile<R::File>>,
    faults: u64,
}

/// A file that is open for writing.
#[derive(Drop)]
struct OpenFile<F> {
    name: String,
    file: F,
}

impl<'a, R: Files> DiskDepot<'a, R> {
    /// The files that `rt` reaches, none of them open, with no fault so far.
    pub fn new(rt: &'a R) -> Self
        ensures writing { ⟦<DiskDepot<'a, R> as Depot>⟧.writing result ≡ None }
        ensures faults { ⟦<DiskDepot<'a, R> as Depot>⟧.faults result ≡ 0 }
    {
        DiskDepot {
            rt,
            current: None,
            faults: 0,
        }
    }
}

impl<R: Files> Depot for DiskDepot<'_, R> {
    ghost use Rattle.std.specs.Prelude.{None, string_bytes};
    ghost use Rattle.std.specs.Option.{option_map};

    ghost files = { λ depot. None };

    ghost writing = { λ depot. option_map (λ o. string_bytes o.name) depot.current };

    ghost faults = { λ depot. depot.faults };

    fn fetch(&mut self, _alloc: Global, name: &str, limit: u64, into: &mut Vec<u8>) -> Fetch {
        let reading = match fs::open(self.rt, name) {
            Ok(file) => read_whole(file, limit, into),
            Err(error) if error.kind() == ErrorKind::NotFound => return Fetch::Absent,
            Err(_) => Fetch::Failed,
        };
        if reading == Fetch::Failed {
            self.faults = self.faults.saturating_add(1);
        }
        if reading != Fetch::Fetched {
            into.clear();
        }
        reading
    }

    fn create(&mut self, alloc: Global, name: &str) -> Put {
        let Ok(owned) = String::from_str(alloc, name) else {
            return Put::OutOfMemory;
        };
        match fs::create(self.rt, name) {
            Ok(file) => {
                self.current = Some(OpenFile { name: owned, file });
                Put::Done
            }
            Err(_) => {
                self.faults = self.faults.saturating_add(1);
                Put::Failed
            }
        }
    }

    fn append(&mut self, _alloc: Global, bytes: &[u8]) -> Put {
        let Some(mut open_file) = self.current.take() else {
            unreachable!()
        };
        if open_file.file.write_all(bytes).is_ok() {
            self.current = Some(open_file);
            Put::Done
        } else {
            self.faults = self.faults.saturating_add(1);
            Put::Failed
        }
    }

    fn finish(&mut self) -> Put {
        self.current = None;
        Put::Done
    }
}

/// Reads a file to its end, but at most one byte more than the limit.
fn read_whole<F: Read + Drop>(file: F, limit: u64, into: &mut Vec<u8>) -> Fetch
    requires { into.old.items ≡ [] }
    ensures { result ≡ Fetch.Fetched → vec_len into.new ≤ limit }
{
    match file.take(limit.saturating_add(1)).read_to_end(into) {
        Ok(_) if into.len() as u64 > limit => Fetch::TooLong,
        Ok(_) => Fetch::Fetched,
        Err(error) if error.kind() == ErrorKind::OutOfMemory => Fetch::OutOfMemory,
        Err(_) => Fetch::Failed,
    }
}
