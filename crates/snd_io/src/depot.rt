ghost use Rattle.std.specs.Prelude.{◌≡◌, ◌≢◌, [], List, ℕ, Option, Some, None, IsSome, IfSome, true};
ghost use Rattle.std.specs.FinMap.{get};
ghost use Rattle.snd_io.specs.Files.{Told};
ghost use Rattle.snd_io.specs.Faults.{CountsFaults};
ghost use Rattle.snd_io.specs.Answers.{fetch_failed, put_failed, FetchTells, FetchLeaves, Creates, Appends};

use crate::{Fetch, Put};
use std::alloc::Global;

/// A store of files: it gives a file whole, and writes one file at a time in pieces.
pub trait Depot {
    /// The files by their names, where the store tells them.
    ghost files: { Self → Told };

    /// The name of the file that is open for writing, if one is.
    ghost writing: { Self → Option (List ℕ) };

    /// A count of faults, which never falls. A call answers `Failed` only where it rises, or stands
    /// at the last number of a u64, and every other answer leaves it as it was.
    ghost faults: { Self → ℕ };

    /// Puts the bytes of a file into an empty buffer, at most `limit` of them. On every answer but
    /// `Fetched` the buffer is empty. No file changes, and none is open afterwards.
    fn fetch(&mut self, alloc: Global, name: &str, limit: u64, into: &mut Vec<u8>) -> Fetch
        requires empty { into.old.items ≡ [] }
        requires closed { writing self.old ≡ None }
        ensures tells { IfSome (files self.old) (λ told. FetchTells result (get told name.now) limit into.new.items) }
        ensures leaves { FetchLeaves result limit into.new.items }
        ensures files { files self.new ≡ files self.old }
        ensures closed { writing self.new ≡ None }
        ensures cause { CountsFaults (faults self.old) (faults self.new) (fetch_failed result) };

    /// Opens a file for writing, with no bytes, in the place of one that was there. On every answer
    /// but `Done` nothing is open, and the files are as before or have that name empty.
    fn create(&mut self, alloc: Global, name: &str) -> Put
        requires closed { writing self.old ≡ None }
        ensures after { Creates result name.now (files self.old) (files self.new) (writing self.new) }
        ensures cause { CountsFaults (faults self.old) (faults self.new) (put_failed result) };

    /// Appends to the open file. On every answer but `Done` a prefix of the bytes was appended, and
    /// nothing is open.
    fn append(&mut self, alloc: Global, bytes: &[u8]) -> Put
        requires writing { IsSome (writing self.old) }
        ensures after { IfSome (writing self.old) (λ name. Appends result name bytes.now (files self.old) (files self.new) (writing self.new)) }
        ensures cause { CountsFaults (faults self.old) (faults self.new) (put_failed result) };

    /// Ends the open file, which keeps what was appended. Nothing is open afterwards. It needs no
    /// memory.
    fn finish(&mut self) -> Put
        requires writing { IsSome (writing self.old) }
        ensures answer { result ≢ Put.OutOfMemory }
        ensures files { files self.new ≡ files self.old }
        ensures closed { writing self.new ≡ None }
        ensures cause { CountsFaults (faults self.old) (faults self.new) (put_failed result) };
}
