ghost use Rattle.std.specs.Prelude.{◌≡◌, ◌≢◌, ◌∷◌, ◌++◌, [], OnOk, OnErr, Some, None, IfOk, IsSome, IfSome, is_some, true, take};
ghost use Rattle.std.specs.Option.{option_copied, option_map};
ghost use Rattle.std.specs.FinMap.{get, empty};
ghost use Rattle.snd_io.specs.Files.{put_file, extend_file};
ghost use Rattle.snd_io.specs.Faults.{CountsFaults};
ghost use Rattle.snd_io.specs.Answers.{fetch_failed, put_failed, FetchTells, FetchLeaves, Creates, Appends};
ghost use Rattle.snd_io.specs.Snags.{next_number, bytes_taken};

use crate::snag::{Snags, first_bytes};
use crate::{Depot, Fetch, Put, Snag, SureDepot};
use plain_data::OutOfMemory;
use std::alloc::Global;

/// A store in memory that fails at the calls that were listed, and at no other. It counts its calls
/// from 1: all of them, and the appends among themselves.
#[derive(Debug, Drop)]
pub struct MemDepot {
    pub(crate) store: SureDepot,
    pub(crate) snags: Snags,
}

impl MemDepot {
    ghost use Rattle.snd_io.specs.MemFiles.{mem_files, mem_writing, mem_snags, mem_calls, mem_appends, mem_faults, CountsNothing};

    /// A store without files, which fails at no call.
    pub fn new(alloc: Global) -> Result<MemDepot, OutOfMemory>
        ensures files { IfOk result (λ depot. mem_files depot ≡ empty) }
        ensures closed { IfOk result (λ depot. mem_writing depot ≡ None) }
        ensures snags { IfOk result (λ depot. mem_snags depot ≡ []) }
        ensures counts { IfOk result (λ depot. (mem_calls depot ≡ 0) × (mem_appends depot ≡ 0) × (mem_faults depot ≡ 0)) }
    {
        Ok(MemDepot {
            store: SureDepot::new(alloc)?,
            snags: Snags::none(alloc),
        })
    }

    /// Sets a file, which is no counted call. A file that was open for writing is ended.
    ///
    /// # Errors
    ///
    /// [`OutOfMemory`] where there is no memory; nothing has changed then.
    pub fn set(&mut self, alloc: Global, name: &str, bytes: &[u8]) -> Result<(), OutOfMemory>
        ensures files { OnOk result (mem_files self.new ≡ put_file name.now bytes.now (mem_files self.old)) }
        ensures closed { OnOk result (mem_writing self.new ≡ None) }
        ensures err_files { OnErr result (mem_files self.new ≡ mem_files self.old) }
        ensures err_writing { OnErr result (mem_writing self.new ≡ mem_writing self.old) }
        ensures snags { mem_snags self.new ≡ mem_snags self.old }
        ensures counts { CountsNothing self.old self.new }
    {
        self.store.set(alloc, name, bytes)
    }

    /// The bytes of a file, `None` exactly where the name isn't there.
    pub fn file(&self, name: &str) -> Option<&[u8]>
        ensures { option_copied result ≡ get (mem_files self.now) name.now }
    {
        self.store.file(name)
    }

    /// Makes the call that `snag` names fail. Calls count from the making of the store; a number that
    /// has passed, and 0, name no call. Of several snags that name one call the first that was
    /// listed counts.
    ///
    /// # Errors
    ///
    /// [`OutOfMemory`] where there is no memory; nothing has changed then.
    pub fn fail(&mut self, _alloc: Global, snag: Snag) -> Result<(), OutOfMemory>
        ensures ok { OnOk result (mem_snags self.new ≡ mem_snags self.old ++ snag ∷ []) }
        ensures err { OnErr result (mem_snags self.new ≡ mem_snags self.old) }
        ensures files { mem_files self.new ≡ mem_files self.old }
        ensures writing { mem_writing self.new ≡ mem_writing self.old }
        ensures counts { CountsNothing self.old self.new }
    {
        self.snags.add(snag)
    }
}

impl Depot for MemDepot {
    ghost use Rattle.std.specs.Prelude.{Some};
    ghost use Rattle.snd_io.specs.MemFiles.{mem_files, mem_writing, mem_snags, mem_calls, mem_appends, mem_faults, CountsCall, CountsAppend, AppendsAsListed};

    ghost files = { λ depot. Some (mem_files depot) };

    ghost writing = { mem_writing };

    ghost faults = { mem_faults };

    fn fetch(&mut self, alloc: Global, name: &str, limit: u64, into: &mut Vec<u8>) -> Fetch
        requires empty { into.old.items ≡ [] }
        requires closed { mem_writing self.old ≡ None }
        ensures tells { FetchTells result (get (mem_files self.old) name.now) limit into.new.items }
        ensures leaves { FetchLeaves result limit into.new.items }
        ensures files { Some (mem_files self.new) ≡ Some (mem_files self.old) }
        ensures closed { mem_writing self.new ≡ None }
        ensures cause { CountsFaults (mem_faults self.old) (mem_faults self.new) (fetch_failed result) }
        ensures listed { fetch_failed result ≡ is_some (bytes_taken (mem_snags self.old) (next_number (mem_calls self.old)) None) }
        ensures counts { CountsCall (fetch_failed result) self.old self.new }
    {
        match self.snags.next_call() {
            Some(_) => {
                self.snags.count_fault();
                Fetch::Failed
            }
            None => self.store.fetch(alloc, name, limit, into),
        }
    }

    fn create(&mut self, alloc: Global, name: &str) -> Put
        requires closed { mem_writing self.old ≡ None }
        ensures after { Creates result name.now (Some (mem_files self.old)) (Some (mem_files self.new)) (mem_writing self.new) }
        ensures cause { CountsFaults (mem_faults self.old) (mem_faults self.new) (put_failed result) }
        ensures listed { put_failed result ≡ is_some (bytes_taken (mem_snags self.old) (next_number (mem_calls self.old)) None) }
        ensures as_before { put_failed result ≡ true → mem_files self.new ≡ mem_files self.old }
        ensures counts { CountsCall (put_failed result) self.old self.new }
    {
        match self.snags.next_call() {
            Some(_) => {
                self.snags.count_fault();
                Put::Failed
            }
            None => self.store.create(alloc, name),
        }
    }

    fn append(&mut self, alloc: Global, bytes: &[u8]) -> Put
        requires writing { IsSome (mem_writing self.old) }
        ensures after { IfSome (mem_writing self.old) (λ name. Appends result name bytes.now (Some (mem_files self.old)) (Some (mem_files self.new)) (mem_writing self.new)) }
        ensures cause { CountsFaults (mem_faults self.old) (mem_faults self.new) (put_failed result) }
        ensures listed { AppendsAsListed result bytes.now self.old self.new }
        ensures counts { CountsAppend (put_failed result) self.old self.new }
    {
        match self.snags.next_append() {
            None => self.store.append(alloc, bytes),
            Some(taken) => {
                let answer = self.store.append_last(alloc, first_bytes(bytes, taken));
                if answer == Put::Failed {
                    self.snags.count_fault();
                }
                answer
            }
        }
    }

    fn finish(&mut self) -> Put
        requires writing { IsSome (mem_writing self.old) }
        ensures answer { result ≢ Put.OutOfMemory }
        ensures files { Some (mem_files self.new) ≡ Some (mem_files self.old) }
        ensures closed { mem_writing self.new ≡ None }
        ensures cause { CountsFaults (mem_faults self.old) (mem_faults self.new) (put_failed result) }
        ensures listed { put_failed result ≡ is_some (bytes_taken (mem_snags self.old) (next_number (mem_calls self.old)) None) }
        ensures counts { CountsCall (put_failed result) self.old self.new }
    {
        let answer = self.store.finish();
        match self.snags.next_call() {
            Some(_) => {
                self.snags.count_fault();
                Put::Failed
            }
            None => answer,
        }
    }
}
