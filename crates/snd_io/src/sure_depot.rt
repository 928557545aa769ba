ghost use Rattle.std.specs.Prelude.{◌≡◌, OnOk, OnErr, Some, None, IfOk, IsSome, IfSome};
ghost use Rattle.std.specs.Option.{option_copied, option_map};
ghost use Rattle.std.specs.FinMap.{get, empty};
ghost use Rattle.snd_io.specs.Answers.{Appends};
ghost use Rattle.snd_io.specs.Files.{put_file};
ghost use Rattle.snd_io.specs.Fakes.{files_of, first_name};

use crate::entries::{Entry, extend_first, find_bytes, put_bytes};
use crate::{Depot, Fetch, Put};
use plain_data::OutOfMemory;
use std::alloc::Global;
use std::collections::VecDeque;

/// A store in memory that never fails: its count of faults is 0.
#[derive(Debug, Drop)]
pub struct SureDepot {
    pub(crate) entries: VecDeque<Entry>,
    pub(crate) is_open: bool,
}

impl SureDepot {
    ghost use Rattle.snd_io.specs.SureFiles.{sure_files, sure_writing, AppendsLast};

    /// A store without files.
    pub fn new(alloc: Global) -> Result<SureDepot, OutOfMemory>
        ensures files { IfOk result (λ depot. sure_files depot ≡ empty) }
        ensures closed { IfOk result (λ depot. sure_writing depot ≡ None) }
    {
        Ok(SureDepot {
            entries: VecDeque::new(alloc),
            is_open: false,
        })
    }

    /// Sets a file. A file that was open for writing is ended.
    ///
    /// # Errors
    ///
    /// [`OutOfMemory`] where there is no memory; nothing has changed then.
    pub fn set(&mut self, alloc: Global, name: &str, bytes: &[u8]) -> Result<(), OutOfMemory>
        ensures files { OnOk result (sure_files self.new ≡ put_file name.now bytes.now (sure_files self.old)) }
        ensures closed { OnOk result (sure_writing self.new ≡ None) }
        ensures err_files { OnErr result (sure_files self.new ≡ sure_files self.old) }
        ensures err_writing { OnErr result (sure_writing self.new ≡ sure_writing self.old) }
    {
        put_bytes(alloc, &mut self.entries, name, bytes)?;
        self.is_open = false;
        Ok(())
    }

    /// The bytes of a file, `None` exactly where the name isn't there.
    pub fn file(&self, name: &str) -> Option<&[u8]>
        ensures { option_copied result ≡ get (sure_files self.now) name.now }
    {
        find_bytes(&self.entries, name)
    }

    /// Appends the bytes and ends the file, as an append that fails once it took these. It finds no
    /// memory only where there are bytes to be taken.
    pub(crate) fn append_last(&mut self, alloc: Global, bytes: &[u8]) -> Put
        requires { IsSome (sure_writing self.old) }
        ensures after { IfSome (sure_writing self.old) (λ name. Appends result name bytes.now (Some (sure_files self.old)) (Some (sure_files self.new)) (sure_writing self.new)) }
        ensures last { IfSome (sure_writing self.old) (λ name. AppendsLast result name bytes.now (sure_files self.old) (sure_files self.new)) }
    {
        match self.append(alloc, bytes) {
            Put::OutOfMemory if !bytes.is_empty() => Put::OutOfMemory,
            _ => {
                self.is_open = false;
                Put::Failed
            }
        }
    }
}

impl Depot for SureDepot {
    ghost use Rattle.std.specs.Prelude.{Some};
    ghost use Rattle.snd_io.specs.SureFiles.{sure_files, sure_writing};

    ghost files = { λ depot. Some (sure_files depot) };

    ghost writing = { sure_writing };

    ghost faults = { λ depot. 0 };

    fn fetch(&mut self, _alloc: Global, name: &str, limit: u64, into: &mut Vec<u8>) -> Fetch {
        match find_bytes(&self.entries, name) {
            None => Fetch::Absent,
            Some(bytes) if bytes.len() as u64 > limit => Fetch::TooLong,
            Some(bytes) => match into.extend_from_slice(bytes) {
                Ok(()) => Fetch::Fetched,
                Err(_) => Fetch::OutOfMemory,
            },
        }
    }

    fn create(&mut self, alloc: Global, name: &str) -> Put {
        match put_bytes(alloc, &mut self.entries, name, &[]) {
            Ok(()) => {
                self.is_open = true;
                Put::Done
            }
            Err(OutOfMemory) => Put::OutOfMemory,
        }
    }

    fn append(&mut self, _alloc: Global, bytes: &[u8]) -> Put {
        match extend_first(&mut self.entries, bytes) {
            Ok(()) => Put::Done,
            Err(OutOfMemory) => {
                self.is_open = false;
                Put::OutOfMemory
            }
        }
    }

    fn finish(&mut self) -> Put {
        self.is_open = false;
        Put::Done
    }
}
