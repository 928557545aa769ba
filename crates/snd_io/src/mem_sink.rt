ghost use Rattle.std.specs.Prelude.{◌≡◌, ◌∷◌, ◌++◌, [], OnOk, OnErr, Some, None, IfOk};
ghost use Rattle.snd_io.specs.Faults.{CountsFaults};
ghost use Rattle.snd_io.specs.Answers.{put_failed, Writes};
ghost use Rattle.snd_io.specs.Snags.{next_number, bytes_taken, faults_after};

use crate::snag::{Snags, first_bytes};
use crate::{Put, Sink, Snag};
use plain_data::OutOfMemory;
use std::alloc::Global;

/// A sink in memory that fails at the writes that were listed, and at no other. It counts its
/// writes from 1.
#[derive(Debug, Drop)]
pub struct MemSink {
    pub(crate) text: Vec<u8>,
    pub(crate) snags: Snags,
}

impl MemSink {
    ghost use Rattle.snd_io.specs.MemText.{mem_text, mem_sink_snags, mem_sink_calls, mem_sink_faults, listed_write};

    /// A sink in which nothing was written, which fails at no write.
    pub fn new(alloc: Global) -> Result<MemSink, OutOfMemory>
        ensures text { IfOk result (λ sink. mem_text sink ≡ []) }
        ensures snags { IfOk result (λ sink. mem_sink_snags sink ≡ []) }
        ensures counts { IfOk result (λ sink. (mem_sink_calls sink ≡ 0) × (mem_sink_faults sink ≡ 0)) }
    {
        Ok(MemSink {
            text: Vec::new(alloc),
            snags: Snags::none(alloc),
        })
    }

    /// All bytes that were written.
    pub fn bytes(&self) -> &[u8]
        ensures { result.now ≡ mem_text self.now }
    {
        self.text.as_slice()
    }

    /// Makes write number `call` fail, which still takes its first `taken` bytes, or all where there
    /// are fewer. Writes count from the making of the sink; a number that has passed, and 0, name no
    /// write. Of several that name one write the first that was listed counts.
    ///
    /// # Errors
    ///
    /// [`OutOfMemory`] where there is no memory; nothing has changed then.
    pub fn fail(&mut self, _alloc: Global, call: u32, taken: u32) -> Result<(), OutOfMemory>
        ensures ok { OnOk result (mem_sink_snags self.new ≡ mem_sink_snags self.old ++ listed_write call taken ∷ []) }
        ensures err { OnErr result (mem_sink_snags self.new ≡ mem_sink_snags self.old) }
        ensures text { mem_text self.new ≡ mem_text self.old }
        ensures counts { (mem_sink_calls self.new ≡ mem_sink_calls self.old) × (mem_sink_faults self.new ≡ mem_sink_faults self.old) }
    {
        self.snags.add(Snag {
            appends_only: false,
            call,
            taken,
        })
    }
}

impl MemSink {
    ghost use Rattle.snd_io.specs.MemText.{mem_text, mem_sink_snags, mem_sink_calls, mem_sink_faults, WritesLast};

    /// Takes the bytes of a write that fails once it took these. It finds no memory only where there
    /// are bytes to be taken.
    fn write_last(&mut self, bytes: &[u8]) -> Put
        ensures last { WritesLast result bytes.now (mem_text self.old) (mem_text self.new) }
        ensures snags { mem_sink_snags self.new ≡ mem_sink_snags self.old }
        ensures calls { mem_sink_calls self.new ≡ mem_sink_calls self.old }
        ensures faults { mem_sink_faults self.new ≡ faults_after (mem_sink_faults self.old) (put_failed result) }
        ensures cause { CountsFaults (mem_sink_faults self.old) (mem_sink_faults self.new) (put_failed result) }
    {
        if !bytes.is_empty() && self.text.extend_from_slice(bytes).is_err() {
            return Put::OutOfMemory;
        }
        self.snags.count_fault();
        Put::Failed
    }
}

impl Sink for MemSink {
    ghost use Rattle.std.specs.Prelude.{Some};
    ghost use Rattle.snd_io.specs.MemText.{mem_text, mem_sink_snags, mem_sink_calls, mem_sink_faults, WritesAsListed};

    ghost written = { λ sink. Some (mem_text sink) };

    ghost faults = { mem_sink_faults };

    fn write(&mut self, _alloc: Global, bytes: &[u8]) -> Put
        ensures after { Writes result bytes.now (Some (mem_text self.old)) (Some (mem_text self.new)) }
        ensures cause { CountsFaults (mem_sink_faults self.old) (mem_sink_faults self.new) (put_failed result) }
        ensures listed { WritesAsListed result bytes.now self.old self.new }
        ensures snags { mem_sink_snags self.new ≡ mem_sink_snags self.old }
        ensures calls { mem_sink_calls self.new ≡ next_number (mem_sink_calls self.old) }
        ensures faults { mem_sink_faults self.new ≡ faults_after (mem_sink_faults self.old) (put_failed result) }
    {
        match self.snags.next_call() {
            None => match self.text.extend_from_slice(bytes) {
                Ok(()) => Put::Done,
                Err(_) => Put::OutOfMemory,
            },
            Some(taken) => self.write_last(first_bytes(bytes, taken)),
        }
    }
}
