ghost use Rattle.std.specs.Prelude.{◌≡◌, ◌∷◌, ◌++◌, [], Some, None, true, is_ok, if◌then◌else◌, take};
ghost use Rattle.snd_io.specs.Faults.{CountsFaults};
ghost use Rattle.snd_io.specs.Answers.{IsPrefix};
ghost use Rattle.snd_io.specs.Snags.{next_number, names_call, bytes_taken};

use plain_data::OutOfMemory;
use std::alloc::Global;

/// A call at which a fake fails.
#[derive(Clone, Copy, Debug, PartialEq, Eq)]
pub struct Snag {
    /// Whether `call` counts the appends alone, and not all calls.
    pub appends_only: bool,
    /// The number of the call, from 1. No call has the number 0.
    pub call: u32,
    /// How many bytes of an append or a write are still taken, all where there are fewer.
    pub taken: u32,
}

/// The snags of a fake, and its counts of calls, of appends and of faults.
#[derive(Debug, Drop)]
pub(crate) struct Snags {
    pub(crate) list: Vec<Snag>,
    pub(crate) calls: u64,
    pub(crate) appends: u64,
    pub(crate) faults: u64,
}

impl Snags {
    /// No snags, and no calls so far.
    pub(crate) fn none(alloc: Global) -> Self
        ensures { (result.list.items ≡ []) × (result.calls ≡ 0) × (result.appends ≡ 0) × (result.faults ≡ 0) }
    {
        Snags {
            list: Vec::new(alloc),
            calls: 0,
            appends: 0,
            faults: 0,
        }
    }

    /// Adds a snag after those that are there.
    pub(crate) fn add(&mut self, snag: Snag) -> Result<(), OutOfMemory>
        ensures list { self.new.list.items ≡ (if is_ok result then self.old.list.items ++ snag ∷ [] else self.old.list.items) }
        ensures calls { self.new.calls ≡ self.old.calls }
        ensures appends { self.new.appends ≡ self.old.appends }
        ensures faults { self.new.faults ≡ self.old.faults }
    {
        self.list.push(snag)?;
        Ok(())
    }

    /// Counts a call that is no append. Where a snag names it, answers how many bytes it takes.
    pub(crate) fn next_call(&mut self) -> Option<u32>
        ensures taken { result ≡ bytes_taken self.old.list.items (next_number self.old.calls) None }
        ensures list { self.new.list ≡ self.old.list }
        ensures calls { self.new.calls ≡ next_number self.old.calls }
        ensures appends { self.new.appends ≡ self.old.appends }
        ensures faults { self.new.faults ≡ self.old.faults }
    {
        self.calls = self.calls.saturating_add(1);
        find_snag(&self.list, self.calls, None)
    }

    /// The same for an append, which counts among the appends too.
    pub(crate) fn next_append(&mut self) -> Option<u32>
        ensures taken { result ≡ bytes_taken self.old.list.items (next_number self.old.calls) (Some (next_number self.old.appends)) }
        ensures list { self.new.list ≡ self.old.list }
        ensures calls { self.new.calls ≡ next_number self.old.calls }
        ensures appends { self.new.appends ≡ next_number self.old.appends }
        ensures faults { self.new.faults ≡ self.old.faults }
    {
        self.calls = self.calls.saturating_add(1);
        self.appends = self.appends.saturating_add(1);
        find_snag(&self.list, self.calls, Some(self.appends))
    }

    /// Counts a fault.
    pub(crate) fn count_fault(&mut self)
        ensures faults { self.new ≡ record self.old { faults = next_number self.old.faults } }
        ensures cause { CountsFaults self.old.faults self.new.faults true }
    {
        self.faults = self.faults.saturating_add(1);
    }
}

/// How many bytes the first snag takes that names the call.
fn find_snag(snags: &[Snag], number: u64, append: Option<u64>) -> Option<u32>
    ensures { result ≡ bytes_taken snags.now number append }
{
    let snag = snags.iter().find(|snag| is_named(**snag, number, append))?;
    Some(snag.taken)
}

fn is_named(snag: Snag, number: u64, append: Option<u64>) -> bool
    ensures { result ≡ names_call number append snag }
{
    let call = u64::from(snag.call);
    if snag.appends_only {
        match append {
            Some(n) => call == n,
            None => false,
        }
    } else {
        call == number
    }
}

/// The first `count` bytes, or all where there are fewer.
pub(crate) fn first_bytes(bytes: &[u8], count: u32) -> &[u8]
    ensures value { result.now ≡ take count bytes.now }
    ensures prefix { IsPrefix result.now bytes.now }
{
    &bytes[..(count as usize).min(bytes.len())]
}
