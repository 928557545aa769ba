//! The file that is open in a store: pieces that are appended to it, and where that stops.

ghost use Rattle.std.specs.Prelude.{◌≡◌, ℕ, List, None, Some, IsSome};
ghost use Rattle.snd_io.specs.Answers.{put_failed};
ghost use Rattle.snd_io.specs.Faults.{CountsFaults};
ghost use Rattle.snd_io.specs.Runs.{RunOfAppends};
ghost use Rattle.engine.specs.RunAnswers.{answer_of, fault_answer};

use crate::run_fault::RunFault;
use snd_io::{Depot, Put};
use std::alloc::Global;

/// Appends bytes to the open file.
///
/// # Errors
///
/// [`RunFault::DepotFault`] where the store failed, and [`RunFault::OutOfMemory`] where there was no memory. Then a prefix of the
/// bytes was appended, and no file is open.
pub fn append<D: Depot>(alloc: Global, depot: &mut D, bytes: &[u8]) -> Result<(), RunFault>
    requires writing { IsSome (D.writing depot.old) }
    ensures after { (name : List ℕ) → D.writing depot.old ≡ Some name →
        RunOfAppends (answer_of result) name bytes.now (D.files depot.old) (D.files depot.new) (D.writing depot.new) }
    ensures cause { CountsFaults (D.faults depot.old) (D.faults depot.new) (put_failed (answer_of result)) }
{
    done(depot.append(alloc, bytes))
}

/// Ends the open file where there is no memory for more of it. The fault is want of memory, or that of the
/// store where this fails.
pub fn without_memory<D: Depot>(depot: &mut D) -> RunFault
    requires writing { IsSome (D.writing depot.old) }
    ensures files { D.files depot.new ≡ D.files depot.old }
    ensures closed { D.writing depot.new ≡ None }
    ensures cause { CountsFaults (D.faults depot.old) (D.faults depot.new) (put_failed (fault_answer result)) }
{
    match depot.finish() {
        Put::Failed => RunFault::DepotFault,
        Put::Done | Put::OutOfMemory => RunFault::OutOfMemory,
    }
}

/// What a store answered, as a result.
///
/// # Errors
///
/// [`RunFault::DepotFault`] exactly where it failed, and [`RunFault::OutOfMemory`] exactly where it found no memory.
pub fn done(put: Put) -> Result<(), RunFault>
    ensures { answer_of result ≡ put }
{
    put.into_result()?;
    Ok(())
}
