//! Whole files.

ghost use Rattle.std.specs.Prelude.{◌≡◌, None};
ghost use Rattle.snd_io.specs.Answers.{put_failed, put_of};
ghost use Rattle.snd_io.specs.Faults.{CountsFaults};
ghost use Rattle.snd_io.specs.Runs.{SetsFile};

use crate::{Depot, PutFault};
use std::alloc::Global;

/// Sets a file: creates it, appends its bytes at once, and finishes it.
///
/// # Errors
///
/// Where one of the three calls failed or found no memory the file is as before or has a first part
/// of the bytes; every other file is as before.
pub fn write_file<D: Depot>(
    alloc: Global,
    depot: &mut D,
    name: &str,
    bytes: &[u8],
) -> Result<(), PutFault>
    requires { D.writing depot.old ≡ None }
    ensures after { SetsFile (put_of result) name.now bytes.now (D.files depot.old) (D.files depot.new) }
    ensures closed { D.writing depot.new ≡ None }
    ensures cause { CountsFaults (D.faults depot.old) (D.faults depot.new) (put_failed (put_of result)) }
{
    depot.create(alloc, name).into_result()?;
    depot.append(alloc, bytes).into_result()?;
    depot.finish().into_result()
}
