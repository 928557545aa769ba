use std::alloc::AllocFailed;
use std::error::Error;
use std::fmt;
use wave_read::WaveFault;

/// Why the sound files of resources weren't fetched. Resources are numbered from 0 in their order.
#[derive(Clone, Copy, Debug, PartialEq, Eq)]
pub enum LibFault {
    /// The store of files failed.
    DepotFault,
    /// The file of the resource of this number isn't there.
    Absent { resource: u32 },
    /// The file of the resource of this number has more than `limit` bytes, or with it the sum of
    /// all files up to it does.
    TooLong { resource: u32, limit: u64 },
    /// The file of the resource of this number is refused, by its first fault.
    File { resource: u32, fault: WaveFault },
    /// There was no memory.
    OutOfMemory,
}

/// What is wrong, and the number of the resource.
impl fmt::Display for LibFault {
    ghost use Rattle.std.specs.Prelude.{Some};
    ghost use Rattle.resource_mgr.specs.FaultText.{fault_text};

    ghost output = { λ fault. Some (fault_text fault) };

    fn fmt<W: fmt::Write>(&self, f: &mut fmt::Formatter<W>) -> fmt::Result {
        match self {
            LibFault::DepotFault => f.write_str("depot failed"),
            LibFault::Absent { resource } => write!(f, "absent: resource {resource}"),
            LibFault::TooLong { resource, limit } => {
                write!(f, "too long: resource {resource} limit {limit}")
            }
            LibFault::File { resource, fault } => write!(f, "file: resource {resource}: {fault}"),
            LibFault::OutOfMemory => f.write_str("out of memory"),
        }
    }
}

impl Error for LibFault {}

impl<T: Drop> From<AllocFailed<T>> for LibFault {
    ghost use Rattle.std.specs.Prelude.{◌≡◌};
    ghost use Rattle.resource_mgr.specs.declared.lib_fault.LibFault.TheVariants.{OutOfMemory as NoMemory};

    ghost from_gives = { λ _ fault. fault ≡ NoMemory };

    fn from(_: AllocFailed<T>) -> Self {
        LibFault::OutOfMemory
    }
}
