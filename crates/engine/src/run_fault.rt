use plain_data::OutOfMemory;
use snd_io::PutFault;
use std::error::Error;
use std::fmt;

/// Why a scene's file was not written whole.
#[derive(Clone, Copy, Debug, PartialEq, Eq)]
pub enum RunFault {
    /// The store of files failed, and its count of faults rose.
    DepotFault,
    /// There was no memory.
    OutOfMemory,
}

impl fmt::Display for RunFault {
    ghost use Rattle.std.specs.Prelude.{Some};
    ghost use Rattle.engine.specs.RunFaultText.{run_fault_text};

    ghost output = { λ fault. Some (run_fault_text fault) };

    fn fmt<W: fmt::Write>(&self, f: &mut fmt::Formatter<W>) -> fmt::Result {
        match self {
            RunFault::DepotFault => f.write_str("depot failed"),
            RunFault::OutOfMemory => f.write_str("out of memory"),
        }
    }
}

impl Error for RunFault {}

impl From<OutOfMemory> for RunFault {
    ghost use Rattle.std.specs.Prelude.{◌≡◌};
    ghost use Rattle.engine.specs.declared.run_fault.RunFault.TheVariants.{OutOfMemory as NoMemory};

    ghost from_gives = { λ _ fault. fault ≡ NoMemory };

    fn from(_: OutOfMemory) -> Self {
        RunFault::OutOfMemory
    }
}

impl From<PutFault> for RunFault {
    ghost use Rattle.std.specs.Prelude.{◌≡◌};
    ghost use Rattle.snd_io.specs.Answers.{put_fault_of};
    ghost use Rattle.engine.specs.RunAnswers.{fault_answer};

    ghost from_gives = { λ fault run_fault. fault_answer run_fault ≡ put_fault_of fault };

    fn from(fault: PutFault) -> Self {
        match fault {
            PutFault::Failed => RunFault::DepotFault,
            PutFault::OutOfMemory => RunFault::OutOfMemory,
        }
    }
}
