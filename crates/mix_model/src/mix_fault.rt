use plain_data::OutOfMemory;
use snd_io::PutFault;
use std::error::Error;
use std::fmt;

/// Why a mix was not written whole.
#[derive(Clone, Copy, Debug, PartialEq, Eq)]
pub enum MixFault {
    /// The sink failed, and its count of faults rose.
    SinkFault,
    /// There was no memory.
    OutOfMemory,
}

impl fmt::Display for MixFault {
    ghost use Rattle.std.specs.Prelude.{Some};
    ghost use Rattle.mix_model.specs.Faults.{fault_text};

    ghost output = { λ fault. Some (fault_text fault) };

    fn fmt<W: fmt::Write>(&self, f: &mut fmt::Formatter<W>) -> fmt::Result {
        match self {
            MixFault::SinkFault => f.write_str("sink failed"),
            MixFault::OutOfMemory => f.write_str("out of memory"),
        }
    }
}

impl Error for MixFault {}

impl From<OutOfMemory> for MixFault {
    ghost use Rattle.std.specs.Prelude.{◌≡◌};
    ghost use Rattle.mix_model.specs.declared.mix_fault.MixFault.TheVariants.{OutOfMemory as NoMemory};

    ghost from_gives = { λ _ fault. fault ≡ NoMemory };

    fn from(_: OutOfMemory) -> Self {
        MixFault::OutOfMemory
    }
}

impl From<PutFault> for MixFault {
    ghost use Rattle.std.specs.Prelude.{◌≡◌};
    ghost use Rattle.mix_model.specs.Faults.{put_fault};

    ghost from_gives = { λ fault mix_fault. mix_fault ≡ put_fault fault };

    fn from(fault: PutFault) -> Self {
        match fault {
            PutFault::Failed => MixFault::SinkFault,
            PutFault::OutOfMemory => MixFault::OutOfMemory,
        }
    }
}
