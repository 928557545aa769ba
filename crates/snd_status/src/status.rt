ghost use Rattle.std.specs.Prelude.{◌≡◌};

use plain_data::{OutOfMemory, Text};
use scene_script::{SceneFault, ScriptError};
use snd_io::PutFault;
use std::alloc::AllocFailed;
use std::fmt;
use wave_read::WaveFault;

/// How a command ended.
#[derive(Debug, PartialEq, Eq, Drop)]
pub enum Status {
    /// It did all that its words ask for.
    Done,
    /// There was no memory.
    OutOfMemory,
    /// The word with this number, counted from 0 after the program's name, doesn't fit, is missing, or
    /// is one too many.
    Usage { word: u32 },
    /// The store of files failed.
    DepotFault,
    /// There is no file of this name.
    Absent { name: Text },
    /// The file of this name, or with it the sum of all sound files, has more than `limit` bytes.
    TooLong { name: Text, limit: u64 },
    /// The script is refused.
    Script(SceneFault),
    /// The sound file of the resource of this number, counted from 0, is refused. `info` says 0.
    File { resource: u32, fault: WaveFault },
    /// The text that the command prints couldn't be written. All files are.
    TextFault,
}

impl Status {
    ghost use Rattle.snd_status.specs.Statuses.{code};

    /// The number with which the program ends.
    pub fn code(&self) -> u8
        ensures { result ≡ code self.now }
    {
        match self {
            Status::Done => 0,
            Status::OutOfMemory => 1,
            Status::Usage { .. } => 2,
            Status::DepotFault => 3,
            Status::Absent { .. } => 4,
            Status::TooLong { .. } => 5,
            Status::Script(_) => 6,
            Status::File { .. } => 7,
            Status::TextFault => 8,
        }
    }
}

/// The text of a status: that of a refusal names what is refused, by its place and its value.
impl fmt::Display for Status {
    ghost use Rattle.std.specs.Prelude.{Some};
    ghost use Rattle.snd_status.specs.Texts.{status_text};

    ghost output = { λ status. Some (status_text status) };

    fn fmt<W: fmt::Write>(&self, f: &mut fmt::Formatter<W>) -> fmt::Result {
        match self {
            Status::Done => f.write_str("done"),
            Status::OutOfMemory => f.write_str("out of memory"),
            Status::Usage { word } => write!(f, "usage: word {word}"),
            Status::DepotFault => f.write_str("depot failed"),
            Status::Absent { name } => write!(f, "absent: {}", name.as_str()),
            Status::TooLong { name, limit } => {
                write!(f, "too long: {} limit {limit}", name.as_str())
            }
            Status::Script(fault) => write!(f, "script: {fault}"),
            Status::File { resource, fault } => write!(f, "file: {resource}: {fault}"),
            Status::TextFault => f.write_str("text failed"),
        }
    }
}

impl From<OutOfMemory> for Status {
    ghost use Rattle.std.specs.Prelude.{◌≡◌};
    ghost use Rattle.snd_status.specs.declared.status.Status.TheVariants.{OutOfMemory as NoMemory};

    ghost from_gives = { λ _ status. status ≡ NoMemory };

    fn from(_: OutOfMemory) -> Self {
        Status::OutOfMemory
    }
}

impl<T: Drop> From<AllocFailed<T>> for Status {
    ghost use Rattle.std.specs.Prelude.{◌≡◌};
    ghost use Rattle.snd_status.specs.declared.status.Status.TheVariants.{OutOfMemory as NoMemory};

    ghost from_gives = { λ _ status. status ≡ NoMemory };

    fn from(_: AllocFailed<T>) -> Self {
        Status::OutOfMemory
    }
}

/// Of a file that the store didn't take.
impl From<PutFault> for Status {
    ghost use Rattle.std.specs.Prelude.{◌≡◌};
    ghost use Rattle.snd_status.specs.Statuses.{put_status};

    ghost from_gives = { λ fault status. status ≡ put_status fault };

    fn from(fault: PutFault) -> Self {
        match fault {
            PutFault::Failed => Status::DepotFault,
            PutFault::OutOfMemory => Status::OutOfMemory,
        }
    }
}

impl From<ScriptError> for Status {
    ghost use Rattle.std.specs.Prelude.{◌≡◌};
    ghost use Rattle.snd_status.specs.Statuses.{script_status};

    ghost from_gives = { λ error status. status ≡ script_status error };

    fn from(error: ScriptError) -> Self {
        match error {
            ScriptError::Fault(fault) => Status::Script(fault),
            ScriptError::OutOfMemory => Status::OutOfMemory,
        }
    }
}
