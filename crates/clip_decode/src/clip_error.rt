use std::alloc::AllocFailed;
use std::error::Error;
use std::fmt;
use wave_read::WaveFault;

/// Why a file makes no clip.
#[derive(Clone, Copy, Debug, PartialEq, Eq)]
pub enum ClipError {
    /// The file is refused, by its first fault.
    Fault(WaveFault),
    /// There was no memory.
    OutOfMemory,
}

/// The text of the file's fault, or `out of memory`.
impl fmt::Display for ClipError {
    ghost use Rattle.std.specs.Prelude.{Some};
    ghost use Rattle.clip_decode.specs.ErrorText.{error_text};

    ghost output = { λ error. Some (error_text error) };

    fn fmt<W: fmt::Write>(&self, f: &mut fmt::Formatter<W>) -> fmt::Result {
        match self {
            ClipError::Fault(fault) => write!(f, "{fault}"),
            ClipError::OutOfMemory => f.write_str("out of memory"),
        }
    }
}

impl Error for ClipError {}

impl From<WaveFault> for ClipError {
    ghost use Rattle.std.specs.Prelude.{◌≡◌};
    ghost use Rattle.clip_decode.specs.declared.clip_error.ClipError.TheVariants.{Fault};

    ghost from_gives = { λ fault error. error ≡ Fault fault };

    fn from(fault: WaveFault) -> Self {
        ClipError::Fault(fault)
    }
}

impl<T: Drop> From<AllocFailed<T>> for ClipError {
    ghost use Rattle.std.specs.Prelude.{◌≡◌};
    ghost use Rattle.clip_decode.specs.declared.clip_error.ClipError.TheVariants.{OutOfMemory};

    ghost from_gives = { λ _ error. error ≡ OutOfMemory };

    fn from(_: AllocFailed<T>) -> Self {
        ClipError::OutOfMemory
    }
}
