ghost use Rattle.std.specs.Prelude.{◌≡◌};
ghost use Rattle.snd_io.specs.Answers.{fetch_of, put_of};

use plain_data::OutOfMemory;
use std::error::Error;
use std::fmt;

/// How a store answers where a file is asked for.
#[derive(Clone, Copy, Debug, PartialEq, Eq)]
pub enum Fetch {
    /// The file's bytes were given.
    Fetched,
    /// There is no file of that name.
    Absent,
    /// The file has more bytes than the limit.
    TooLong,
    /// The store failed, and its count of faults rose, unless it stood at the last number of a u64.
    Failed,
    /// There was no memory.
    OutOfMemory,
}

/// How a store or a sink answers where something is written.
#[derive(Clone, Copy, Debug, PartialEq, Eq)]
pub enum Put {
    /// All of it was written.
    Done,
    /// The store or the sink failed, and its count of faults rose, unless it stood at the last number
    /// of a u64.
    Failed,
    /// There was no memory.
    OutOfMemory,
}

/// Why a file wasn't given.
#[derive(Clone, Copy, Debug, PartialEq, Eq)]
pub enum FetchFault {
    /// There is no file of that name.
    Absent,
    /// The file has more bytes than the limit.
    TooLong,
    /// The store failed.
    Failed,
    /// There was no memory.
    OutOfMemory,
}

/// Why something wasn't written.
#[derive(Clone, Copy, Debug, PartialEq, Eq)]
pub enum PutFault {
    /// The store or the sink failed.
    Failed,
    /// There was no memory.
    OutOfMemory,
}

impl Fetch {
    /// The answer as a result.
    pub fn into_result(self) -> Result<(), FetchFault>
        ensures { fetch_of result ≡ self }
    {
        match self {
            Fetch::Fetched => Ok(()),
            Fetch::Absent => Err(FetchFault::Absent),
            Fetch::TooLong => Err(FetchFault::TooLong),
            Fetch::Failed => Err(FetchFault::Failed),
            Fetch::OutOfMemory => Err(FetchFault::OutOfMemory),
        }
    }
}

impl Put {
    /// The answer as a result.
    pub fn into_result(self) -> Result<(), PutFault>
        ensures { put_of result ≡ self }
    {
        match self {
            Put::Done => Ok(()),
            Put::Failed => Err(PutFault::Failed),
            Put::OutOfMemory => Err(PutFault::OutOfMemory),
        }
    }
}

impl fmt::Display for FetchFault {
    ghost use Rattle.std.specs.Prelude.{Some};
    ghost use Rattle.snd_io.specs.FaultTexts.{fetch_fault_text};

    ghost output = { λ fault. Some (fetch_fault_text fault) };

    fn fmt<W: fmt::Write>(&self, f: &mut fmt::Formatter<W>) -> fmt::Result {
        match self {
            FetchFault::Absent => f.write_str("absent"),
            FetchFault::TooLong => f.write_str("too long"),
            FetchFault::Failed => f.write_str("failed"),
            FetchFault::OutOfMemory => f.write_str("out of memory"),
        }
    }
}

impl fmt::Display for PutFault {
    ghost use Rattle.std.specs.Prelude.{Some};
    ghost use Rattle.snd_io.specs.FaultTexts.{put_fault_text};

    ghost output = { λ fault. Some (put_fault_text fault) };

    fn fmt<W: fmt::Write>(&self, f: &mut fmt::Formatter<W>) -> fmt::Result {
        match self {
            PutFault::Failed => f.write_str("failed"),
            PutFault::OutOfMemory => f.write_str("out of memory"),
        }
    }
}

impl Error for FetchFault {}

impl Error for PutFault {}

impl From<OutOfMemory> for PutFault {
    ghost use Rattle.std.specs.Prelude.{◌≡◌};
    ghost use Rattle.snd_io.specs.declared.answers.PutFault.TheVariants.{OutOfMemory as NoMemory};

    ghost from_gives = { λ _ fault. fault ≡ NoMemory };

    fn from(_: OutOfMemory) -> Self {
        PutFault::OutOfMemory
    }
}
