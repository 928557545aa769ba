//! What can be wrong with a block.

use std::error::Error;
use std::fmt;

/// Why a block is not decoded.
#[derive(Clone, Copy, Debug, PartialEq, Eq)]
pub enum ImaFault {
    /// The header of this channel has an index that the step table lacks, one above 88.
    StepIndex { channel: u8, found: u8 },
}

impl fmt::Display for ImaFault {
    ghost use Rattle.std.specs.Prelude.{Some};
    ghost use Rattle.ima_adpcm.specs.Faults.{fault_text};

    ghost output = { λ fault. Some (fault_text fault) };

    fn fmt<W: fmt::Write>(&self, f: &mut fmt::Formatter<W>) -> fmt::Result {
        match *self {
            ImaFault::StepIndex { channel, found } => {
                write!(f, "channel {channel} has step index {found}, above 88")
            }
        }
    }
}

impl Error for ImaFault {}
