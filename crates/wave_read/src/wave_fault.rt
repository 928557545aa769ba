use std::error::Error;
use std::fmt;

/// Why a file is refused. Where several hold, the first is answered, in the order of `survey`.
#[derive(Clone, Copy, Debug, PartialEq, Eq)]
pub enum WaveFault {
    /// The file doesn't begin with `RIFF` or `RF64`.
    NotRiff,
    /// The form at byte 8 isn't `WAVE`.
    NotWave,
    /// An RF64 file doesn't begin with a whole `ds64` chunk of at least 28 bytes.
    Ds64Missing,
    /// The chunk at byte `at`, which is no `data`, passes the end of the file, and `fmt ` or `data`
    /// is still missing.
    ChunkPastEnd { at: u64 },
    /// There is no `fmt ` chunk.
    NoFmt,
    /// The `fmt ` chunk has only `len` bytes.
    FmtShort { len: u32 },
    /// The format tag is none of 1, 6, 7 and 17; 65534 is an extensible format whose SubFormat is
    /// no tag.
    Unsupported { tag: u16 },
    /// The number of channels isn't from 1 to 8.
    Channels { n: u16 },
    /// The frames a second aren't from 1 to 768000.
    Rate { n: u32 },
    /// PCM: the `align` bytes of a frame are no container of 1 to 4 bytes a channel, or the `bits`
    /// are 0 or more than it has. G.711: `align` isn't one byte a channel.
    Width { bits: u16, align: u16 },
    /// The bytes of an IMA block are no positive multiple of four bytes a channel.
    ImaAlign { align: u16 },
    /// A block's header has the step index `found` above 88.
    StepIndex { block: u64, channel: u8, found: u8 },
    /// There is no `data` chunk.
    NoData,
}

/// The fault's name and then its fields in order, each after a space.
impl fmt::Display for WaveFault {
    ghost use Rattle.std.specs.Prelude.{Some};
    ghost use Rattle.wave_read.specs.FaultText.{fault_text};

    ghost output = { λ fault. Some (fault_text fault) };

    fn fmt<W: fmt::Write>(&self, f: &mut fmt::Formatter<W>) -> fmt::Result {
        match *self {
            WaveFault::NotRiff => f.write_str("NotRiff"),
            WaveFault::NotWave => f.write_str("NotWave"),
            WaveFault::Ds64Missing => f.write_str("Ds64Missing"),
            WaveFault::ChunkPastEnd { at } => write!(f, "ChunkPastEnd {at}"),
            WaveFault::NoFmt => f.write_str("NoFmt"),
            WaveFault::FmtShort { len } => write!(f, "FmtShort {len}"),
            WaveFault::Unsupported { tag } => write!(f, "Unsupported {tag}"),
            WaveFault::Channels { n } => write!(f, "Channels {n}"),
            WaveFault::Rate { n } => write!(f, "Rate {n}"),
            WaveFault::Width { bits, align } => write!(f, "Width {bits} {align}"),
            WaveFault::ImaAlign { align } => write!(f, "ImaAlign {align}"),
            WaveFault::StepIndex {
                block,
                channel,
                found,
            } => write!(f, "StepIndex {block} {channel} {found}"),
            WaveFault::NoData => f.write_str("NoData"),
        }
    }
}

impl Error for WaveFault {}
