//! A WAVE file from its beginning to its end.

ghost use Rattle.std.specs.Prelude.{◌≡◌, ◌+◌, ◌≤◌, length, IfOk, OnOk};
ghost use Rattle.wave_read.specs.Wave.{has_ds64, opening, wave};
ghost use Rattle.wave_read.specs.Laws.{IsWaveOf};

use crate::chunks::{DS64, FIRST_CHUNK, HEADER_LEN, RF64, RIFF, WAVE};
use crate::numbers::{u32_at, u64_at};
use crate::walk::walk;
use crate::wave::Wave;
use crate::wave_fault::WaveFault;

/// Bytes that a `ds64` chunk has at least.
const DS64_LEN: usize = 28;

/// Whether the first chunk is a whole `ds64`.
fn has_ds64(bytes: &[u8]) -> bool
    ensures { result ≡ has_ds64 bytes.now }
{
    let from = FIRST_CHUNK + HEADER_LEN;
    if bytes.len() < from + DS64_LEN {
        return false;
    }
    let size = u32_at(bytes, FIRST_CHUNK + 4) as usize;
    u32_at(bytes, FIRST_CHUNK) == DS64 && DS64_LEN <= size && size <= bytes.len() - from
}

/// The dataSize of an RF64 file, and `None` of a RIFF file.
#[tactic(auto, unfolding(crate::specs::Wave::opening))]
fn opening(bytes: &[u8]) -> Result<Option<u64>, WaveFault>
    ensures value { result ≡ opening bytes.now }
    ensures long { OnOk result (12 ≤ length bytes.now) }
{
    if bytes.len() < 4 {
        return Err(WaveFault::NotRiff);
    }
    let id = u32_at(bytes, 0);
    if id != RIFF && id != RF64 {
        return Err(WaveFault::NotRiff);
    }
    if bytes.len() < FIRST_CHUNK || u32_at(bytes, 8) != WAVE {
        return Err(WaveFault::NotWave);
    }
    if id == RIFF {
        return Ok(None);
    }
    if !has_ds64(bytes) {
        return Err(WaveFault::Ds64Missing);
    }
    Ok(Some(u64_at(bytes, FIRST_CHUNK + HEADER_LEN + 8)))
}

/// What a WAVE file says of its sound, or the first fault.
///
/// The fields of the `Wave` are in bytes, bits, frames and frames a second, as `Wave` says. Each
/// chunk is passed over by its size, and no memory is taken. The rules are Microsoft's for RIFF
/// WAVE files and the extensible format, and those of EBU Tech 3306 for RF64.
///
/// # Errors
///
/// [`WaveFault`], the first in this order:
///
/// The file begins with `RIFF` or `RF64`, a size that is not looked at, and `WAVE` (else `NotRiff`,
/// `NotWave`). In an RF64 file a whole `ds64` chunk of at least 28 bytes is next (else
/// `Ds64Missing`), whose dataSize is the size of a `data` chunk that states 2^32 - 1. The first
/// `fmt ` chunk is read (`FmtShort`, `Unsupported`, `Channels`, `Rate`, `Width`, `ImaAlign`), the
/// first `data` chunk is the sound, cut at the end of the file, and the first `fact` chunk of at
/// least four bytes counts the frames of IMA. Where `fmt ` or `data` is missing, a chunk that
/// passes the end of the file is `ChunkPastEnd`, else the file is `NoFmt` or `NoData`. At last, for
/// IMA, the first step index above 88 in the order of blocks and channels is `StepIndex`.
pub fn survey(bytes: &[u8]) -> Result<Wave, WaveFault>
    ensures exact { result ≡ wave bytes.now }
    ensures lawful { IfOk result (λ w. IsWaveOf bytes.now w) }
{
    let data_size = opening(bytes)?;
    walk(bytes, data_size)
}
