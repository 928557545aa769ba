//! What a walk over the chunks has found so far, and what that says at the end.

ghost use Rattle.std.specs.Prelude.{◌≡◌, ℕ, ◌+◌, ◌^◌, ◌<◌, ◌≤◌, List, length, IfOk};
ghost use Rattle.std.specs.Option.{option_map};
ghost use Rattle.wave_read.specs.Chunks.{fmt_id};
ghost use Rattle.wave_read.specs.Wave.{wave_from, checked, conclude};
ghost use Rattle.wave_read.specs.Walk.{met, nothing, IsFound};
ghost use Rattle.wave_read.specs.Laws.{IsFormat, IsWaveIn};

use crate::chunks::{DATA, FACT, FMT, HEADER_LEN};
use crate::format::Format;
use crate::frames::frame_count;
use crate::kind::Kind;
use crate::numbers::u32_at;
use crate::step_indices::first_step_fault;
use crate::wave::Wave;
use crate::wave_fault::WaveFault;

/// Bytes of the count of frames in a `fact` chunk.
const COUNT_LEN: usize = 4;

/// A part of the file.
#[derive(Clone, Copy)]
pub struct Span {
    pub from: u64,
    pub len: u64,
}

/// The first `fmt `, the first `data` and the first count of a `fact`.
#[derive(Clone, Copy)]
pub struct Found {
    pub format: Option<Format>,
    pub span: Option<Span>,
    pub count: Option<u32>,
}

fn wave_from(format: &Format, span: Span, count: Option<u32>) -> Wave
    requires lawful { IsFormat format.now }
    requires fits { span.len < 2 ^ 63 }
    ensures { result ≡ wave_from format.now span count }
{
    Wave {
        kind: format.kind,
        channels: format.channels,
        rate: format.rate,
        width: format.width,
        align: format.align,
        data_from: span.from,
        data_len: span.len,
        frames: frame_count(format, span.len, count),
    }
}

/// The wave, unless it is an IMA one with a step index that is too large.
fn checked(bytes: &[u8], wave: Wave) -> Result<Wave, WaveFault>
    requires { IsWaveIn bytes.now wave }
    ensures { result ≡ checked bytes.now wave }
{
    match wave.kind {
        Kind::Pcm | Kind::Alaw | Kind::Ulaw => Ok(wave),
        Kind::Ima => match first_step_fault(bytes, &wave) {
            Some(fault) => Err(fault),
            None => Ok(wave),
        },
    }
}

impl Found {
    pub fn nothing() -> Found
        ensures { result ≡ nothing }
    {
        Found {
            format: None,
            span: None,
            count: None,
        }
    }

    /// Adds a chunk, whose body stands at `from`: the first of each kind is kept.
    #[tactic(auto, unfolding(crate::specs::Walk::met))]
    pub fn with_chunk(self, id: u32, from: usize, body: &[u8]) -> Result<Found, WaveFault>
        requires { id ≡ fmt_id → length body.now < 2 ^ 32 }
        ensures exact { result ≡ met id from body.now self }
        ensures lawful { (bytes : List ℕ) → IsFound bytes self →
            from + length body.now ≤ length bytes → IfOk result (λ found. IsFound bytes found) }
    {
        if id == FMT && self.format.is_none() {
            let format = Some(Format::read(body)?);
            return Ok(Found { format, ..self });
        }
        if id == DATA && self.span.is_none() {
            let span = Some(Span {
                from: from as u64,
                len: body.len() as u64,
            });
            return Ok(Found { span, ..self });
        }
        if id == FACT && self.count.is_none() && body.len() >= COUNT_LEN {
            let count = Some(u32_at(body, 0));
            return Ok(Found { count, ..self });
        }
        Ok(self)
    }

    /// The wave, or the fault, of a walk that ended at `end`: after the last chunk, or at a chunk
    /// that passes the end of the file.
    pub fn conclude(self, bytes: &[u8], end: usize) -> Result<Wave, WaveFault>
        requires lawful { IsFound bytes.now self }
        requires end { end ≤ length bytes.now }
        ensures { result ≡ conclude bytes.now end (option_map Ok self.format) self.span self.count }
    {
        if let (Some(format), Some(span)) = (self.format, self.span) {
            return checked(bytes, wave_from(&format, span, self.count));
        }
        if bytes.len() - end >= HEADER_LEN {
            return Err(WaveFault::ChunkPastEnd { at: end as u64 });
        }
        if self.format.is_none() {
            return Err(WaveFault::NoFmt);
        }
        Err(WaveFault::NoData)
    }
}
