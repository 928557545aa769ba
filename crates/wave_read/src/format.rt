//! The body of a `fmt ` chunk.

ghost use Rattle.std.specs.Prelude.{◌≡◌, ℕ, ◌+◌, ◌*◌, ◌^◌, ◌<◌, ◌≤◌, length, IfOk, OnOk};
ghost use Rattle.wave_read.specs.Format.{has_sub_format_tag, tag_of, kind_of, channel_count, sample_rate, pcm_width, sample_width, format_of};
ghost use Rattle.wave_read.specs.Laws.{IsFormat};

use crate::kind::Kind;
use crate::numbers::{u16_at, u32_at};
use crate::wave_fault::WaveFault;

const EXTENSIBLE: u16 = 0xfffe;

/// Bytes of the fields that each format has, and of an extensible one.
const FIELDS_LEN: usize = 16;

const EXTENSIBLE_LEN: usize = 40;

/// What follows the tag in the SubFormat of an extensible format.
const SUB_FORMAT_TAIL: [u8; 14] = [0, 0, 0, 0, 16, 0, 128, 0, 0, 170, 0, 56, 155, 113];

const MAX_CHANNELS: u16 = 8;

const MAX_RATE: u32 = 768_000;

const MAX_CONTAINER: u16 = 4;

/// Bytes of one channel in the header of an IMA block, and in each group after it.
pub const IMA_WORD: u16 = 4;

/// What a `fmt ` chunk says of the sound.
#[derive(Clone, Copy)]
pub struct Format {
    pub kind: Kind,
    pub channels: u8,
    pub rate: u32,
    pub width: u8,
    pub align: u32,
}

/// Whether the SubFormat of an extensible format is a tag.
#[tactic(auto, unfolding(crate::specs::Format::has_sub_format_tag))]
fn has_sub_format_tag(body: &[u8]) -> bool
    requires { 40 ≤ length body.now }
    ensures { result ≡ has_sub_format_tag body.now }
{
    body[26..].starts_with(&SUB_FORMAT_TAIL)
}

/// The format tag, for an extensible format that of its SubFormat.
#[tactic(auto, unfolding(crate::specs::Format::tag_of))]
fn format_tag(body: &[u8]) -> Result<u16, WaveFault>
    requires { length body.now < 2 ^ 32 }
    ensures value { result ≡ tag_of body.now }
    ensures long { OnOk result (16 ≤ length body.now) }
{
    if body.len() < FIELDS_LEN {
        return Err(WaveFault::FmtShort {
            len: body.len() as u32,
        });
    }
    let tag = u16_at(body, 0);
    if tag != EXTENSIBLE {
        return Ok(tag);
    }
    if body.len() < EXTENSIBLE_LEN {
        return Err(WaveFault::FmtShort {
            len: body.len() as u32,
        });
    }
    if !has_sub_format_tag(body) {
        return Err(WaveFault::Unsupported { tag });
    }
    Ok(u16_at(body, 24))
}

fn kind_of(tag: u16) -> Result<Kind, WaveFault>
    ensures { result ≡ kind_of tag }
{
    match tag {
        1 => Ok(Kind::Pcm),
        6 => Ok(Kind::Alaw),
        7 => Ok(Kind::Ulaw),
        17 => Ok(Kind::Ima),
        _ => Err(WaveFault::Unsupported { tag }),
    }
}

fn channel_count(n: u16) -> Result<u8, WaveFault>
    ensures value { result ≡ channel_count n }
    ensures range { IfOk result (λ c. (1 ≤ c) × (c ≤ 8)) }
{
    if 1 <= n && n <= MAX_CHANNELS {
        Ok(n as u8)
    } else {
        Err(WaveFault::Channels { n })
    }
}

fn sample_rate(n: u32) -> Result<u32, WaveFault>
    ensures { result ≡ sample_rate n }
{
    if 1 <= n && n <= MAX_RATE {
        Ok(n)
    } else {
        Err(WaveFault::Rate { n })
    }
}

/// The bits of a sample's container for linear PCM.
#[tactic(auto, unfolding(crate::specs::Format::pcm_width))]
fn pcm_width(channels: u8, align: u16, bits: u16) -> Result<u8, WaveFault>
    requires { 1 ≤ channels }
    ensures { result ≡ pcm_width channels align bits }
{
    let channels = u16::from(channels);
    let container = align / channels;
    let is_whole = align % channels == 0 && 1 <= container && container <= MAX_CONTAINER;
    if is_whole && 1 <= bits && bits <= 8 * container {
        Ok(8 * container as u8)
    } else {
        Err(WaveFault::Width { bits, align })
    }
}

fn sample_width(kind: Kind, channels: u8, align: u16, bits: u16) -> Result<u8, WaveFault>
    requires low { 1 ≤ channels }
    requires high { channels ≤ 8 }
    ensures { result ≡ sample_width kind channels align bits }
{
    let word = IMA_WORD * u16::from(channels);
    match kind {
        Kind::Pcm => pcm_width(channels, align, bits),
        Kind::Alaw | Kind::Ulaw if align == u16::from(channels) => Ok(8),
        Kind::Alaw | Kind::Ulaw => Err(WaveFault::Width { bits, align }),
        Kind::Ima if word <= align && align % word == 0 => Ok(4),
        Kind::Ima => Err(WaveFault::ImaAlign { align }),
    }
}

impl Format {
    /// Reads the body of a `fmt ` chunk. The average of bytes a second is not looked at, nor are
    /// the fields of an extensible format between its bits and its SubFormat.
    #[tactic(auto, unfolding(crate::specs::Format::format_of))]
    pub fn read(body: &[u8]) -> Result<Format, WaveFault>
        requires { length body.now < 2 ^ 32 }
        ensures exact { result ≡ format_of body.now }
        ensures lawful { IfOk result (λ f. IsFormat f) }
    {
        let kind = kind_of(format_tag(body)?)?;
        let channels = channel_count(u16_at(body, 2))?;
        let rate = sample_rate(u32_at(body, 4))?;
        let align = u16_at(body, 12);
        let width = sample_width(kind, channels, align, u16_at(body, 14))?;
        let align = u32::from(align);
        Ok(Format {
            kind,
            channels,
            rate,
            width,
            align,
        })
    }
}
