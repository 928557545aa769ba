//! How many frames a sound has.

ghost use Rattle.std.specs.Prelude.{◌≡◌, ◌+◌, ◌*◌, ◌^◌, ◌<◌, ◌≤◌};
ghost use Rattle.wave_read.specs.Frames.{frames_per_block, frames_in_short_block, frames_held, counted, frame_count};
ghost use Rattle.wave_read.specs.Laws.{IsFormat};

use crate::format::{Format, IMA_WORD};
use crate::kind::Kind;

/// Frames of a whole IMA block of `align` bytes.
#[tactic(auto, unfolding(crate::specs::Frames::frames_per_block))]
pub fn frames_per_block(align: u32, channels: u8) -> u64
    requires some { 1 ≤ channels }
    requires header { 4 * channels ≤ align }
    ensures { result ≡ frames_per_block align channels }
{
    let channels = u64::from(channels);
    2 * (u64::from(align) - u64::from(IMA_WORD) * channels) / channels + 1
}

/// Frames of a last IMA block of only `len` bytes: one in its header, and eight in each whole group
/// of words after it.
#[tactic(auto, unfolding(crate::specs::Frames::frames_in_short_block))]
fn frames_in_short_block(len: u64, channels: u8) -> u64
    requires some { 1 ≤ channels }
    requires short { len < 2 ^ 32 }
    ensures { result ≡ frames_in_short_block len channels }
{
    let word = u64::from(IMA_WORD) * u64::from(channels);
    if len < word {
        0
    } else {
        1 + 8 * ((len - word) / word)
    }
}

/// Frames of the IMA blocks in `data_len` bytes, the short last one among them.
#[tactic(auto, unfolding(crate::specs::Frames::frames_held))]
fn frames_held(align: u32, channels: u8, data_len: u64) -> u64
    requires some { 1 ≤ channels }
    requires header { 4 * channels ≤ align }
    requires fits { data_len < 2 ^ 63 }
    ensures { result ≡ frames_held align channels data_len }
{
    let whole_blocks = data_len / u64::from(align);
    let short_len = data_len % u64::from(align);
    whole_blocks * frames_per_block(align, channels) + frames_in_short_block(short_len, channels)
}

/// The frames that are there, or as many as a `fact` chunk counts, where it counts some and fewer.
fn counted(count: Option<u32>, frames: u64) -> u64
    ensures { result ≡ counted count frames }
{
    match count {
        Some(count) if 0 < count => frames.min(u64::from(count)),
        _ => frames,
    }
}

/// The frames of a sound of this format in `data_len` bytes.
pub fn frame_count(format: &Format, data_len: u64, count: Option<u32>) -> u64
    requires lawful { IsFormat format.now }
    requires fits { data_len < 2 ^ 63 }
    ensures { result ≡ frame_count format.now data_len count }
{
    match format.kind {
        Kind::Pcm | Kind::Alaw | Kind::Ulaw => data_len / u64::from(format.align),
        Kind::Ima => counted(count, frames_held(format.align, format.channels, data_len)),
    }
}
