//! A part of a block, for a reader that stops inside a block and goes on.

ghost use Rattle.std.specs.Prelude.{◌≡◌, ℕ, ◌+◌, ◌-◌, ◌*◌, ◌<◌, ◌≤◌, length, pos, slice_index_or};
ghost use Rattle.ima_adpcm.specs.Blocks.{block_frames, block_sample, block_state, header_index};
ghost use Rattle.ima_adpcm.specs.Decoder.{State};
ghost use Rattle.ima_adpcm.specs.Frames.{ChannelWritten, DecodersAt, FramesAre};
ghost use Rattle.ima_adpcm.specs.Quantizer.{last_index};

use crate::block::{channel_into, header, put};
use crate::ima::Ima;
use std::ops::Range;

/// Writes frames 0 to `count - 1` of one channel, and answers its decoder at the last of them.
fn channel_start_into(block: &[u8], ch: u8, c: u8, count: usize, out: &mut [i16]) -> Ima
    requires channel { c < ch }
    requires some { 0 < count }
    requires there { count ≤ block_frames (length block.now) ch }
    requires indices { header_index block.now c ≤ last_index }
    requires room { count * ch ≤ length out.old }
    ensures decoder { result ≡ block_state block.now ch c (count - 1) }
    ensures written { ChannelWritten ch c 0 count (block_sample block.now ch c) out.old out.new }
{
    let Some(first) = header(block, c) else {
        unreachable!()
    };
    put(out, ch, 0, c, first.predictor());
    channel_into(block, ch, c, 0..count - 1, first, out, 1)
}

/// Writes the frames `frames` of one channel, whose decoder before the first of them is `before`,
/// and answers its decoder at the last of them.
fn channel_part_into(
    block: &[u8],
    ch: u8,
    c: u8,
    frames: Range<usize>,
    before: Ima,
    out: &mut [i16],
) -> Ima
    requires channel { c < ch }
    requires some { frames.start < frames.end }
    requires there { frames.end ≤ block_frames (length block.now) ch }
    requires indices { header_index block.now c ≤ last_index }
    requires stands { 0 < frames.start → before ≡ block_state block.now ch c (frames.start - 1) }
    requires room { (frames.end - frames.start) * ch ≤ length out.old }
    ensures decoder { result ≡ block_state block.now ch c (frames.end - 1) }
    ensures written { ChannelWritten ch c 0 (frames.end - frames.start)
        (λ i. block_sample block.now ch c (frames.start + i)) out.old out.new }
{
    if frames.start == 0 {
        return channel_start_into(block, ch, c, frames.end, out);
    }
    let codes = frames.start - 1..frames.end - 1;
    channel_into(block, ch, c, codes, before, out, 0)
}

/// Decodes the frames `frames` of a block of `ch` channels to the front of `out`, interleaved: the
/// sample of channel `c` in frame `f` of the block goes to `(f - frames.start) * ch + c`. The rest of
/// `out` stays as it was.
///
/// `decoders` are those of the channels, and further ones stay as they were. Before frame 0 they may
/// be any, and the block's headers are read; before a later frame they stand at the frame before
/// `frames.start`, as an earlier part left them. They are left at the last of `frames`.
///
/// Conditions: there are at least as many decoders as channels, any number of them; `frames` is not
/// empty and lies in the block; `out` has room for it; all headers have a step index of at most 88.
pub fn part_into(block: &[u8], ch: u8, frames: Range<usize>, decoders: &mut [Ima], out: &mut [i16])
    requires decoders { ch ≤ length decoders.old }
    requires some { frames.start < frames.end }
    requires there { frames.end ≤ block_frames (length block.now) ch }
    requires indices { (c : ℕ) → c < ch → header_index block.now c ≤ last_index }
    requires stand { 0 < frames.start → DecodersAt block.now ch (frames.start - 1) decoders.old }
    requires room { (frames.end - frames.start) * ch ≤ length out.old }
    ensures stand { DecodersAt block.now ch (frames.end - 1) decoders.new }
    ensures written { FramesAre ch (frames.end - frames.start)
        (λ f c. block_sample block.now ch c (frames.start + f)) out.new }
    ensures others { (c : ℕ) (other : State) → ch ≤ c →
        slice_index_or decoders.new c other ≡ slice_index_or decoders.old c other }
    ensures rest { (k : ℕ) → (frames.end - frames.start) * ch ≤ k →
        slice_index_or out.new k (pos 0) ≡ slice_index_or out.old k (pos 0) }
{
    for c in 0..ch {
        let before = decoders[usize::from(c)];
        decoders[usize::from(c)] = channel_part_into(
            block,
            ch,
            c,
            frames.start..frames.end,
            before,
            out,
        );
    }
}
