//! Frames of IMA ADPCM, from any frame on, and the decoders at any frame.

ghost use Rattle.std.specs.Prelude.{◌≡◌, ◌+◌, ◌-◌, ◌*◌, ◌<◌, ◌≤◌, ◌^◌, length};
ghost use Rattle.clip_decode.specs.Cells.{Written};
ghost use Rattle.clip_decode.specs.Cursors.{ReadyAt};
ghost use Rattle.clip_decode.specs.Ima.{block_bytes, frames_per_block, frame_in_block, ima_sample};
ghost use Rattle.wave_read.specs.Laws.{IsWaveOf};

use crate::widened::widen_into;
use ima_adpcm::{Ima, block_frames};
use std::ops::Range;
use wave_read::{Kind, Wave};

/// The most frames that are decoded at once, before they are widened: eight groups of a block.
const PART_FRAMES: usize = 64;

/// Cells for that many frames of eight channels.
const PART_CELLS: usize = 512;

/// The bytes of a block, as many as the sound has of it.
#[tactic(auto, unfolding(crate::specs::Ima::block_bytes))]
fn block_at<'a>(bytes: &'a [u8], wave: &Wave, block: u64) -> &'a [u8]
    requires inside { wave.now.data_from + wave.now.data_len ≤ length bytes.now }
    requires begins { block * wave.now.align ≤ wave.now.data_len }
    ensures { result.now ≡ block_bytes bytes.now wave.now block }
{
    let skipped = block * u64::from(wave.align);
    let from = wave.data_from + skipped;
    let len = u64::from(wave.align).min(wave.data_len - skipped);
    &bytes[from as usize..(from + len) as usize]
}

/// How many frames are decoded at once from frame `first` of a block on, of which `left` are left
/// there and `most` are wanted. Parts end where a group ends, so that the next one begins with a
/// whole word.
fn part_len(first: usize, left: usize, most: u64) -> usize
    requires first { first < 2 ^ 40 }
    requires left { 0 < left }
    requires most { 0 < most }
    ensures some { 0 < result }
    ensures inside { result ≤ left }
    ensures wanted { result ≤ most }
    ensures small { result ≤ 64 }
{
    let to_group_end = PART_FRAMES - (first + PART_FRAMES - 1) % PART_FRAMES;
    let len = left.min(to_group_end);
    (len as u64).min(most) as usize
}

/// Decodes the first few of `frames` and answers how many. `out` holds the frames from `from` on,
/// and they are written behind those that it has already. `scratch` holds them before they are
/// widened.
fn part_into(
    bytes: &[u8],
    wave: &Wave,
    from: u64,
    frames: Range<u64>,
    decoders: &mut [Ima],
    scratch: &mut [i16],
    out: &mut [i32],
) -> u64
    requires lawful { IsWaveOf bytes.now wave.now }
    requires kind { wave.now.kind ≡ Kind.Ima }
    requires behind { from ≤ frames.start }
    requires some { frames.start < frames.end }
    requires there { frames.end ≤ wave.now.frames }
    requires decoders { 8 ≤ length decoders.old }
    requires scratch { 512 ≤ length scratch.old }
    requires room { (frames.end - from) * wave.now.channels ≤ length out.old }
    requires ready { ReadyAt bytes.now wave.now frames.start decoders.old }
    requires written { Written wave.now.channels (frames.start - from)
        (λ f c. ima_sample bytes.now wave.now (from + f) c) out.old }
    ensures some { 0 < result }
    ensures wanted { result ≤ frames.end - frames.start }
    ensures ready { ReadyAt bytes.now wave.now (frames.start + result) decoders.new }
    ensures written { Written wave.now.channels (frames.start + result - from)
        (λ f c. ima_sample bytes.now wave.now (from + f) c) out.new }
{
    let channels = usize::from(wave.channels);
    let per_block = block_frames(wave.align as usize, wave.channels);
    let first = (frames.start % per_block as u64) as usize;
    let len = part_len(first, per_block - first, frames.end - frames.start);
    let block = block_at(bytes, wave, frames.start / per_block as u64);
    ima_adpcm::part_into(block, wave.channels, first..first + len, decoders, scratch);
    let at = (frames.start - from) as usize;
    widen_into(scratch, len * channels, out, at * channels);
    len as u64
}

/// Decodes the frames `frames` to the front of `out`, interleaved. `decoders` are ready at the
/// first of them, and are left ready at the one after the last.
pub fn ima_into(
    bytes: &[u8],
    wave: &Wave,
    frames: Range<u64>,
    decoders: &mut [Ima],
    out: &mut [i32],
)
    requires lawful { IsWaveOf bytes.now wave.now }
    requires kind { wave.now.kind ≡ Kind.Ima }
    requires some { frames.start ≤ frames.end }
    requires there { frames.end ≤ wave.now.frames }
    requires decoders { 8 ≤ length decoders.old }
    requires room { (frames.end - frames.start) * wave.now.channels ≤ length out.old }
    requires ready { ReadyAt bytes.now wave.now frames.start decoders.old }
    ensures ready { ReadyAt bytes.now wave.now frames.end decoders.new }
    ensures written { Written wave.now.channels (frames.end - frames.start)
        (λ f c. ima_sample bytes.now wave.now (frames.start + f) c) out.new }
{
    let mut scratch = [0i16; PART_CELLS];
    let mut frame = frames.start;
    while frame < frames.end {
        frame += part_into(
            bytes,
            wave,
            frames.start,
            frame..frames.end,
            decoders,
            &mut scratch,
            out,
        );
    }
}

/// Leaves `decoders` ready at a frame, whatever they were: the block that has it is decoded from its
/// beginning up to there.
pub fn ready_at(bytes: &[u8], wave: &Wave, frame: u64, decoders: &mut [Ima])
    requires lawful { IsWaveOf bytes.now wave.now }
    requires kind { wave.now.kind ≡ Kind.Ima }
    requires there { frame ≤ wave.now.frames }
    requires decoders { 8 ≤ length decoders.old }
    ensures ready { ReadyAt bytes.now wave.now frame decoders.new }
{
    let mut unheard = [0i32; PART_CELLS];
    let per_block = block_frames(wave.align as usize, wave.channels) as u64;
    let mut at = frame - frame % per_block;
    while at < frame {
        let end = at + (frame - at).min(PART_FRAMES as u64);
        ima_into(bytes, wave, at..end, decoders, &mut unheard);
        at = end;
    }
}
