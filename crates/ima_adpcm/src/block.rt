//! The blocks of the WAVE form of IMA ADPCM.

ghost use Rattle.std.specs.Prelude.{◌≡◌, ℕ, false, ◌+◌, ◌-◌, ◌*◌, ◌^◌, ◌<◌, ◌≤◌, ◌↔◌, ◌++◌};
ghost use Rattle.std.specs.Prelude.{drop, length, IsNone, IfNone, IfSome, OnOk, OnErr};
ghost use Rattle.ima_adpcm.specs.Blocks.{word_bytes, word_codes, header, header_index};
ghost use Rattle.ima_adpcm.specs.Blocks.{block_frames, block_sample, block_samples};
ghost use Rattle.ima_adpcm.specs.Faults.{first_fault, block_answer, is_faulty};
ghost use Rattle.ima_adpcm.specs.Frames.{ChannelRun, ChannelWritten, Put};
ghost use Rattle.ima_adpcm.specs.Quantizer.{last_index};

use crate::fault::ImaFault;
use crate::ima::Ima;
use crate::quantizer::LAST_INDEX;
use crate::word::{WORD_BYTES, WORD_CODES, code, code_in, word};
use std::ops::Range;

/// How many frames a block of `len` bytes with `ch` channels has: none where it lacks a header,
/// else one for the headers and eight for each whole group. Condition: `ch` is at least 1.
pub fn block_frames(len: usize, ch: u8) -> usize
    requires channels { 1 ≤ ch }
    requires fits { block_frames len ch < 2 ^ 64 }
    ensures { result ≡ block_frames len ch }
{
    let group_bytes = WORD_BYTES * usize::from(ch);
    if len < group_bytes {
        0
    } else {
        1 + WORD_CODES * ((len - group_bytes) / group_bytes)
    }
}

/// The decoder that the header of channel `c` gives; `None` exactly where its step index is above
/// 88. Its predictor is the channel's sample of frame 0.
pub(crate) fn header(block: &[u8], c: u8) -> Option<Ima>
    requires { word_bytes * c + word_bytes ≤ length block.now }
    ensures none { IsNone result ↔ (last_index < header_index block.now c) }
    ensures some { IfSome result (λ s. s ≡ header block.now c) }
{
    let place = WORD_BYTES * usize::from(c);
    let predictor = i16::from_le_bytes([block[place], block[place + 1]]);
    Ima::new(predictor, block[place + 2])
}

/// The fault of the first channel whose header has a step index that the table lacks.
fn first_fault(block: &[u8], ch: u8) -> Option<ImaFault>
    requires { word_bytes * ch ≤ length block.now }
    ensures fault { result ≡ first_fault block.now ch }
    ensures none { IfNone result ((c : ℕ) → c < ch → is_faulty block.now c ≡ false) }
{
    for channel in 0..ch {
        let found = block[WORD_BYTES * usize::from(channel) + 2];
        if found > LAST_INDEX {
            return Some(ImaFault::StepIndex { channel, found });
        }
    }
    None
}

/// Writes one sample: that of channel `c` in frame `f`.
pub(crate) fn put(out: &mut [i16], ch: u8, f: usize, c: u8, sample: i16)
    requires channel { c < ch }
    requires room { f * ch + c < length out.old }
    ensures { Put ch f c sample out.old out.new }
{
    out[f * usize::from(ch) + usize::from(c)] = sample;
}

/// Goes on with channel `c` of a block: runs `before`, the decoder before code `codes.start`, over
/// the channel's codes `codes`, writes the sample of each into `out`, interleaved, the first one
/// into frame `at`, and answers the decoder after them. Code `j` makes frame `j + 1` of the block.
pub(crate) fn channel_into(
    block: &[u8],
    ch: u8,
    c: u8,
    codes: Range<usize>,
    before: Ima,
    out: &mut [i16],
    at: usize,
) -> Ima
    requires channel { c < ch }
    requires there { codes.end < block_frames (length block.now) ch }
    requires room { (at + (codes.end - codes.start)) * ch ≤ length out.old }
    ensures { ChannelRun block.now ch c codes.start (codes.end - codes.start) at
        before result out.old out.new }
{
    if codes.end.saturating_sub(codes.start) < 2 * WORD_CODES {
        return codes_into(block, ch, c, codes, before, out, at);
    }
    let groups = codes.start.div_ceil(WORD_CODES)..codes.end / WORD_CODES;
    let whole = WORD_CODES * groups.start..WORD_CODES * groups.end;
    let middle = at + (whole.start - codes.start);
    let last = at + (whole.end - codes.start);
    let decoder = codes_into(block, ch, c, codes.start..whole.start, before, out, at);
    let decoder = words_into(block, ch, c, groups, decoder, out, middle);
    codes_into(block, ch, c, whole.end..codes.end, decoder, out, last)
}

/// The same, code by code.
fn codes_into(
    block: &[u8],
    ch: u8,
    c: u8,
    codes: Range<usize>,
    before: Ima,
    out: &mut [i16],
    at: usize,
) -> Ima
    requires channel { c < ch }
    requires there { codes.end < block_frames (length block.now) ch }
    requires room { (at + (codes.end - codes.start)) * ch ≤ length out.old }
    ensures { ChannelRun block.now ch c codes.start (codes.end - codes.start) at
        before result out.old out.new }
{
    let mut decoder = before;
    for j in codes.start..codes.end {
        let sample = decoder.step(code(block, ch, c, j));
        put(out, ch, at + (j - codes.start), c, sample);
    }
    decoder
}

/// The same for the channel's words in the groups `groups`.
fn words_into(
    block: &[u8],
    ch: u8,
    c: u8,
    groups: Range<usize>,
    before: Ima,
    out: &mut [i16],
    at: usize,
) -> Ima
    requires channel { c < ch }
    requires there { word_codes * groups.end < block_frames (length block.now) ch }
    requires room { (at + word_codes * (groups.end - groups.start)) * ch ≤ length out.old }
    ensures { ChannelRun block.now ch c (word_codes * groups.start) (word_codes * (groups.end - groups.start)) at
        before result out.old out.new }
{
    let mut decoder = before;
    for group in groups.start..groups.end {
        let first = at + WORD_CODES * (group - groups.start);
        decoder = word_into(block, ch, c, group, decoder, out, first);
    }
    decoder
}

/// The same for the channel's word in one group.
fn word_into(
    block: &[u8],
    ch: u8,
    c: u8,
    group: usize,
    before: Ima,
    out: &mut [i16],
    at: usize,
) -> Ima
    requires channel { c < ch }
    requires there { word_codes * group + word_codes < block_frames (length block.now) ch }
    requires room { (at + word_codes) * ch ≤ length out.old }
    ensures { ChannelRun block.now ch c (word_codes * group) word_codes at before result out.old out.new }
{
    let mut decoder = before;
    let word = word(block, ch, c, group);
    for i in 0..WORD_CODES {
        let sample = decoder.step(code_in(word, i));
        put(out, ch, at + i, c, sample);
    }
    decoder
}

/// Writes all frames of one channel, whose header has an index of the step table.
fn whole_channel_into(block: &[u8], ch: u8, c: u8, frames: usize, out: &mut [i16])
    requires channel { c < ch }
    requires headers { word_bytes * ch ≤ length block.now }
    requires frames { frames ≡ block_frames (length block.now) ch }
    requires indices { is_faulty block.now c ≡ false }
    requires room { frames * ch ≤ length out.old }
    ensures { ChannelWritten ch c 0 frames (block_sample block.now ch c) out.old out.new }
{
    let Some(first) = header(block, c) else {
        unreachable!()
    };
    put(out, ch, 0, c, first.predictor());
    words_into(block, ch, c, 0..frames / WORD_CODES, first, out, 1);
}

/// Decodes a block of `ch` channels, 1 to 8: writes its frames into `out`, interleaved (the sample
/// of channel `c` in frame `f` stands at `f * ch + c`), and answers their number. The rest of `out`
/// stays as it was.
///
/// A block of fewer than `4 * ch` bytes has no frames, and a last group that is not whole gives
/// none.
///
/// # Errors
///
/// [`ImaFault::StepIndex`] exactly where the block has all its headers and one of them has a step
/// index above 88, for the first such channel. `out` is then as it was.
pub fn block_into(bytes: &[u8], ch: u8, out: &mut [i16]) -> Result<usize, ImaFault>
    requires at_least_one { 1 ≤ ch }
    requires at_most_eight { ch ≤ 8 }
    requires room { block_frames (length bytes.now) ch * ch ≤ length out.old }
    ensures answer { result ≡ block_answer bytes.now ch }
    ensures frames { let samples = block_samples bytes.now ch in
        OnOk result (out.new ≡ samples ++ drop (length samples) out.old) }
    ensures err { OnErr result (out.new ≡ out.old) }
{
    let frames = block_frames(bytes.len(), ch);
    if frames == 0 {
        return Ok(0);
    }
    if let Some(fault) = first_fault(bytes, ch) {
        return Err(fault);
    }
    for c in 0..ch {
        whole_channel_into(bytes, ch, c, frames, out);
    }
    Ok(frames)
}
