//! What a sound puts out over a span: the frames of its clip from its cursor on.

ghost use Rattle.std.specs.Prelude.{◌≡◌, ◌≤◌, ◌<◌, ◌+◌, ◌-◌, ◌*◌, ◌/◌, ◌%◌, ℕ, length, OnOk, IfErr};
ghost use Rattle.mix_fixed.specs.Kernels.{at, AreSamples};
ghost use Rattle.scene_clips.specs.ClipFrames.{clip_length};
ghost use Rattle.mix_model.specs.Signals.{sample_at};
ghost use Rattle.mix_model.specs.Spans.{played};
ghost use Rattle.resource_mgr.specs.Tapes.{IsLater, bytes_of};
ghost use Rattle.engine.specs.Needs.{IsMissingAt, IsMissingIn};
ghost use Rattle.engine.specs.Sounds.{ArePlayed, place_in};
ghost use Rattle.engine.specs.Span.{most_span_frames};

use crate::advance::played_to;
use crate::cached_clip::CachedClip;
use crate::need::Missing;
use resource_mgr::Tape;

/// Writes what a sound puts out over a span of `frames` frames, at most 512, interleaved, to the
/// front of `out`: its clip from `cursor` on. At the clip's end it is silent, or, where it is looped,
/// silent for the frame that begins there and then at its first frame.
///
/// # Errors
///
/// [`Missing`] where a page of the clip that it reads isn't shown yet.
pub(crate) fn play_sound(
    clip: &mut CachedClip,
    tape: &mut Tape,
    looped: bool,
    cursor: u64,
    frames: usize,
    out: &mut [i32],
) -> Result<(), Missing>
    requires tape { bytes_of tape.old ≡ clip.old.bytes }
    requires cursor { cursor ≤ clip_length clip.old.bytes clip.old.rate }
    requires channels { 1 ≤ clip.old.channels }
    requires few { frames ≤ most_span_frames }
    requires room { frames * clip.old.channels ≤ length out.old }
    requires samples { AreSamples out.old }
    ensures same { clip.new ≡ clip.old }
    ensures later { OnOk result (IsLater tape.old tape.new) }
    ensures missing { IfErr result (λ m. IsMissingAt clip.old looped cursor frames tape.old tape.new m.page m.shown) }
    ensures played { OnOk result (ArePlayed clip.old looped cursor (frames * clip.old.channels) out.new) }
    ensures samples { AreSamples out.new }
{
    let len = clip.len();
    let mut done = 0;
    while done < frames {
        let place = played_to(len, looped, cursor, done as u64);
        let part = part_frames(len, looped, place, frames - done);
        play_part(clip, tape, place, part, done, out)?;
        done += part;
    }
    Ok(())
}

/// How many of the next `left` frames are played one after the other without a jump in the clip.
fn part_frames(frames: u64, looped: bool, place: u64, left: usize) -> usize
    requires place { place ≤ frames }
    requires some { 0 < left }
    requires few { left ≤ most_span_frames }
    ensures some { 0 < result }
    ensures most { result ≤ left }
    ensures inside { place < frames → result ≤ frames - place }
    ensures plays { (i : ℕ) → i < result → played frames looped place i ≡ place_in frames place i }
{
    if place < frames {
        return (frames - place).min(left as u64) as usize;
    }
    if looped { 1 } else { left }
}

/// Writes so many frames from frame `done` of the span on: those of the clip from a place on, and
/// silence at its end.
fn play_part(
    clip: &mut CachedClip,
    tape: &mut Tape,
    place: u64,
    part: usize,
    done: usize,
    out: &mut [i32],
) -> Result<(), Missing>
    requires tape { bytes_of tape.old ≡ clip.old.bytes }
    requires place { place ≤ clip_length clip.old.bytes clip.old.rate }
    requires inside { place < clip_length clip.old.bytes clip.old.rate → part ≤ clip_length clip.old.bytes clip.old.rate - place }
    requires some { 0 < part }
    requires few { done + part ≤ most_span_frames }
    requires room { (done + part) * clip.old.channels ≤ length out.old }
    requires samples { AreSamples out.old }
    ensures same { clip.new ≡ clip.old }
    ensures later { OnOk result (IsLater tape.old tape.new) }
    ensures missing { IfErr result (λ m. (place < clip_length clip.old.bytes clip.old.rate) × IsMissingIn clip.old place part tape.old tape.new m.page m.shown) }
    ensures here { OnOk result ((j : ℕ) → j < part * clip.old.channels → at out.new (done * clip.old.channels + j)
        ≡ sample_at clip.old (place_in (clip_length clip.old.bytes clip.old.rate) place (j / clip.old.channels)) (j % clip.old.channels)) }
    ensures before { OnOk result ((j : ℕ) → j < done * clip.old.channels → at out.new j ≡ at out.old j) }
    ensures samples { AreSamples out.new }
{
    let channels = usize::from(clip.channels());
    let part_of_out = &mut out[done * channels..(done + part) * channels];
    if place < clip.len() {
        clip.run(tape, place, part, part_of_out)?;
    } else {
        part_of_out.fill(0);
    }
    Ok(())
}
