//! A delay line with feedback.

ghost use Rattle.std.specs.Prelude.{◌≡◌, ℕ, ◌+◌, ◌*◌, ◌%◌, ◌<◌, ◌≤◌, ℤ, ◌+ℤ◌, [], All, IfOk, length, vec_len};
ghost use Rattle.mix_fixed.specs.Sound.{Is24, sat24, scale, unity_gain};
ghost use Rattle.fx_nodes.specs.Effects.{delayed, most_delay};
ghost use Rattle.fx_nodes.specs.Samples.{Holds, Reads, sample};

use crate::gains::{attenuated, joined};
use plain_data::OutOfMemory;
use std::alloc::Global;

/// A delay of `frames` stereo frames: a ring of as many, interleaved, of what comes out of it next. What comes out goes
/// in again by `decay`/65536.
#[derive(Drop)]
pub(crate) struct DelayLine {
    pub(crate) ring: Vec<i32>,
    pub(crate) place: usize,
    pub(crate) frames: u32,
    pub(crate) decay: u32,
    ghost some: { 0 < frames },
    ghost size: { vec_len ring ≡ 2 * frames },
    ghost inside: { place < vec_len ring },
    ghost samples: { All Is24 ring.items },
    ghost most: { decay ≤ unity_gain },
}

impl DelayLine {
    /// A delay line that has taken no samples, of 1 to 1048576 frames and with a decay of at most 1.0.
    pub(crate) fn new(alloc: Global, frames: u32, decay: u32) -> Result<DelayLine, OutOfMemory>
        requires some { 0 < frames }
        requires frames { frames ≤ most_delay }
        requires decay { decay ≤ unity_gain }
        ensures numbers { IfOk result (λ line. (line.frames ≡ frames) × (line.decay ≡ decay)) }
        ensures empty { IfOk result (λ line. Holds (sample []) (2 * line.frames) line.decay 0 line.place line.ring.items) }
    {
        let ring = vec![in alloc; 0i32; 2 * frames as usize]?;
        Ok(DelayLine {
            ring,
            place: 0,
            frames,
            decay,
        })
    }

    /// The samples with what comes out of the delay line, in place, held within 24 bits.
    pub(crate) fn block(&mut self, samples: &mut [i32])
        requires { All Is24 samples.old }
        ensures range { All Is24 samples.new }
        ensures numbers { (self.new.frames ≡ self.old.frames) × (self.new.decay ≡ self.old.decay) }
        ensures value { (f : ℕ → ℤ) (s : ℕ) → Holds f (2 * self.old.frames) self.old.decay s self.old.place self.old.ring.items → Reads f s samples.old
            → Reads (λ t. sat24 (f t +ℤ delayed f (2 * self.old.frames) self.old.decay t)) s samples.new
            × Holds f (2 * self.old.frames) self.old.decay (s + length samples.old) self.new.place self.new.ring.items }
    {
        self.place = run(self.ring.as_mut_slice(), self.place, self.decay, samples);
    }
}

/// The place behind `place` in a ring of `len` samples.
fn next_place(place: usize, len: usize) -> usize
    requires { place < len }
    ensures next { result ≡ (place + 1) % len }
    ensures inside { result < len }
{
    if place + 1 == len { 0 } else { place + 1 }
}

/// Takes a sample into the ring at `place`, and answers the sample with what came out there.
fn pass(ring: &mut [i32], place: usize, decay: u32, x: i32) -> i32
    requires inside { place < length ring.old }
    requires ring { All Is24 ring.old }
    requires decay { decay ≤ unity_gain }
    requires sample { Is24 x }
    ensures range { Is24 result }
    ensures ring { All Is24 ring.new }
    ensures value { (f : ℕ → ℤ) (s : ℕ) → Holds f (length ring.old) decay s place ring.old → x ≡ f s
        → (result ≡ sat24 (f s +ℤ delayed f (length ring.old) decay s))
        × ((next : ℕ) → next ≡ (place + 1) % length ring.old → Holds f (length ring.old) decay (s + 1) next ring.new) }
{
    let back = ring[place];
    let fed = joined(x, attenuated(back, decay));
    ring[place] = fed;
    joined(x, back)
}

/// Runs samples through the ring from `place` on, in place, and answers the place at which it then stands.
fn run(ring: &mut [i32], place: usize, decay: u32, samples: &mut [i32]) -> usize
    requires inside { place < length ring.old }
    requires ring { All Is24 ring.old }
    requires decay { decay ≤ unity_gain }
    requires samples { All Is24 samples.old }
    ensures inside { result < length ring.new }
    ensures ring { All Is24 ring.new }
    ensures range { All Is24 samples.new }
    ensures value { (f : ℕ → ℤ) (s : ℕ) → Holds f (length ring.old) decay s place ring.old → Reads f s samples.old
        → Reads (λ t. sat24 (f t +ℤ delayed f (length ring.old) decay t)) s samples.new × Holds f (length ring.old) decay (s + length samples.old) result ring.new }
{
    let mut place = place;
    for i in 0..samples.len() {
        samples[i] = pass(ring, place, decay, samples[i]);
        place = next_place(place, ring.len());
    }
    place
}
