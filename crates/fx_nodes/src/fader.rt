//! A gain that goes from one to another in a straight line.

ghost use Rattle.std.specs.Prelude.{◌≡◌, ◌+◌, ◌-◌, ◌*◌, ◌/◌, ◌%◌, ◌^◌, ◌<◌, ◌≤◌, All, length, min};
ghost use Rattle.mix_fixed.specs.Sound.{Is24, largest_gain, sat24, scale};
ghost use Rattle.fx_nodes.specs.Effects.{fade_gain, most_fade_end};
ghost use Rattle.fx_nodes.specs.Samples.{MadeIn, fade_rule, level_rule};

use crate::amplifier::amplify;
use crate::gains::amplified;
use crate::slope::Slope;

/// The gain `first` before the frame `from`, `last` from the frame `to` on, and a straight line in between.
#[derive(Drop)]
pub(crate) struct Fader {
    pub(crate) from: u32,
    pub(crate) to: u32,
    pub(crate) first: u32,
    pub(crate) last: u32,
    ghost order: { from < to },
    ghost end: { to ≤ most_fade_end },
    ghost first_most: { first ≤ largest_gain },
    ghost last_most: { last ≤ largest_gain },
}

impl Fader {
    /// The frames by the gains of their numbers, in place, held within 24 bits. The first of them has the number `start`.
    pub(crate) fn block(&self, start: u32, frames: &mut [i32])
        requires even { length frames.old % 2 ≡ 0 }
        requires samples { All Is24 frames.old }
        requires clock { start + length frames.old / 2 < 2 ^ 32 }
        ensures made { MadeIn (fade_rule self.now.from self.now.to self.now.first self.now.last start) 0 (length frames.old) frames.old frames.new }
        ensures range { All Is24 frames.new }
    {
        let count = frames.len() / 2;
        let begin = frames_before(self.from, start, count);
        let end = frames_before(self.to, start, count);
        amplify(frames, 0, 2 * begin, self.first);
        self.slope(start, frames, begin, end);
        amplify(frames, 2 * end, 2 * count, self.last);
    }

    /// The frames at the places from `begin` to `end`, which lie on the line.
    fn slope(&self, start: u32, frames: &mut [i32], begin: usize, end: usize)
        requires order { begin ≤ end }
        requires there { 2 * end ≤ length frames.old }
        requires from { begin < end → self.now.from ≤ start + begin }
        requires to { begin < end → start + end ≤ self.now.to }
        requires samples { All Is24 frames.old }
        ensures made { MadeIn (fade_rule self.now.from self.now.to self.now.first self.now.last start) (2 * begin) (2 * end) frames.old frames.new }
        ensures range { All Is24 frames.new }
    {
        if begin == end {
            return;
        }
        let slope = Slope {
            first: self.first,
            last: self.last,
            span: self.to - self.from,
        };
        let step = slope.step();
        let mut mark = slope.mark(start + begin as u32 - self.from);
        for t in begin..end {
            amplify_frame(frames, t, mark.gain);
            mark = slope.next(mark, step);
        }
    }
}

/// The frame at a place by a gain, in place, held within 24 bits.
fn amplify_frame(frames: &mut [i32], t: usize, gain: u32)
    requires there { 2 * t + 1 < length frames.old }
    requires samples { All Is24 frames.old }
    requires gain { gain ≤ largest_gain }
    ensures made { MadeIn (level_rule gain) (2 * t) (2 * (t + 1)) frames.old frames.new }
    ensures range { All Is24 frames.new }
{
    frames[2 * t] = amplified(frames[2 * t], gain);
    frames[2 * t + 1] = amplified(frames[2 * t + 1], gain);
}

/// How many of `count` frames, of which the first has the number `start`, come before a frame.
fn frames_before(frame: u32, start: u32, count: usize) -> usize
    ensures { result ≡ min (frame - start) count }
{
    (frame.saturating_sub(start) as usize).min(count)
}
