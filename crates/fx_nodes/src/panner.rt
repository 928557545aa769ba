//! A place between left and right.

ghost use Rattle.std.specs.Prelude.{◌≡◌, ◌+◌, ◌*◌, ◌%◌, ◌<◌, ◌≤◌, All, length};
ghost use Rattle.mix_fixed.specs.Sound.{Is24, scale, unity_gain};
ghost use Rattle.fx_nodes.specs.Effects.{pan_gain};
ghost use Rattle.fx_nodes.specs.Samples.{MadeIn, pan_rule};

use crate::gains::attenuated;
use mix_fixed::UNITY_GAIN;

/// A place from 0, left, to 65536, right.
#[derive(Drop)]
pub(crate) struct Panner {
    pub(crate) place: u32,
    ghost most: { place ≤ unity_gain },
}

impl Panner {
    /// The frames by the gains of the two channels, in place.
    pub(crate) fn block(&self, frames: &mut [i32])
        requires even { length frames.old % 2 ≡ 0 }
        requires samples { All Is24 frames.old }
        ensures made { MadeIn (pan_rule self.now.place) 0 (length frames.old) frames.old frames.new }
        ensures range { All Is24 frames.new }
    {
        let left = self.left();
        let right = self.right();
        for t in 0..frames.len() / 2 {
            frames[2 * t] = attenuated(frames[2 * t], left);
            frames[2 * t + 1] = attenuated(frames[2 * t + 1], right);
        }
    }

    fn left(&self) -> u32
        ensures gain { result ≡ pan_gain 0 self.now.place }
        ensures most { result ≤ unity_gain }
    {
        (2 * UNITY_GAIN - 2 * self.place).min(UNITY_GAIN)
    }

    fn right(&self) -> u32
        ensures gain { result ≡ pan_gain 1 self.now.place }
        ensures most { result ≤ unity_gain }
    {
        (2 * self.place).min(UNITY_GAIN)
    }
}
