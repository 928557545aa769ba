//! A gain for all samples, and for those of some frames.

ghost use Rattle.std.specs.Prelude.{◌≡◌, ◌+◌, ◌*◌, ◌<◌, ◌≤◌, All, length};
ghost use Rattle.mix_fixed.specs.Sound.{Is24, largest_gain, sat24, scale};
ghost use Rattle.fx_nodes.specs.Samples.{MadeIn, level_rule};

use crate::gains::amplified;

/// A gain of at most 16.0.
#[derive(Drop)]
pub(crate) struct Amplifier {
    pub(crate) gain: u32,
    ghost most: { gain ≤ largest_gain },
}

impl Amplifier {
    /// The samples by the gain, in place, held within 24 bits.
    pub(crate) fn block(&self, samples: &mut [i32])
        requires { All Is24 samples.old }
        ensures made { MadeIn (level_rule self.now.gain) 0 (length samples.old) samples.old samples.new }
        ensures range { All Is24 samples.new }
    {
        let end = samples.len();
        amplify(samples, 0, end, self.gain);
    }
}

/// The samples from one place to another by a gain, in place, held within 24 bits.
pub(crate) fn amplify(samples: &mut [i32], from: usize, to: usize, gain: u32)
    requires order { from ≤ to }
    requires there { to ≤ length samples.old }
    requires samples { All Is24 samples.old }
    requires gain { gain ≤ largest_gain }
    ensures made { MadeIn (level_rule gain) from to samples.old samples.new }
    ensures range { All Is24 samples.new }
{
    for i in from..to {
        samples[i] = amplified(samples[i], gain);
    }
}
