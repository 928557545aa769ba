//! Effects, and the limits of their numbers.

ghost use Rattle.std.specs.Prelude.{◌≡◌};
ghost use Rattle.fx_nodes.specs.Effects.{is_in_range};

use mix_fixed::{MAX_GAIN, UNITY_GAIN};

/// The frames of the longest delay.
pub const MAX_DELAY: u32 = 1_048_576;

/// The latest frame at which a fade ends.
pub const MAX_FADE_END: u32 = 16_777_216;

/// An effect on stereo frames of 24 bits. Frames are counted from 0, gains are in 1/65536.
#[derive(Clone, Copy, Debug, PartialEq, Eq)]
pub enum Effect {
    /// An echo after 1 to 1048576 frames, which comes again after as many frames each, by `decay`, a gain of at
    /// most 1.0.
    Delay {
        frames: u32,
        decay: u32,
    },
    /// A place between left, 0, and right, 65536; at 32768 both channels stay as they are.
    Pan {
        place: u32,
    },
    /// The gain `first` before the frame `from`, `last` from the frame `to` on, at most 16777216, and a
    /// straight line in between. `from` is less than `to`; gains are at most 16.0.
    Fade {
        from: u32,
        to: u32,
        first: u32,
        last: u32,
    },
    /// A gain of at most 16.0.
    Level {
        gain: u32,
    },
}

/// A level of 1.0, which leaves frames as they are.
impl Default for Effect {
    ghost use Rattle.std.specs.Prelude.{◌≡◌};
    ghost use Rattle.mix_fixed.specs.Sound.{unity_gain};
    ghost use Rattle.fx_nodes.specs.declared.effect.Effect.TheVariants.{Level};

    ghost is_default = { λ effect. effect ≡ Level unity_gain };

    fn default() -> Effect {
        Effect::Level { gain: UNITY_GAIN }
    }
}

impl Effect {
    /// Whether all numbers are within the limits of their kind.
    pub fn is_in_range(self) -> bool
        ensures { result ≡ is_in_range self }
    {
        match self {
            Effect::Delay { frames, decay } => {
                1 <= frames && frames <= MAX_DELAY && decay <= UNITY_GAIN
            }
            Effect::Pan { place } => place <= UNITY_GAIN,
            Effect::Fade {
                from,
                to,
                first,
                last,
            } => from < to && to <= MAX_FADE_END && first <= MAX_GAIN && last <= MAX_GAIN,
            Effect::Level { gain } => gain <= MAX_GAIN,
        }
    }
}
