//! The gain of a bus.

ghost use Rattle.std.specs.Prelude.{◌≡◌, ◌<◌, ◌≤◌, ◌↔◌, ℕ, IsNone, IfSome};
ghost use Rattle.mix_fixed.specs.Sound.{largest_gain};

use std::marker::Model;

/// The gain that leaves a sample as it is, 1.0, in 1/65536.
pub const UNITY_GAIN: u32 = 65_536;

/// The largest gain, 16.0, in 1/65536.
pub const MAX_GAIN: u32 = 1_048_576;

/// A gain in 1/65536, from 0 (silence) over 65536 (unity) to 1048576 (16.0).
#[derive(Clone, Copy, Debug, PartialEq, Eq)]
pub struct Gain {
    value: u32,
}

impl Model for Gain {
    ghost Value = { ℕ };

    ghost view = { λ g. g.value };

    ghost invariant = { λ g. g.value ≤ largest_gain };

    ghost inverse = { λ v. record { value = v } };
}

impl Gain {
    /// The gain of `g`/65536; `None` exactly where `g` is more than 1048576.
    pub fn new(g: u32) -> Option<Self>
        ensures none { IsNone result ↔ (largest_gain < g) }
        ensures some { IfSome result (λ gain. gain ≡ g) }
    {
        if g > MAX_GAIN {
            None
        } else {
            Some(Gain { value: g })
        }
    }

    /// The gain in 1/65536, at most 1048576.
    pub fn get(self) -> u32
        ensures value { result ≡ self }
        ensures limit { result ≤ largest_gain }
    {
        self.value
    }
}
