//! Samples of 24 bits.

ghost use Rattle.std.specs.Prelude.{◌≡◌, ◌≤ℤ◌};
ghost use Rattle.mix_fixed.specs.Sound.{Is24, IsScaled, least_sample, greatest_sample, sat24, scale};

use crate::gain::Gain;

/// The least and the greatest sample of 24 bits.
const LEAST: i64 = -8_388_608;

const GREATEST: i64 = 8_388_607;

/// The sample of 24 bits, from -8388608 to 8388607, that is nearest to `x`.
pub fn sat24(x: i64) -> i32
    ensures nearest { result ≡ sat24 x }
    ensures range { Is24 result }
    ensures kept { Is24 x → result ≡ x }
    ensures above { greatest_sample ≤ℤ x → result ≡ greatest_sample }
    ensures below { x ≤ℤ least_sample → result ≡ least_sample }
{
    x.clamp(LEAST, GREATEST) as i32
}

/// The sample `x`, of 24 bits, by the gain `g`, rounded down: `floor(x * g / 65536)`, from
/// -134217728 to 134217712.
pub fn scale(x: i32, g: Gain) -> i32
    requires { Is24 x }
    ensures scaled { result ≡ scale x g }
    ensures range { IsScaled result }
{
    ((i64::from(x) * i64::from(g.get())) >> 16) as i32
}
