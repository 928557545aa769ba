//! Linear interpolation between two samples.

ghost use Rattle.std.specs.Prelude.{◌≡◌, ◌<◌, pos, ◌*ℤ◌};
ghost use Rattle.mix_fixed.specs.Sound.{Is24};
ghost use Rattle.rate_fit.specs.Blend.{IsSum, blended};

use crate::rounding::floor_quotient;

/// The sample between `a` and `b`, both of 24 bits, where `b` has the weight `weight`, below `output_rate`,
/// and `a` the rest of `output_rate`: `(a * (output_rate - weight) + b * weight) / output_rate`, rounded down. It has 24
/// bits too.
pub fn blend(a: i32, b: i32, weight: u32, output_rate: u32) -> i32
    requires first { Is24 a }
    requires second { Is24 b }
    requires weighted { weight < output_rate }
    ensures between { result ≡ blended a b weight output_rate }
    ensures range { Is24 result }
{
    let sum = weighted(a, output_rate - weight) + weighted(b, weight);
    floor_quotient(sum, output_rate) as i32
}

/// The sample `sample`, of 24 bits, `weight` times.
fn weighted(sample: i32, weight: u32) -> i64
    requires { Is24 sample }
    ensures product { result ≡ sample *ℤ pos weight }
    ensures range { IsSum weight result }
{
    i64::from(sample) * i64::from(weight)
}
