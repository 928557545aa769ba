//! Linear interpolation at one output rate, by a reciprocal in place of divisions.

ghost use Rattle.std.specs.Prelude.{◌≡◌, ◌<◌, ◌≤◌, ◌*◌, ◌-◌, ◌/◌, ◌^◌, pos, ◌+ℤ◌};
ghost use Rattle.mix_fixed.specs.Sound.{Is24};
ghost use Rattle.rate_fit.specs.Blend.{blended};
ghost use Rattle.rate_fit.specs.Conversion.{highest_rate, length_of};
ghost use Rattle.rate_fit.specs.Points.{divided, point_at};

use crate::fit::Fit;
use crate::point::Point;
use std::marker::Model;

/// What offset binary adds to a sample of 24 bits, so that none is negative.
const OFFSET: i32 = 8_388_608;

/// Quotients below it are found without a division.
const QUOTIENTS: u64 = 16_777_216;

/// Blends samples of 24 bits at one output rate: as [`crate::blend`] does, by one multiplication by
/// a reciprocal in place of a division.
#[derive(Drop)]
pub struct Interpolator {
    output_rate: u32,
    reciprocal: u64,
}

impl Model for Interpolator {
    ghost use Rattle.std.specs.Prelude.{ℕ};
    ghost use Rattle.rate_fit.specs.Blend.{IsReciprocal};

    ghost Value = { ℕ };

    ghost view = { λ i. i.output_rate };

    ghost invariant = { λ i. IsReciprocal i.output_rate i.reciprocal };
}

impl Interpolator {
    /// An interpolator for the rate `output_rate`, from 1 to 768000 frames a second.
    pub fn new(output_rate: u32) -> Self
        requires some { 0 < output_rate }
        requires most { output_rate ≤ highest_rate }
        ensures { result ≡ output_rate }
    {
        Interpolator {
            output_rate,
            reciprocal: u64::MAX / u64::from(output_rate),
        }
    }

    /// The point of output frame `n`, below `fit.len()`: equal to [`Fit::at`]. The output rate of `fit`
    /// is the interpolator's. It divides only where the point lies at frame 2^24 of the clip or past it.
    pub fn at(&self, fit: &Fit, n: u64) -> Point
        requires rate { self.now ≡ fit.now.output_rate }
        requires frame { n < length_of fit.now }
        ensures point { result ≡ point_at fit.now.input_rate fit.now.output_rate n }
        ensures inside { result.first < fit.now.frames }
        ensures weighted { result.weight < fit.now.output_rate }
    {
        let place = n * u64::from(fit.input_rate());
        if place < QUOTIENTS * u64::from(self.output_rate) {
            early_point(place, self.output_rate, self.reciprocal)
        } else {
            fit.at(n)
        }
    }

    /// The sample between `a` and `b`, both of 24 bits, where `b` has the weight `weight`, below the
    /// rate, and `a` the rest of the rate, rounded down. It has 24 bits too.
    pub fn blend(&self, a: i32, b: i32, weight: u32) -> i32
        requires first { Is24 a }
        requires second { Is24 b }
        requires weighted { weight < self.now }
        ensures between { result ≡ blended a b weight self.now }
        ensures range { Is24 result }
    {
        let first = to_offset_binary(a) * u64::from(self.output_rate - weight);
        let second = to_offset_binary(b) * u64::from(weight);
        from_offset_binary(quotient(first + second, self.output_rate, self.reciprocal))
    }
}

/// The sample `sample`, of 24 bits, in offset binary.
fn to_offset_binary(sample: i32) -> u64
    requires { Is24 sample }
    ensures value { pos result ≡ sample +ℤ pos (2 ^ 23) }
    ensures range { result < 2 ^ 24 }
{
    (sample + OFFSET) as u64
}

/// The sample that is `number` in offset binary.
fn from_offset_binary(number: u64) -> i32
    requires { number < 2 ^ 24 }
    ensures value { pos number ≡ result +ℤ pos (2 ^ 23) }
    ensures range { Is24 result }
{
    number as i32 - OFFSET
}

/// The place `place / output_rate` of a clip, in its first 2^24 frames.
fn early_point(place: u64, output_rate: u32, reciprocal: u64) -> Point
    requires some { 0 < output_rate }
    requires most { output_rate ≤ highest_rate }
    requires reciprocal { reciprocal ≡ (2 ^ 64 - 1) / output_rate }
    requires within { place < 2 ^ 24 * output_rate }
    ensures point { result ≡ divided place output_rate }
{
    let first = quotient(place, output_rate, reciprocal);
    Point {
        first,
        weight: (place - first * u64::from(output_rate)) as u32,
    }
}

/// `sum / output_rate`, rounded down: the upper half of a product of 128 bits.
fn quotient(sum: u64, output_rate: u32, reciprocal: u64) -> u64
    requires some { 0 < output_rate }
    requires most { output_rate ≤ highest_rate }
    requires reciprocal { reciprocal ≡ (2 ^ 64 - 1) / output_rate }
    requires within { sum < 2 ^ 24 * output_rate }
    ensures quotient { result ≡ sum / output_rate }
    ensures range { result < 2 ^ 24 }
{
    ((u128::from(sum + 1) * u128::from(reciprocal)) >> 64) as u64
}
