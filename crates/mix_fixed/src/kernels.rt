//! Kernels: sums of samples by a gain, by lanes, and the samples of sums.

ghost use Rattle.std.specs.Prelude.{◌≡◌, ℕ, ◌+◌, ◌^◌, ◌<◌, ◌≤◌, length};
ghost use Rattle.mix_fixed.specs.Kernels.{at, AreSamples, AreWithin, IsMixed, IsSettled, IsWithin, MixedIn, most_share, SettledIn};
ghost use Rattle.mix_fixed.specs.Sound.{Is24};

use crate::gain::Gain;
use crate::sample::{sat24, scale};
use std::simd::prelude::*;

/// How many sums are taken at once.
const LANES: usize = 8;

/// Adds to each sum `acc[j]` the sample `x[j]`, of 24 bits, by the gain `g`, rounded down: `scale(x[j], g)`.
/// The slices have one length, and each sum lies from -2^62 to 2^62. It grows by at most 128 times the gain.
pub fn add_scaled(acc: &mut [i64], x: &[i32], g: Gain)
    requires lengths { length acc.old ≡ length x.now }
    requires samples { AreSamples x.now }
    requires sums { AreWithin (2 ^ 62) acc.old }
    ensures mixed { IsMixed g acc.old x.now acc.new }
    ensures within { (most : ℕ) → AreWithin most acc.old → AreWithin (most + most_share g) acc.new }
{
    let whole = acc.len() / LANES;
    for block in 0..whole {
        add_lanes(acc, x, block * LANES, g);
    }
    for i in whole * LANES..acc.len() {
        add_one(acc, x, i, g);
    }
}

/// Adds the samples of the eight places from `from` on.
fn add_lanes(acc: &mut [i64], x: &[i32], from: usize, g: Gain)
    requires sums_there { from + 8 ≤ length acc.old }
    requires samples_there { from + 8 ≤ length x.now }
    requires samples { (j : ℕ) → from ≤ j → j < from + 8 → Is24 (at x.now j) }
    requires sums { (j : ℕ) → from ≤ j → j < from + 8 → IsWithin (2 ^ 62) (at acc.old j) }
    ensures { MixedIn from 8 g acc.old x.now acc.new }
{
    let samples = i32x8::from_slice(&x[from..]).cast::<i64>();
    let shares = (samples * i64x8::splat(i64::from(g.get()))) >> i64x8::splat(16);
    let sums = i64x8::from_slice(&acc[from..]) + shares;
    sums.copy_to_slice(&mut acc[from..]);
}

/// Adds the sample of one place.
fn add_one(acc: &mut [i64], x: &[i32], i: usize, g: Gain)
    requires sum_there { i < length acc.old }
    requires sample_there { i < length x.now }
    requires sample { Is24 (at x.now i) }
    requires sum { IsWithin (2 ^ 62) (at acc.old i) }
    ensures { MixedIn i 1 g acc.old x.now acc.new }
{
    acc[i] += i64::from(scale(x[i], g));
}

/// Writes to each `out[j]` the sample of 24 bits, from -8388608 to 8388607, that is nearest to the sum
/// `acc[j]`. The slices have one length.
pub fn settle(acc: &[i64], out: &mut [i32])
    requires { length acc.now ≡ length out.old }
    ensures settled { IsSettled acc.now out.new }
    ensures samples { AreSamples out.new }
{
    let whole = acc.len() / LANES;
    for block in 0..whole {
        settle_lanes(acc, out, block * LANES);
    }
    for j in whole * LANES..acc.len() {
        out[j] = sat24(acc[j]);
    }
}

/// Writes the samples of the eight places from `from` on.
fn settle_lanes(acc: &[i64], out: &mut [i32], from: usize)
    requires sums_there { from + 8 ≤ length acc.now }
    requires samples_there { from + 8 ≤ length out.old }
    ensures { SettledIn from 8 acc.now out.old out.new }
{
    let sums = i64x8::from_array([
        acc[from],
        acc[from + 1],
        acc[from + 2],
        acc[from + 3],
        acc[from + 4],
        acc[from + 5],
        acc[from + 6],
        acc[from + 7],
    ]);
    let nearest = sums.simd_clamp(i64x8::splat(-8_388_608), i64x8::splat(8_388_607));
    nearest.cast::<i32>().copy_to_slice(&mut out[from..]);
}
