//! Kernels of sums of 32 bits, plain loops of which the compiler makes lanes.

ghost use Rattle.std.specs.Prelude.{◌≡◌, ◌≤◌, ℕ, ◌+◌, length};
ghost use Rattle.mix_fixed.specs.Kernels.{AreSamples, AreWithin, IsMixed, IsSettled, most_narrow_sum, most_share};
ghost use Rattle.mix_fixed.specs.Sound.{Is24, largest_gain, sat24, unity_gain};

use crate::gain::{Gain, UNITY_GAIN};
use crate::shares::narrow_share;

/// Adds to each sum `acc[j]` the sample `x[j]`, of 24 bits, by the gain `g`, rounded down: `scale(x[j], g)`.
/// The slices have one length, and each sum lies from -1879048192 to 1879048192. It grows by at most 128
/// times the gain.
pub fn add_scaled_narrow(acc: &mut [i32], x: &[i32], g: Gain)
    requires lengths { length acc.old ≡ length x.now }
    requires samples { AreSamples x.now }
    requires sums { AreWithin most_narrow_sum acc.old }
    ensures mixed { IsMixed g acc.old x.now acc.new }
    ensures within { (most : ℕ) → AreWithin most acc.old → AreWithin (most + most_share g) acc.new }
{
    let gain = g.get();
    if gain == UNITY_GAIN {
        add_unity(acc, x);
    } else {
        add_shares(acc, x, gain);
    }
}

/// Adds each sample as it is, which is by a gain of 1.0.
fn add_unity(acc: &mut [i32], x: &[i32])
    requires lengths { length acc.old ≡ length x.now }
    requires samples { AreSamples x.now }
    requires sums { AreWithin most_narrow_sum acc.old }
    ensures { IsMixed unity_gain acc.old x.now acc.new }
{
    for i in 0..acc.len() {
        acc[i] += x[i];
    }
}

/// Adds each sample by `gain`/65536.
fn add_shares(acc: &mut [i32], x: &[i32], gain: u32)
    requires lengths { length acc.old ≡ length x.now }
    requires samples { AreSamples x.now }
    requires sums { AreWithin most_narrow_sum acc.old }
    requires gain { gain ≤ largest_gain }
    ensures { IsMixed gain acc.old x.now acc.new }
{
    for i in 0..acc.len() {
        acc[i] += narrow_share(x[i], gain);
    }
}

/// Writes to each `out[j]` the sample of 24 bits, from -8388608 to 8388607, that is nearest to the sum
/// `acc[j]`. The slices have one length.
pub fn settle_narrow(acc: &[i32], out: &mut [i32])
    requires { length acc.now ≡ length out.old }
    ensures settled { IsSettled acc.now out.new }
    ensures samples { AreSamples out.new }
{
    for i in 0..acc.len() {
        out[i] = nearest_sample(acc[i]);
    }
}

/// The sample of 24 bits, from -8388608 to 8388607, that is nearest to `x`.
fn nearest_sample(x: i32) -> i32
    ensures nearest { result ≡ sat24 x }
    ensures range { Is24 result }
{
    x.clamp(-8_388_608, 8_388_607)
}
