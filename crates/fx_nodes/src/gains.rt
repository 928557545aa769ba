//! Samples by a gain.

ghost use Rattle.std.specs.Prelude.{◌≡◌, ◌≤◌, ◌+ℤ◌};
ghost use Rattle.mix_fixed.specs.Sound.{Is24, IsScaled, largest_gain, sat24, scale, unity_gain};

/// The sample `x`, of 24 bits, by `gain`/65536, rounded down.
pub(crate) fn scaled(x: i32, gain: u32) -> i32
    requires sample { Is24 x }
    requires gain { gain ≤ largest_gain }
    ensures scaled { result ≡ scale x gain }
    ensures range { IsScaled result }
{
    ((i64::from(x) * i64::from(gain)) >> 16) as i32
}

/// The sample of 24 bits, from -8388608 to 8388607, that is nearest to `x`.
pub(crate) fn nearest_sample(x: i32) -> i32
    ensures nearest { result ≡ sat24 x }
    ensures range { Is24 result }
{
    x.clamp(-8_388_608, 8_388_607)
}

/// The sample `x`, of 24 bits, by `gain`/65536, rounded down and held within 24 bits.
pub(crate) fn amplified(x: i32, gain: u32) -> i32
    requires sample { Is24 x }
    requires gain { gain ≤ largest_gain }
    ensures value { result ≡ sat24 (scale x gain) }
    ensures range { Is24 result }
{
    nearest_sample(scaled(x, gain))
}

/// The sample `x` by a gain of at most 1.0, rounded down. It has 24 bits too.
pub(crate) fn attenuated(x: i32, gain: u32) -> i32
    requires sample { Is24 x }
    requires gain { gain ≤ unity_gain }
    ensures value { result ≡ scale x gain }
    ensures range { Is24 result }
{
    scaled(x, gain)
}

/// The sum of two samples, held within 24 bits.
pub(crate) fn joined(x: i32, y: i32) -> i32
    requires first { Is24 x }
    requires second { Is24 y }
    ensures value { result ≡ sat24 (x +ℤ y) }
    ensures range { Is24 result }
{
    nearest_sample(x + y)
}
