//! A sample by a gain in words of 32 bits, by a product without sign: the sample is raised by 2^23
//! first, and what that adds to the product is taken off again.

ghost use Rattle.std.specs.Prelude.{◌≡◌, ◌≤◌, ◌<◌, ◌^◌, ◌+◌, ◌*◌, ◌/◌, pos, ◌+ℤ◌};
ghost use Rattle.mix_fixed.specs.Sound.{Is24, IsScaled, scale, largest_gain};

/// The sample `x`, of 24 bits, by `gain`/65536, rounded down.
pub(crate) fn narrow_share(x: i32, gain: u32) -> i32
    requires sample { Is24 x }
    requires gain { gain ≤ largest_gain }
    ensures scaled { result ≡ scale x gain }
    ensures range { IsScaled result }
{
    lowered(upper_half(raised(x), gain), gain)
}

/// The sample `x`, of 24 bits, raised by 2^23: from 0 to 2^24 - 1.
fn raised(x: i32) -> u32
    requires { Is24 x }
    ensures value { pos result ≡ x +ℤ pos (2 ^ 23) }
    ensures range { result < 2 ^ 24 }
{
    (x + 8_388_608).cast_unsigned()
}

/// A raised sample by `gain`/65536, rounded down: the upper half of a product of 64 bits, of both
/// factors by 256.
fn upper_half(raised: u32, gain: u32) -> u32
    requires sample { raised < 2 ^ 24 }
    requires gain { gain ≤ largest_gain }
    ensures value { result ≡ raised * gain / 65536 }
    ensures range { result < 2 ^ 28 + 1 }
{
    ((u64::from(raised * 256) * u64::from(gain * 256)) >> 32) as u32
}

/// A raised sample by `gain`/65536, less 2^23 by as much.
fn lowered(product: u32, gain: u32) -> i32
    requires product { product < 2 ^ 29 }
    requires gain { gain ≤ largest_gain }
    ensures { pos product ≡ result +ℤ pos (128 * gain) }
{
    product.cast_signed() - (gain * 128).cast_signed()
}
