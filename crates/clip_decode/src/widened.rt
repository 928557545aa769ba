//! Samples of 16 bits as samples of 24 bits.

ghost use Rattle.std.specs.Prelude.{◌≡◌, ◌+◌, ◌≤◌, length, pos, slice_index_or};
ghost use Rattle.clip_decode.specs.Cells.{Appended};
ghost use Rattle.clip_decode.specs.Widened.{widened};
ghost use Rattle.mix_fixed.specs.Sound.{Is24};

/// A sample of 16 bits with eight more low bits, which are 0.
pub fn widened(sample: i16) -> i32
    ensures exact { result ≡ widened sample }
    ensures range { Is24 result }
{
    i32::from(sample) * 256
}

/// Writes the first `count` samples, widened, to `out` from place `at` on.
pub fn widen_into(samples: &[i16], count: usize, out: &mut [i32], at: usize)
    requires there { count ≤ length samples.now }
    requires room { at + count ≤ length out.old }
    ensures { Appended at count (λ i. widened (slice_index_or samples.now i (pos 0))) out.old out.new }
{
    for i in 0..count {
        out[at + i] = widened(samples[i]);
    }
}
