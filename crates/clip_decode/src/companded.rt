//! Samples of A-law and mu-law (ITU-T G.711), one byte each.

ghost use Rattle.std.specs.Prelude.{◌≡◌, ◌≤◌, ◌*◌, length};
ghost use Rattle.clip_decode.specs.Cells.{ContainersDecoded};
ghost use Rattle.clip_decode.specs.G711.{alaw_value, ulaw_value};

use crate::widened::widened;
use g711::{alaw, ulaw};

/// Writes the samples of the first `count` A-law codes of `codes` to the front of `out`.
pub fn alaw_into(codes: &[u8], count: usize, out: &mut [i32])
    requires there { 1 * count ≤ length codes.now }
    requires room { count ≤ length out.old }
    ensures { ContainersDecoded alaw_value 1 codes.now count out.new }
{
    for i in 0..count {
        out[i] = widened(alaw(codes[i]));
    }
}

/// Writes the samples of the first `count` mu-law codes of `codes` to the front of `out`.
pub fn ulaw_into(codes: &[u8], count: usize, out: &mut [i32])
    requires there { 1 * count ≤ length codes.now }
    requires room { count ≤ length out.old }
    ensures { ContainersDecoded ulaw_value 1 codes.now count out.new }
{
    for i in 0..count {
        out[i] = widened(ulaw(codes[i]));
    }
}
