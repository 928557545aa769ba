//! A frame of another number of channels.

ghost use Rattle.std.specs.Prelude.{◌≡◌, ◌<◌, ◌≤◌, length, All};
ghost use Rattle.mix_fixed.specs.Sound.{Is24};
ghost use Rattle.rate_fit.specs.Channels.{in_channels, mean};

use crate::rounding::floor_quotient;

/// Writes `frame`, of 1 to 8 channels, into `out`, of 1 or 2. One channel is the mean of all,
/// rounded down. Two are the only channel twice, or else the first two. A frame of 24-bit samples
/// stays one.
pub fn to_channels(frame: &[i32], out: &mut [i32])
    requires some_in { 1 ≤ length frame.now }
    requires most_in { length frame.now ≤ 8 }
    requires some_out { 1 ≤ length out.old }
    requires most_out { length out.old ≤ 2 }
    ensures converted { out.new ≡ in_channels (length out.old) frame.now }
    ensures range { All Is24 frame.now → All Is24 out.new }
{
    if out.len() == 1 {
        out.fill(mean(frame));
    } else {
        out.copy_from_slice(&to_stereo(frame));
    }
}

/// A frame of 1 to 8 channels in two: its only channel twice, or else its first two. A frame of
/// 24-bit samples stays one.
pub fn to_stereo(frame: &[i32]) -> [i32; 2]
    requires { 1 ≤ length frame.now }
    ensures converted { result ≡ in_channels 2 frame.now }
    ensures range { All Is24 frame.now → All Is24 result }
{
    if frame.len() == 1 {
        [frame[0], frame[0]]
    } else {
        [frame[0], frame[1]]
    }
}

/// The mean of 1 to 8 samples, rounded down: a frame in one channel. A mean of 24-bit samples is one.
pub fn mean(samples: &[i32]) -> i32
    requires some { 1 ≤ length samples.now }
    requires most { length samples.now ≤ 8 }
    ensures mean { result ≡ mean samples.now }
    ensures range { All Is24 samples.now → Is24 result }
{
    // By a count that the compiler knows there is no loop and no division.
    match samples.len() {
        8 => mean_of(samples, 8),
        2 => mean_of(samples, 2),
        count => mean_of(samples, count),
    }
}

/// The mean of `count` samples.
fn mean_of(samples: &[i32], count: usize) -> i32
    requires count { count ≡ length samples.now }
    requires some { 1 ≤ count }
    requires most { count ≤ 8 }
    ensures mean { result ≡ mean samples.now }
    ensures range { All Is24 samples.now → Is24 result }
{
    let mut sum: i64 = 0;
    for k in 0..count {
        sum += i64::from(samples[k]);
    }
    floor_quotient(sum, count as u32) as i32
}
