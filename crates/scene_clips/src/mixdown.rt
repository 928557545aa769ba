//! One channel of a frame that is brought to the scene's channels.

ghost use Rattle.std.specs.Prelude.{◌≡◌, ◌<◌, ◌≤◌, pos, length, All, slice_index_or};
ghost use Rattle.mix_fixed.specs.Sound.{Is24};
ghost use Rattle.rate_fit.specs.Channels.{in_channels};

use rate_fit::{mean, to_stereo};

/// The sample of channel `channel` of a frame of 1 to 8 channels that is brought to `channels`, 1
/// or 2. Only the channel that is asked for is computed.
pub fn channel_of(frame: &[i32], channels: u8, channel: u8) -> i32
    requires some { 1 ≤ length frame.now }
    requires most { length frame.now ≤ 8 }
    requires range { All Is24 frame.now }
    requires few { channels ≤ 2 }
    requires channel { channel < channels }
    ensures value { result ≡ slice_index_or (in_channels channels frame.now) channel (pos 0) }
    ensures range { Is24 result }
{
    if channels == 1 {
        mean(frame)
    } else {
        to_stereo(frame)[usize::from(channel)]
    }
}
