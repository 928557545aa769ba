//! The frames of a clip, brought to a scene's rate and channels.

ghost use Rattle.std.specs.Prelude.{◌≡◌, ◌*◌, ◌^◌, ◌<◌, ◌≤◌, length, All};
ghost use Rattle.mix_fixed.specs.Sound.{Is24};
ghost use Rattle.rate_fit.specs.Conversion.{IsConversion, length_of};
ghost use Rattle.rate_fit.specs.Points.{point_at};
ghost use Rattle.scene_clips.specs.ConverterData.{converted};

use crate::mixdown::channel_of;
use rate_fit::{Fit, Interpolator, Point, Walker, to_stereo};
use std::marker::Model;
use wave_read::Wave;

/// Brings the frames of one clip to a scene's rate and channels. It keeps none of them: each call
/// takes the one or two frames of the file between which a frame of the scene lies.
///
/// Contracts see it as the `conversion` of the clip's rate and the scene's `channels`.
#[derive(Drop)]
pub struct Converter {
    fit: Fit,
    interpolator: Interpolator,
    channels: u8,
    /// The length of `fit`, which costs a division.
    len: u64,
}

impl Model for Converter {
    ghost use Rattle.scene_clips.specs.ConverterData.{ConverterData, IsConverter};

    ghost Value = { ConverterData };

    ghost view = { λ c. record { conversion = c.fit; channels = c.channels } };

    ghost invariant = { λ c. IsConverter c.fit c.interpolator c.channels c.len };
}

impl Converter {
    /// The converter of a clip of at most 2^28 frames for a scene of `rate` frames a second, 1 to
    /// 768000, and `channels` channels, 1 or 2.
    pub fn new(wave: &Wave, rate: u32, channels: u8) -> Converter
        requires conversion { IsConversion (record { input_rate = wave.now.rate; output_rate = rate; frames = wave.now.frames }) }
        requires channels_least { 1 ≤ channels }
        requires channels_most { channels ≤ 2 }
        ensures { result ≡ record {
          conversion = record { input_rate = wave.now.rate; output_rate = rate; frames = wave.now.frames };
          channels = channels;
        } }
    {
        let fit = Fit::new(wave.rate, rate, wave.frames);
        Converter {
            fit,
            interpolator: Interpolator::new(rate),
            channels,
            len: fit.len(),
        }
    }

    /// The scene's channels, 1 or 2.
    pub fn channels(&self) -> u8
        ensures value { result ≡ self.now.channels }
        ensures least { 1 ≤ result }
        ensures most { result ≤ 2 }
    {
        self.channels
    }

    /// The number of frames at the scene's rate: the file's, times the scene's rate, divided by the
    /// file's rate and rounded up.
    pub fn len(&self) -> u64
        ensures value { result ≡ length_of self.now.conversion }
        ensures most { result ≤ 2 ^ 28 * 768000 }
    {
        self.len
    }

    /// The place of frame `n`, below `len`, in the file.
    pub fn point(&self, n: u64) -> Point
        requires { n < length_of self.now.conversion }
        ensures point { result ≡ point_at self.now.conversion.input_rate self.now.conversion.output_rate n }
        ensures inside { result.first < self.now.conversion.frames }
        ensures weighted { result.weight < self.now.conversion.output_rate }
    {
        self.interpolator.at(&self.fit, n)
    }

    /// A walk over the places of the frames from frame `n` on, at most `len`.
    pub fn walk(&self, n: u64) -> Walker
        requires { n ≤ length_of self.now.conversion }
        ensures { result ≡ record { fit = self.now.conversion; n = n } }
    {
        Walker::new(&self.fit, n)
    }

    /// The sample of channel `channel` between two frames of the file, each of 1 to 8 samples of 24
    /// bits: `second` has the weight `weight`, below the scene's rate, and `first` the rest of that
    /// rate. After the last frame of the file stands a frame of 0. Where `weight` is 0 the second
    /// frame is not read, and any may be given. Each is brought to the scene's channels first: one is
    /// the mean of all, rounded down, two are the only one twice or else the first two.
    pub fn sample(&self, first: &[i32], second: &[i32], weight: u32, channel: u8) -> i32
        requires first_least { 1 ≤ length first.now }
        requires first_most { length first.now ≤ 8 }
        requires first_range { All (λ sample. Is24 sample) first.now }
        requires second_least { 1 ≤ length second.now }
        requires second_most { length second.now ≤ 8 }
        requires second_range { All (λ sample. Is24 sample) second.now }
        requires weighted { weight < self.now.conversion.output_rate }
        requires channel { channel < self.now.channels }
        ensures value { result ≡ converted self.now first.now second.now weight channel }
        ensures range { Is24 result }
    {
        let before = channel_of(first, self.channels, channel);
        if weight == 0 {
            return before;
        }
        let after = channel_of(second, self.channels, channel);
        self.interpolator.blend(before, after, weight)
    }

    /// Both samples of a scene of two channels, left and right, as `sample` answers them.
    pub fn pair(&self, first: &[i32], second: &[i32], weight: u32) -> (i32, i32)
        requires first_least { 1 ≤ length first.now }
        requires first_range { All (λ sample. Is24 sample) first.now }
        requires second_least { 1 ≤ length second.now }
        requires second_range { All (λ sample. Is24 sample) second.now }
        requires weighted { weight < self.now.conversion.output_rate }
        requires two { self.now.channels ≡ 2 }
        ensures left { result.0 ≡ converted self.now first.now second.now weight 0 }
        ensures right { result.1 ≡ converted self.now first.now second.now weight 1 }
        ensures left_range { Is24 result.0 }
        ensures right_range { Is24 result.1 }
    {
        let before = to_stereo(first);
        if weight == 0 {
            return (before[0], before[1]);
        }
        let after = to_stereo(second);
        let left = self.interpolator.blend(before[0], after[0], weight);
        let right = self.interpolator.blend(before[1], after[1], weight);
        (left, right)
    }
}
