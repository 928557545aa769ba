//! A clip brought to another rate.

ghost use Rattle.std.specs.Prelude.{◌≡◌, ◌<◌, ◌^◌, ◌*◌};
ghost use Rattle.rate_fit.specs.Conversion.{IsConversion, clip_len, length_of};
ghost use Rattle.rate_fit.specs.Points.{divided, point_at};

use crate::point::Point;
use std::marker::Model;

/// The frames of a clip of `frames` frames at the rate `input_rate`, brought to the rate `output_rate`, both in
/// frames a second.
#[derive(Clone, Copy, Debug, PartialEq, Eq)]
pub struct Fit {
    input_rate: u32,
    output_rate: u32,
    frames: u64,
}

impl Model for Fit {
    ghost use Rattle.rate_fit.specs.Conversion.{Conversion, IsConversion};

    ghost Value = { Conversion };

    ghost view = { λ f. record { input_rate = f.input_rate; output_rate = f.output_rate; frames = f.frames } };

    ghost invariant = { λ f. IsConversion (record { input_rate = f.input_rate; output_rate = f.output_rate; frames = f.frames }) };

    ghost inverse = { λ c. record { input_rate = c.input_rate; output_rate = c.output_rate; frames = c.frames } };
}

impl Fit {
    /// A clip of `frames` frames, at most 2^28, from the rate `input_rate` to the rate `output_rate`, each from 1
    /// to 768000 frames a second.
    pub fn new(input_rate: u32, output_rate: u32, frames: u64) -> Self
        requires { IsConversion (record { input_rate = input_rate; output_rate = output_rate; frames = frames }) }
        ensures { result ≡ record { input_rate = input_rate; output_rate = output_rate; frames = frames } }
    {
        Fit {
            input_rate,
            output_rate,
            frames,
        }
    }

    /// The rate of the clip that is converted, from 1 to 768000 frames a second.
    pub fn input_rate(&self) -> u32
        ensures rate { result ≡ self.now.input_rate }
        ensures limits { IsConversion self.now }
    {
        self.input_rate
    }

    /// The rate that is wanted, from 1 to 768000 frames a second.
    pub fn output_rate(&self) -> u32
        ensures rate { result ≡ self.now.output_rate }
        ensures limits { IsConversion self.now }
    {
        self.output_rate
    }

    /// The number of frames at the output rate: `frames * output_rate / input_rate`, rounded up.
    pub fn len(&self) -> u64
        ensures length { result ≡ clip_len self.now.frames self.now.input_rate self.now.output_rate }
        ensures limits { IsConversion self.now }
    {
        (self.frames * u64::from(self.output_rate)).div_ceil(u64::from(self.input_rate))
    }

    /// The place of frame `n`, below `len`, in the clip: `first` is below the clip's number of frames
    /// and `weight` below the output rate.
    pub fn at(&self, n: u64) -> Point
        requires { n < length_of self.now }
        ensures point { result ≡ point_at self.now.input_rate self.now.output_rate n }
        ensures inside { result.first < self.now.frames }
        ensures weighted { result.weight < self.now.output_rate }
    {
        divided(n * u64::from(self.input_rate), self.output_rate)
    }
}

/// The place `place / output_rate` of a clip.
pub(crate) fn divided(place: u64, output_rate: u32) -> Point
    requires { 0 < output_rate }
    ensures point { result ≡ divided place output_rate }
    ensures weighted { result.weight < output_rate }
{
    let output_rate = u64::from(output_rate);
    Point {
        first: place / output_rate,
        weight: (place % output_rate) as u32,
    }
}
