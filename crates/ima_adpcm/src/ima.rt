//! The decoder of one channel.

ghost use Rattle.std.specs.Prelude.{◌≡◌, ◌<◌, ◌≤◌, ◌↔◌, ◌^◌, IsNone, IfSome};
ghost use Rattle.std.specs.Int.{saturate_signed, w16};
ghost use Rattle.ima_adpcm.specs.Quantizer.{last_index};
ghost use Rattle.ima_adpcm.specs.Decoder.{State, after, moved_predictor};

use crate::quantizer::{LAST_INDEX, difference, next_index, step_size};
use std::marker::Model;

/// The decoder of one channel: the last sample, of 16 bits, and an index of the step table, from 0
/// to 88.
#[derive(Clone, Copy, Debug, PartialEq, Eq)]
pub struct Ima {
    predictor: i16,
    index: u8,
}

impl Model for Ima {
    ghost Value = { State };

    ghost view = { λ s. record { predictor = s.predictor; index = s.index } };

    ghost invariant = { λ s. s.index ≤ last_index };

    ghost inverse = { λ s. record { predictor = s.predictor; index = s.index } };
}

impl Ima {
    /// A decoder with this predictor and this step index; `None` exactly where the index is above
    /// 88.
    pub fn new(predictor: i16, index: u8) -> Option<Self>
        ensures none { IsNone result ↔ (last_index < index) }
        ensures some { IfSome result (λ s. s ≡ record { predictor = predictor; index = index }) }
    {
        if index > LAST_INDEX {
            None
        } else {
            Some(Ima { predictor, index })
        }
    }

    /// The last sample, of 16 bits.
    pub fn predictor(self) -> i16
        ensures { result ≡ self.predictor }
    {
        self.predictor
    }

    /// Decodes one code, below 16, and answers its sample, which is the new predictor.
    pub fn step(&mut self, code: u8) -> i16
        requires { code < 16 }
        ensures state { self.new ≡ after self.old code }
        ensures sample { result ≡ self.new.predictor }
    {
        let by = difference(step_size(self.index), code);
        self.predictor = moved(self.predictor, by, code);
        self.index = next_index(self.index, code);
        self.predictor
    }
}

/// The predictor moved down where bit 3 of the code is set, and else up, held within 16 bits.
fn moved(predictor: i16, by: u32, code: u8) -> i16
    requires { by < 2 ^ 17 }
    ensures { result ≡ moved_predictor predictor by code }
{
    let by = by as i32;
    let change = if code / 8 % 2 == 1 { -by } else { by };
    nearest_sample(i32::from(predictor) + change)
}

/// The sample of 16 bits that is nearest to `x`.
fn nearest_sample(x: i32) -> i16
    ensures { result ≡ saturate_signed w16 x }
{
    x.clamp(i32::from(i16::MIN), i32::from(i16::MAX)) as i16
}
