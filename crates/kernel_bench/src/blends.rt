//! Blending pairs of samples.

ghost use Rattle.std.specs.Prelude.{◌≡◌, ◌≤◌};
ghost use Rattle.mix_fixed.specs.Sound.{Is24};

use crate::checksum::mixed;
use crate::generator::Generator;
use rate_fit::{Interpolator, blend};

/// The pairs of samples of a round.
pub const PAIRS: u32 = 1_048_576;

/// How samples are blended.
#[derive(Clone, Copy)]
pub enum Way {
    /// By a multiplication by a reciprocal.
    Multiplied,
    /// By a division.
    Divided,
}

impl Way {
    /// The way that a word names; `None` for any other word.
    pub fn read(word: &str) -> Option<Way> {
        match word {
            "multiplied" => Some(Way::Multiplied),
            "divided" => Some(Way::Divided),
            _ => None,
        }
    }
}

/// A rate, 1 to 768000 Hz.
#[derive(Clone, Copy)]
pub struct Rate {
    pub hertz: u32,
    ghost some: { 1 ≤ hertz },
    ghost most: { hertz ≤ 768000 },
}

impl Rate {
    /// The rate that a word gives; `None` for a word that is no such number.
    pub fn read(word: &str) -> Option<Rate> {
        let hertz = word.parse::<u32>().ok()?;
        if (1..=768_000).contains(&hertz) {
            Some(Rate { hertz })
        } else {
            None
        }
    }
}

/// Blends the pairs in each round, and answers a number made of all results.
pub fn checksum(way: Way, rate: Rate, rounds: u32) -> u32 {
    let interpolator = Interpolator::new(rate.hertz);
    let mut sum = 0;
    for _ in 0..rounds {
        sum = match way {
            Way::Multiplied => multiply_pairs(&interpolator, rate, sum),
            Way::Divided => divide_pairs(rate, sum),
        };
    }
    sum
}

fn multiply_pairs(interpolator: &Interpolator, rate: Rate, sum: u32) -> u32
    requires { interpolator.now ≡ rate.hertz }
{
    let mut sum = sum;
    let mut generator = Generator::new(1);
    for _ in 0..PAIRS {
        let drawn = generator.next_state();
        let blended = interpolator.blend(high_half(drawn), low_half(drawn), drawn % rate.hertz);
        sum = mixed(sum, blended);
    }
    sum
}

fn divide_pairs(rate: Rate, sum: u32) -> u32 {
    let mut sum = sum;
    let mut generator = Generator::new(1);
    for _ in 0..PAIRS {
        let drawn = generator.next_state();
        let blended = blend(
            high_half(drawn),
            low_half(drawn),
            drawn % rate.hertz,
            rate.hertz,
        );
        sum = mixed(sum, blended);
    }
    sum
}

/// The high half of a number as a sample of 24 bits.
fn high_half(drawn: u32) -> i32
    ensures { Is24 result }
{
    ((drawn >> 16) as i32 - 32_768) * 256
}

/// Its low half as one.
fn low_half(drawn: u32) -> i32
    ensures { Is24 result }
{
    ((drawn % 65_536) as i32 - 32_768) * 256
}
