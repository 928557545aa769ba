//! Adding samples to sums by a gain, and the samples of sums.

ghost use Rattle.mix_fixed.specs.Kernels.{AreSamples};

use crate::checksum::mixed;
use crate::generator::Generator;
use mix_fixed::{Gain, add_scaled, sat24, settle};

/// The sums of a round: 512 frames of two channels.
pub const SUMS: usize = 1024;

/// What is done to sums.
#[derive(Clone, Copy)]
pub enum Work {
    /// Samples are added by a gain to sums of 0.
    Add,
    /// Sums are brought to 24 bits.
    Settle,
}

impl Work {
    /// The work that a word names; `None` for any other word.
    pub fn read(word: &str) -> Option<Work> {
        match word {
            "add" => Some(Work::Add),
            "settle" => Some(Work::Settle),
            _ => None,
        }
    }
}

/// Does the work in each round, and answers a number made of one result of each round and of all of
/// the last.
pub fn checksum(work: Work, rounds: u32) -> u32 {
    let mut generator = Generator::new(1);
    let mut sums = [0i64; SUMS];
    for i in 0..SUMS {
        sums[i] = drawn(&mut generator);
    }
    match work {
        Work::Add => {
            let mut samples = [0i32; SUMS];
            settle(&sums, &mut samples);
            add_rounds(&mut generator, &samples, rounds)
        }
        Work::Settle => settle_rounds(&mut generator, &mut sums, rounds),
    }
}

fn add_rounds(generator: &mut Generator, samples: &[i32; SUMS], rounds: u32) -> u32
    requires { AreSamples samples.now }
{
    let mut added = [0i64; SUMS];
    let mut sum = 0;
    for _ in 0..rounds {
        add_round(&mut added, samples, generator.next_state() >> 12);
        sum = mixed(sum, sat24(added[SUMS - 1]));
    }
    added.iter().fold(sum, |sum, one| mixed(sum, sat24(*one)))
}

/// Adds the samples by the gain of so many parts of 65536 to sums of 0.
fn add_round(added: &mut [i64; SUMS], samples: &[i32; SUMS], gain: u32)
    requires { AreSamples samples.now }
{
    *added = [0i64; SUMS];
    if let Some(gain) = Gain::new(gain) {
        add_scaled(added, samples, gain);
    }
}

fn settle_rounds(generator: &mut Generator, sums: &mut [i64; SUMS], rounds: u32) -> u32 {
    let mut samples = [0i32; SUMS];
    let mut sum = 0;
    for _ in 0..rounds {
        sums[SUMS - 1] = drawn(generator);
        settle(sums, &mut samples);
        sum = mixed(sum, samples[SUMS - 1]);
    }
    samples.iter().fold(sum, |sum, one| mixed(sum, *one))
}

/// A sum from -2^25 to 2^25, of which about a quarter lies within 24 bits.
fn drawn(generator: &mut Generator) -> i64 {
    (i64::from(generator.next_state()) - 2_147_483_648) / 64
}
