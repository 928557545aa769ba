//! Blocks of frames that a generator makes.

ghost use Rattle.std.specs.Prelude.{◌≡◌, All};
ghost use Rattle.mix_fixed.specs.Sound.{Is24};

use fx_nodes::Chain;
use mix_fixed::sat24;

/// The samples of a block: 512 frames of two channels.
const SAMPLES: usize = 1_024;

/// The frames after which a chain takes no more blocks here.
const MOST_FRAMES: u32 = 2_147_483_648;

/// Runs blocks through a chain, and answers a number made of one sample of each and of all of the last.
pub fn run(chain: &mut Chain, blocks: u32) -> u32 {
    let mut state = 1;
    let mut frames = [0; SAMPLES];
    let mut sum = 0;
    for _ in 0..blocks {
        state = fill(&mut frames, state);
        if chain.frames_taken() < MOST_FRAMES {
            chain.block(&mut frames);
        }
        sum = mixed(sum, frames[SAMPLES - 1]);
    }
    frames.iter().fold(sum, |sum, sample| mixed(sum, *sample))
}

/// Fills a block with the next samples of a linear congruential generator, `x' = 1664525 x + 1013904223` modulo 2^32, and
/// answers the generator's new state.
fn fill(frames: &mut [i32; SAMPLES], state: u32) -> u32
    ensures { All Is24 frames.new }
{
    let mut state = state;
    for i in 0..SAMPLES {
        state = state.wrapping_mul(1_664_525).wrapping_add(1_013_904_223);
        frames[i] = sat24(i64::from(state >> 7) - 16_777_216);
    }
    state
}

/// The checksum with one more sample.
fn mixed(sum: u32, sample: i32) -> u32 {
    sum.wrapping_mul(31).wrapping_add(sample.cast_unsigned())
}
