//! Runs a kernel over bytes that a generator makes, for `bench/`, and prints a checksum of what it
//! wrote.
//!
//! - `kernel_bench blocks CHANNELS ROUNDS` decodes [`blocks::BLOCKS`] whole blocks of IMA ADPCM in
//!   each round, mono (1) or stereo (2).
//! - `kernel_bench pages KIND ROUNDS` decodes all pages of a clip of 4 MiB in each round: `pcm16`,
//!   `pcm24` or `alaw` (stereo), or `ima` (mono).
//! - `kernel_bench blends WAY RATE ROUNDS` blends [`blends::PAIRS`] pairs of samples in each round,
//!   at a rate of 1 to 768000 Hz: `multiplied`, by a reciprocal, or `divided`.
//! - `kernel_bench sums WORK ROUNDS` works on [`sums::SUMS`] sums in each round: `add` adds samples
//!   to them by a gain, `settle` brings them to 24 bits.
//!
//! With no words it runs a few rounds of each.
#![tactic(auto)]

mod blends;
mod blocks;
mod checksum;
mod clips;
mod generator;
mod kind;
mod order;
mod pages;
mod sums;

use order::{Order, few_rounds};
use std::{env, io};

const USAGE: &str = "usage: kernel_bench [blocks CHANNELS ROUNDS | pages KIND ROUNDS | \
    blends WAY RATE ROUNDS | sums WORK ROUNDS]";

fn main(rt: HostRuntime) -> io::Result<()> {
    let words: Vec<String> = env::args(&rt)?.skip(1).collect(rt.alloc())?;
    if words.is_empty() {
        return run_each(&rt);
    }
    match Order::read(&words) {
        Some(order) => match order.checksum(rt.alloc()) {
            Ok(sum) => println!(rt; "{sum}"),
            Err(error) => println!(rt; "no checksum: {error:?}"),
        },
        None => println!(rt; "{USAGE}"),
    }
}

/// Runs a few rounds of each kernel.
fn run_each(rt: &HostRuntime) -> io::Result<()> {
    for (label, order) in few_rounds() {
        match order.checksum(rt.alloc()) {
            Ok(sum) => println!(rt; "{label}: {sum}")?,
            Err(error) => println!(rt; "{label}: no checksum: {error:?}")?,
        }
    }
    Ok(())
}
