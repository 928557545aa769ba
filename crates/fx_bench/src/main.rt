//! Runs a chain of effects over frames that a generator makes, for `bench/effects.sh`, and prints a checksum of what it
//! wrote.
//!
//! `fx_bench EFFECTS BLOCKS` makes so many blocks of 512 frames, and runs each through the chain of the effects, up
//! to 16, whose words have `+` between them: `delay:100:32768+pan:16384`. `none` is a chain of no effects. With no words it makes a few
//! blocks for each of [`CHAINS`].
#![tactic(auto)]

mod blocks;
mod order;

use order::Order;
use std::{env, io};

const USAGE: &str = "usage: fx_bench [EFFECTS BLOCKS]";

/// Each effect alone, and some together.
const CHAINS: [&str; 7] = [
    "none",
    "delay:1:32768",
    "delay:1000:65536",
    "pan:16384",
    "fade:100:3000:0:1048576",
    "level:70000",
    "delay:3:40000+level:50000+fade:0:5000:65536:0+pan:50000",
];

fn main(rt: HostRuntime) -> io::Result<()> {
    let words: Vec<String> = env::args(&rt)?.skip(1).collect(rt.alloc())?;
    match words.as_slice() {
        [] => {
            for effects in CHAINS {
                tell(&rt, effects, "10")?;
            }
            Ok(())
        }
        [effects, blocks] => tell(&rt, effects.as_str(), blocks.as_str()),
        _ => println!(rt; "{USAGE}"),
    }
}

/// Does what two words ask for, and prints the checksum.
fn tell(rt: &HostRuntime, effects: &str, blocks: &str) -> io::Result<()> {
    match Order::read(rt.alloc(), effects, blocks) {
        Ok(Some(order)) => match order.checksum(rt.alloc()) {
            Ok(sum) => println!(rt; "{sum}"),
            Err(error) => println!(rt; "no checksum: {error}"),
        },
        Ok(None) => println!(rt; "{USAGE}"),
        Err(error) => println!(rt; "no checksum: {error}"),
    }
}
