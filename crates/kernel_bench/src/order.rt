//! What the command line asks for.

use crate::blends::{self, Rate, Way};
use crate::blocks::{self, Channels};
use crate::kind::Kind;
use crate::pages;
use crate::sums::{self, Work};
use clip_decode::ClipError;
use std::alloc::Global;

/// A kernel's run: what it works on, and the number of its rounds.
#[derive(Clone, Copy)]
pub enum Order {
    /// Whole blocks of IMA ADPCM are decoded.
    Blocks(Channels, u32),
    /// A clip of a kind is decoded, page by page.
    Pages(Kind, u32),
    /// Samples are blended in one of two ways, at a rate.
    Blends(Way, Rate, u32),
    /// Sums are worked on.
    Sums(Work, u32),
}

impl Order {
    /// The order that all words give: a kernel, what it works on, and a number of rounds. `None`
    /// for any other words.
    pub fn read(words: &[String]) -> Option<Order> {
        match words {
            [kernel, channels, rounds] if kernel.as_str() == "blocks" => Some(Order::Blocks(
                Channels::read(channels.as_str())?,
                read_rounds(rounds.as_str())?,
            )),
            [kernel, kind, rounds] if kernel.as_str() == "pages" => Some(Order::Pages(
                Kind::read(kind.as_str())?,
                read_rounds(rounds.as_str())?,
            )),
            [kernel, way, rate, rounds] if kernel.as_str() == "blends" => Some(Order::Blends(
                Way::read(way.as_str())?,
                Rate::read(rate.as_str())?,
                read_rounds(rounds.as_str())?,
            )),
            [kernel, work, rounds] if kernel.as_str() == "sums" => Some(Order::Sums(
                Work::read(work.as_str())?,
                read_rounds(rounds.as_str())?,
            )),
            _ => None,
        }
    }

    /// Runs the kernel, and answers a number made of what it wrote.
    pub fn checksum(self, alloc: Global) -> Result<u32, ClipError> {
        match self {
            Order::Blocks(channels, rounds) => match blocks::checksum(alloc, channels, rounds) {
                Ok(sum) => Ok(sum),
                Err(_) => Err(ClipError::OutOfMemory),
            },
            Order::Pages(kind, rounds) => pages::checksum(alloc, kind, rounds),
            Order::Blends(way, rate, rounds) => Ok(blends::checksum(way, rate, rounds)),
            Order::Sums(work, rounds) => Ok(sums::checksum(work, rounds)),
        }
    }
}

fn read_rounds(word: &str) -> Option<u32> {
    word.parse::<u32>().ok()
}

/// A few rounds of each kernel, and what they are called.
pub fn few_rounds() -> [(&'static str, Order); 10] {
    let rate = Rate { hertz: 48_000 };
    [
        (
            "ima 1 channel, 3 rounds",
            Order::Blocks(Channels { count: 1 }, 3),
        ),
        (
            "ima 2 channels, 3 rounds",
            Order::Blocks(Channels { count: 2 }, 3),
        ),
        ("pcm16, 1 round", Order::Pages(Kind::Pcm16, 1)),
        ("pcm24, 1 round", Order::Pages(Kind::Pcm24, 1)),
        ("alaw, 1 round", Order::Pages(Kind::Alaw, 1)),
        ("ima, 1 round", Order::Pages(Kind::Ima, 1)),
        (
            "multiplied, 1 round",
            Order::Blends(Way::Multiplied, rate, 1),
        ),
        ("divided, 1 round", Order::Blends(Way::Divided, rate, 1)),
        ("add, 3 rounds", Order::Sums(Work::Add, 3)),
        ("settle, 3 rounds", Order::Sums(Work::Settle, 3)),
    ]
}
