//! Frames whose values were worked out by hand.

use crate::chains::{chain_of, next, samples};
use std::test::Fail;

const LEAST: i32 = -8_388_608;

const GREATEST: i32 = 8_388_607;

/// The effects of a chain, frames, and what it makes of them.
struct Row {
    words: &'static [&'static str],
    frames: &'static [i32],
    wanted: &'static [i32],
}

const STEADY: [i32; 10] = [256_000; 10];

const FRAME: [i32; 2] = [1_000_000, -3];

const ROWS: [Row; 17] = [
    Row {
        words: &["delay:2:32768"],
        frames: &[256_000, 256_000, 0, 0, 0, 0, 0, 0, 0, 0],
        wanted: &[
            256_000, 256_000, 0, 0, 256_000, 256_000, 0, 0, 128_000, 128_000,
        ],
    },
    Row {
        words: &["delay:1:0"],
        frames: &[3, -5, 0, 0, 0, 0],
        wanted: &[3, -5, 3, -5, 0, 0],
    },
    Row {
        words: &["delay:1:65536"],
        frames: &[3, -5, 0, 0, 0, 0],
        wanted: &[3, -5, 3, -5, 3, -5],
    },
    Row {
        words: &["delay:1:65536"],
        frames: &[GREATEST, LEAST, GREATEST, LEAST, 0, 0],
        wanted: &[GREATEST, LEAST, GREATEST, LEAST, GREATEST, LEAST],
    },
    Row {
        words: &["fade:0:4:0:65536", "pan:16384"],
        frames: &STEADY,
        wanted: &[
            0, 0, 64_000, 32_000, 128_000, 64_000, 192_000, 96_000, 256_000, 128_000,
        ],
    },
    Row {
        words: &["fade:2:4:65536:0"],
        frames: &STEADY,
        wanted: &[
            256_000, 256_000, 256_000, 256_000, 256_000, 256_000, 128_000, 128_000, 0, 0,
        ],
    },
    Row {
        words: &["fade:0:16777216:1048576:0"],
        frames: &[1_000, 1_000, 1_000, -1_000],
        wanted: &[16_000, 16_000, 15_999, -16_000],
    },
    Row {
        words: &["fade:16777215:16777216:0:1"],
        frames: &STEADY,
        wanted: &[0; 10],
    },
    Row {
        words: &["fade:0:1:1048576:65536"],
        frames: &[1_000_000, LEAST, 5, -5],
        wanted: &[GREATEST, LEAST, 5, -5],
    },
    Row {
        words: &["pan:0"],
        frames: &FRAME,
        wanted: &[1_000_000, 0],
    },
    Row {
        words: &["pan:65536"],
        frames: &FRAME,
        wanted: &[0, -3],
    },
    Row {
        words: &["pan:32768"],
        frames: &FRAME,
        wanted: &FRAME,
    },
    Row {
        words: &["pan:16384"],
        frames: &FRAME,
        wanted: &[1_000_000, -2],
    },
    Row {
        words: &["level:0"],
        frames: &FRAME,
        wanted: &[0, 0],
    },
    Row {
        words: &["level:1"],
        frames: &FRAME,
        wanted: &[15, -1],
    },
    Row {
        words: &["level:65536"],
        frames: &FRAME,
        wanted: &FRAME,
    },
    Row {
        words: &["level:1048576", "pan:49152"],
        frames: &FRAME,
        wanted: &[4_194_303, -48],
    },
];

#[test]
fn frames_have_the_values_that_were_worked_out(rt: HostRuntime) -> Result<(), Fail> {
    let alloc = rt.alloc();
    for row in &ROWS {
        let mut chain = chain_of(&rt, alloc, row.words)?;
        let mut frames = samples(alloc, row.frames)?;
        next(&rt, &mut chain, &mut frames);
        assert!(rt; frames.as_slice() == row.wanted, "{}", row.words[0]);
    }
    Ok(())
}
