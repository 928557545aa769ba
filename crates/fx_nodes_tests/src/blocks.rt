//! Frames that come in blocks of several lengths.

use crate::chains::{chain_of, next, samples};
use std::alloc::Global;
use std::process::Abort;
use std::test::Fail;

/// Sixteen effects, with delays shorter and longer than the blocks, and a fade that ends inside one.
const SIXTEEN: [&str; 16] = [
    "delay:1:65536",
    "delay:3:40000",
    "level:70000",
    "fade:5:600:0:131072",
    "pan:20000",
    "delay:7:1",
    "fade:100:101:65536:30000",
    "delay:511:65535",
    "pan:40000",
    "delay:512:50000",
    "fade:0:1300:1048576:0",
    "delay:513:0",
    "level:65536",
    "delay:700:65536",
    "fade:9:1999:3:200000",
    "level:1048576",
];

/// What a chain makes of frames that are cut into blocks of so many samples.
fn given(
    rt: &impl Abort,
    alloc: Global,
    words: &[&str],
    frames: &[i32],
    block_len: usize,
) -> Result<Vec<i32>, Fail> {
    assert!(rt; 0 < block_len);
    let mut chain = chain_of(rt, alloc, words)?;
    let mut given = Vec::new(alloc);
    for cut in frames.chunks(block_len) {
        let mut block = samples(alloc, cut)?;
        next(rt, &mut chain, &mut block);
        given.extend_from_slice(&block)?;
    }
    Ok(given)
}

#[test]
fn all_cuttings_give_the_same(rt: HostRuntime) -> Result<(), Fail> {
    let alloc = rt.alloc();
    let mut frames = Vec::new(alloc);
    let mut state = 1u32;
    for _ in 0..4_000 {
        state = state.wrapping_mul(1_664_525).wrapping_add(1_013_904_223);
        frames.push(state.cast_signed() >> 10)?;
    }
    let whole = given(&rt, alloc, &SIXTEEN, &frames, 4_000)?;
    assert!(rt; whole.len() == 4_000);
    for frames_each in [1, 7, 512, 1_999] {
        let cut = given(&rt, alloc, &SIXTEEN, &frames, 2 * frames_each)?;
        assert!(rt; cut == whole, "blocks of {frames_each}");
    }
    for count in 1..SIXTEEN.len() {
        let words = &SIXTEEN[..count];
        let whole = given(&rt, alloc, words, &frames, 4_000)?;
        let cut = given(&rt, alloc, words, &frames, 14)?;
        assert!(rt; cut == whole, "{count} effects");
    }
    Ok(())
}
