//! The longest delay.

use crate::chains::{chain_of, next, samples};
use std::test::Fail;

#[test]
fn the_longest_delay_comes_after_1048576_frames(rt: HostRuntime) -> Result<(), Fail> {
    let alloc = rt.alloc();
    let mut chain = chain_of(&rt, alloc, &["delay:1048576:65536"])?;
    let mut click = samples(alloc, &[5_000, -7])?;
    next(&rt, &mut chain, &mut click);
    assert!(rt; click.as_slice() == [5_000, -7].as_slice());
    for _ in 0..1_023 {
        let mut silence = samples(alloc, &[0; 2_048])?;
        next(&rt, &mut chain, &mut silence);
        assert!(rt; silence.as_slice() == [0; 2_048].as_slice());
    }
    let mut last = samples(alloc, &[0; 2_050])?;
    next(&rt, &mut chain, &mut last);
    let mut wanted = [0; 2_050];
    wanted[2_046] = 5_000;
    wanted[2_047] = -7;
    assert!(rt; last.as_slice() == wanted.as_slice());
    assert!(rt; chain.frames_taken() == 1_048_578);
    Ok(())
}
