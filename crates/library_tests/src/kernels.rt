//! Kernels against the formulas of one sample, at each length around whole lanes.

use mix_fixed::{Gain, add_scaled, sat24, scale, settle};
use std::alloc::{AllocError, Global};
use std::process::Abort;
use std::test::Fail;

/// So many sums of this start, to each of which the sample was added by the gain.
fn added(
    rt: &impl Abort,
    alloc: Global,
    count: usize,
    start: i64,
    x: i32,
    gain: Gain,
) -> Result<Vec<i64>, AllocError> {
    assert!(rt; -8_388_608 <= x);
    assert!(rt; x <= 8_388_607);
    assert!(rt; -4_611_686_018_427_387_904 <= start);
    assert!(rt; start <= 4_611_686_018_427_387_904);
    let mut sums = vec![in alloc; start; count]?;
    let samples = vec![in alloc; x; count]?;
    add_scaled(&mut sums, &samples, gain);
    Ok(sums)
}

/// The sum of a start and of a sample by a gain.
fn sum(rt: &impl Abort, start: i64, x: i32, gain: Gain) -> i64 {
    assert!(rt; -8_388_608 <= x);
    assert!(rt; x <= 8_388_607);
    start.wrapping_add(i64::from(scale(x, gain)))
}

/// Starts, samples and gains at both ends of their ranges.
const CASES: &[(i64, i32, u32)] = &[
    (0, 8_388_607, 1_048_576),
    (4_611_686_018_427_387_904, 8_388_607, 1_048_576),
    (-4_611_686_018_427_387_904, -8_388_608, 1_048_576),
    (1, -1, 1),
    (-5, 7, 0),
    (-8_388_600, -9, 65_536),
];

#[test]
fn kernels_are_the_formulas_at_each_place(rt: HostRuntime) -> Result<(), Fail> {
    let alloc = rt.alloc();
    for (start, x, gain) in CASES {
        let gain = Gain::new(*gain).ok_or("a gain")?;
        let want = sum(&rt, *start, *x, gain);
        for count in 0..41 {
            let sums = added(&rt, alloc, count, *start, *x, gain)?;
            assert!(rt;
                sums.len() == count && sums.iter().all(|sum| *sum == want),
                "{count} {x}"
            );
            let mut settled = vec![in alloc; 0i32; count]?;
            assert!(rt; sums.len() == settled.len());
            settle(&sums, &mut settled);
            assert!(rt;
                settled.iter().all(|sample| *sample == sat24(want)),
                "{count} {x}"
            );
        }
    }
    Ok(())
}
