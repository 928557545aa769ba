//! Points, blends and frames that were worked out by hand.

use rate_fit::{Fit, Interpolator, Point, Walker, blend, to_channels};
use std::process::Abort;

/// Rates in and out, the clip's frames, and the number of frames that they make.
const LENGTHS: [(u32, u32, u64, u64); 12] = [
    (44_100, 48_000, 88_200, 96_000),
    (48_000, 44_100, 96_000, 88_200),
    (48_000, 44_100, 95_999, 88_200),
    (8_000, 16_000, 8_193, 16_386),
    (1, 768_000, 1, 768_000),
    (1, 768_000, 268_435_456, 206_158_430_208_000),
    (768_000, 1, 768_000, 1),
    (768_000, 1, 768_001, 2),
    (768_000, 1, 268_435_456, 350),
    (768_000, 1, 1, 1),
    (44_100, 48_000, 0, 0),
    (8_000, 8_000, 1, 1),
];

/// Rates in and out, the clip's frames, a frame's number, and its place.
const POINTS: [(u32, u32, u64, u64, u64, u32); 14] = [
    (44_100, 48_000, 88_200, 0, 0, 0),
    (44_100, 48_000, 88_200, 1, 0, 44_100),
    (44_100, 48_000, 88_200, 2, 1, 40_200),
    (44_100, 48_000, 88_200, 160, 147, 0),
    (44_100, 48_000, 88_200, 24_000, 22_050, 0),
    (44_100, 48_000, 88_200, 95_999, 88_199, 3_900),
    (48_000, 44_100, 96_000, 1, 1, 3_900),
    (48_000, 44_100, 96_000, 147, 160, 0),
    (8_000, 16_000, 8_193, 16_383, 8_191, 8_000),
    (
        1,
        768_000,
        268_435_456,
        206_158_430_207_999,
        268_435_455,
        767_999,
    ),
    (768_000, 1, 268_435_456, 349, 268_032_000, 0),
    (768_000, 1, 1, 0, 0, 0),
    (8_000, 8_000, 1, 0, 0, 0),
    (768_000, 768_000, 268_435_456, 268_435_455, 268_435_455, 0),
];

/// Rates in and out, the clip's frames, and the frame at which a walk begins.
const WALKS: [(u32, u32, u64, u64); 9] = [
    (44_100, 48_000, 300, 0),
    (48_000, 44_100, 300, 7),
    (11_025, 7, 40_000, 3),
    (7, 11_025, 1, 0),
    (1, 768_000, 268_435_456, 206_158_430_207_000),
    (768_000, 1, 268_435_456, 0),
    (767_999, 768_000, 500, 499),
    (8_000, 8_000, 1, 1),
    (44_100, 48_000, 0, 0),
];

/// Two samples, the weight of the second, the rate, and the sample between the two.
const BLENDS: [(i32, i32, u32, u32, i32); 9] = [
    (1_000, 2_001, 8_000, 16_000, 1_500),
    (-1_000, -2_001, 8_000, 16_000, -1_501),
    (0, 5_120, 44_100, 48_000, 4_704),
    (0, -5_120, 44_100, 48_000, -4_704),
    (0, -1, 1, 768_000, -1),
    (3, 7, 0, 1, 3),
    (8_388_607, 8_388_607, 767_999, 768_000, 8_388_607),
    (-8_388_608, -8_388_608, 767_999, 768_000, -8_388_608),
    (8_388_607, -8_388_608, 1, 2, -1),
];

fn fit(rt: &impl Abort, input_rate: u32, output_rate: u32, frames: u64) -> Fit {
    assert!(rt; 1 <= input_rate);
    assert!(rt; input_rate <= 768_000);
    assert!(rt; 1 <= output_rate);
    assert!(rt; output_rate <= 768_000);
    assert!(rt; frames <= 268_435_456);
    Fit::new(input_rate, output_rate, frames)
}

fn point(rt: &impl Abort, fit: &Fit, n: u64) -> Point {
    assert!(rt; n < fit.len());
    fit.at(n)
}

/// The sample between `a` and `b`, by division and by the reciprocal.
fn between(rt: &impl Abort, a: i32, b: i32, weight: u32, output_rate: u32) -> (i32, i32) {
    assert!(rt; -8_388_608 <= a);
    assert!(rt; a <= 8_388_607);
    assert!(rt; -8_388_608 <= b);
    assert!(rt; b <= 8_388_607);
    assert!(rt; weight < output_rate);
    assert!(rt; output_rate <= 768_000);
    let interpolator = Interpolator::new(output_rate);
    (
        blend(a, b, weight, output_rate),
        interpolator.blend(a, b, weight),
    )
}

/// Walks from frame `from` to the end, and on.
fn walk(rt: &impl Abort, fit: &Fit, from: u64) {
    let len = fit.len();
    assert!(rt; from <= len);
    let mut walker = Walker::new(fit, from);
    for n in from..len {
        assert_eq!(rt; walker.next(), Some(point(rt, fit, n)), "frame {n}");
    }
    assert_eq!(rt; walker.next(), None);
    assert_eq!(rt; walker.next(), None);
}

#[test]
fn rates_have_the_lengths_points_and_blends_that_were_worked_out(rt: HostRuntime) {
    for (input_rate, output_rate, frames, len) in LENGTHS {
        let fit = fit(&rt, input_rate, output_rate, frames);
        assert_eq!(rt;
            (fit.input_rate(), fit.output_rate()),
            (input_rate, output_rate)
        );
        assert_eq!(rt; fit.len(), len, "{input_rate} to {output_rate}");
    }
    for (input_rate, output_rate, frames, n, first, weight) in POINTS {
        let found = point(&rt, &fit(&rt, input_rate, output_rate, frames), n);
        assert_eq!(rt;
            found,
            Point { first, weight },
            "{input_rate} to {output_rate}: frame {n}"
        );
    }
    for (input_rate, output_rate, frames, from) in WALKS {
        walk(&rt, &fit(&rt, input_rate, output_rate, frames), from);
    }
    for (a, b, weight, output_rate, want) in BLENDS {
        assert_eq!(rt;
            between(&rt, a, b, weight, output_rate),
            (want, want),
            "{a} {b} {weight} {output_rate}"
        );
    }
}

#[test]
fn frames_are_brought_to_one_or_two_channels(rt: HostRuntime) {
    let mut two = [0; 2];
    let mut one = [0; 1];
    to_channels(&[1, -2, 5], &mut two);
    assert_eq!(rt; two, [1, -2]);
    to_channels(&[1, -2, 5], &mut one);
    assert_eq!(rt; one, [1]);
    to_channels(&[-1, 0], &mut one);
    assert_eq!(rt; one, [-1]);
    to_channels(&[9], &mut two);
    assert_eq!(rt; two, [9, 9]);
    to_channels(&[3, 4], &mut two);
    assert_eq!(rt; two, [3, 4]);
    to_channels(&[8_388_607; 8], &mut one);
    assert_eq!(rt; one, [8_388_607]);
}
