//! Gains, scaling and saturation.

use mix_fixed::{Gain, sat24, scale};
use std::process::Abort;

fn scaled(rt: &impl Abort, x: i32, gain: u32) -> i32 {
    assert!(rt; -8_388_608 <= x);
    assert!(rt; x <= 8_388_607);
    let gain = Gain::new(gain).expect(rt, "a gain");
    scale(x, gain)
}

#[test]
fn gains_and_samples_keep_their_limits(rt: HostRuntime) {
    assert_eq!(rt;
        Gain::new(1_048_576).map(|gain| gain.get()),
        Some(1_048_576)
    );
    assert_eq!(rt; Gain::new(1_048_577), None);
    for (x, gain, want) in [
        (8_388_607, 1_048_576, 134_217_712),
        (-8_388_608, 1_048_576, -134_217_728),
        (-1, 65_536, -1),
        (-1, 1, -1),
        (1, 65_535, 0),
        (5, 0, 0),
    ] {
        assert_eq!(rt; scaled(&rt, x, gain), want, "{x} {gain}");
    }
    for (x, want) in [(8_388_608, 8_388_607), (i64::MIN, -8_388_608), (-7, -7)] {
        assert_eq!(rt; sat24(x), want, "{x}");
    }
}
