//! Words that write effects, and words that don't.

use fx_nodes::{Effect, read_effect};

const WRITTEN: [(&str, Effect); 10] = [
    (
        "delay:1:0",
        Effect::Delay {
            frames: 1,
            decay: 0,
        },
    ),
    (
        "delay:1048576:65536",
        Effect::Delay {
            frames: 1_048_576,
            decay: 65_536,
        },
    ),
    (
        "delay:0000000002:0000000003",
        Effect::Delay {
            frames: 2,
            decay: 3,
        },
    ),
    ("pan:0", Effect::Pan { place: 0 }),
    ("pan:65536", Effect::Pan { place: 65_536 }),
    (
        "fade:0:1:0:1048576",
        Effect::Fade {
            from: 0,
            to: 1,
            first: 0,
            last: 1_048_576,
        },
    ),
    (
        "fade:16777215:16777216:1048576:0",
        Effect::Fade {
            from: 16_777_215,
            to: 16_777_216,
            first: 1_048_576,
            last: 0,
        },
    ),
    ("level:0", Effect::Level { gain: 0 }),
    ("level:1048576", Effect::Level { gain: 1_048_576 }),
    ("level:0000000000", Effect::Level { gain: 0 }),
];

const OTHERS: [&str; 38] = [
    "",
    ":",
    "delay",
    "delay:",
    "delay::",
    "delay:1",
    "delay:0:0",
    "delay:1048577:0",
    "delay:1:65537",
    "delay:1:0:",
    "delay:1:0:0",
    "delay:00000000001:0",
    "delay:1:00000000000",
    "delay:+1:0",
    "delay:-1:0",
    "delay: 1:0",
    "delay:1:0 ",
    "delay:4294967297:0",
    "delay,1,0",
    "Delay:1:0",
    "pan:",
    "pan:65537",
    "pan:0:0",
    "pan:00000000000",
    "fade:4:4:0:1",
    "fade:5:4:0:1",
    "fade:0:16777217:0:1",
    "fade:0:1:1048577:0",
    "fade:0:1:0:1048577",
    "fade:0:1:0",
    "fade:0:1:0:1:1",
    "fade:0:1::1",
    "level:1048577",
    "level:4294967296",
    "level:9999999999",
    "level:0x1",
    "level:\u{0661}",
    "gain:1",
];

#[test]
fn words_write_effects_within_their_limits_alone(rt: HostRuntime) {
    for (word, effect) in WRITTEN {
        assert!(rt; read_effect(word) == Some(effect), "{word}");
    }
    for word in OTHERS {
        assert!(rt; read_effect(word) == None, "{word}");
    }
}
