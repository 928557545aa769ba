//! The top of a script, and whether its tables are arrays of tables.

use crate::scripts::{
    BUS, GAIN, NODES, OutOfLimits, Scripts, TOP, check_limits, check_scripts, fault_of,
    fault_of_pieces,
};
use scene_script::{SceneFault, TableKind, Which};
use std::test::Fail;

const VERSION: &str = "version = 1\n";

const RATE: &str = "rate = 8000\n";

const CHANNELS: &str = "channels = 1\n";

const WIDTH: &str = "width = 16\n";

const LENGTH: &str = "length = 600\n";

/// Scenes. A byte order mark may lead, and an array of tables may be written inline or be empty.
const SCENES: Scripts = &[
    &[TOP],
    &[NODES, BUS, GAIN, "value = 3\n"],
    &[VERSION, "rate = 768000\n", CHANNELS, WIDTH, LENGTH],
    &[VERSION, "rate = 1\n", CHANNELS, WIDTH, LENGTH],
    &[VERSION, RATE, "channels = 2\n", WIDTH, LENGTH],
    &[VERSION, RATE, CHANNELS, "width = 24\n", LENGTH],
    &[VERSION, RATE, CHANNELS, WIDTH, "length = 0\n"],
    &[VERSION, RATE, CHANNELS, WIDTH, "length = 16777216\n"],
    &["\u{feff}version = 1\n", RATE, CHANNELS, WIDTH, LENGTH],
    &[TOP, "resource = []\n"],
    &[TOP, "node = []\n"],
    &[TOP, "bus = []\n"],
    &[TOP, "edit = []\n"],
    &[
        TOP,
        "resource = [{name='r', file='f'}]\n[[node]]\nkind='sound'\nname='s'\nresource='r'\n",
    ],
];

/// No TOML: a key twice, an integer that has more than 64 bits, a table that is also an array.
const NO_TOML: Scripts = &[
    &["version"],
    &["version = 1\nversion = 1\n"],
    &[
        VERSION,
        RATE,
        CHANNELS,
        WIDTH,
        "length = 99999999999999999999\n",
    ],
    &[TOP, "[resource]\n[[resource]]\n"],
];

/// A key is absent. Nothing else is looked at where there is no version.
const MISSING_KEYS: Scripts = &[
    &[],
    &["foo = 1\n"],
    &["version = 1\n"],
    &[VERSION, RATE, WIDTH, LENGTH],
    &[VERSION, RATE, CHANNELS, LENGTH],
    &[VERSION, RATE, CHANNELS, WIDTH],
];

/// A value of another kind.
const WRONG_KINDS: Scripts = &[
    &["version = '1'\n"],
    &["version = 1.0\n"],
    &["version.x = 1\n"],
    &["version=1\nrate=true\n"],
    &[VERSION, RATE, "channels = '1'\n", WIDTH, LENGTH],
    &[VERSION, RATE, CHANNELS, "width = 16.0\n", LENGTH],
];

/// A key that no script has. It comes before the numbers.
const UNKNOWN_KEYS: Scripts = &[
    &["version = 1\nfoo = 1\n"],
    &["version = 1\nfoo = 1\nrate = 0"],
];

/// Other versions, also beside other faults.
const VERSIONS: &[(&str, i64)] = &[
    ("version = 2\n", 2),
    ("version = 0\n", 0),
    ("version = -1\n", -1),
    (
        "version = 9223372036854775807\nfoo = 1",
        9_223_372_036_854_775_807,
    ),
];

/// Numbers out of their limits, the first one in the order of the form.
const LIMITS: &[OutOfLimits] = &[
    (&["version = 1\nrate = 0\n"], Which::Rate, 0, 1),
    (
        &["version = 1\nrate = 768001\n"],
        Which::Rate,
        768_001,
        768_000,
    ),
    (&["version = 1\nrate = -5\n"], Which::Rate, -5, 1),
    (
        &[VERSION, RATE, "channels = 3\n", WIDTH, LENGTH],
        Which::Channels,
        3,
        2,
    ),
    (
        &[VERSION, RATE, "channels = 0\n", WIDTH, LENGTH],
        Which::Channels,
        0,
        1,
    ),
    (
        &[VERSION, RATE, CHANNELS, "width = -1\n", LENGTH],
        Which::Width,
        -1,
        24,
    ),
    (
        &[VERSION, RATE, CHANNELS, "width = 0\n", LENGTH],
        Which::Width,
        0,
        24,
    ),
    (
        &[VERSION, RATE, CHANNELS, "width = 15\n", LENGTH],
        Which::Width,
        15,
        24,
    ),
    (
        &[VERSION, RATE, CHANNELS, "width = 17\n", LENGTH],
        Which::Width,
        17,
        24,
    ),
    (
        &[VERSION, RATE, CHANNELS, "width = 23\n", LENGTH],
        Which::Width,
        23,
        24,
    ),
    (
        &[VERSION, RATE, CHANNELS, "width = 25\n", LENGTH],
        Which::Width,
        25,
        24,
    ),
    (
        &[VERSION, RATE, CHANNELS, "width = 32\n", LENGTH],
        Which::Width,
        32,
        24,
    ),
    (
        &[VERSION, RATE, CHANNELS, WIDTH, "length = 16777217\n"],
        Which::Length,
        16_777_217,
        16_777_216,
    ),
    (
        &[VERSION, RATE, CHANNELS, WIDTH, "length = -1\n"],
        Which::Length,
        -1,
        0,
    ),
    (
        &[VERSION, "rate = 0\nchannels = 9\n", WIDTH, LENGTH],
        Which::Rate,
        0,
        1,
    ),
];

/// What stands behind the top of a script, and the table of it that is no array of tables.
const NO_ARRAYS: &[(&str, TableKind)] = &[
    ("resource = 1\n", TableKind::Resource),
    ("[resource]\n", TableKind::Resource),
    ("resource = [1]\n", TableKind::Resource),
    ("resource = [{}, 1]\n", TableKind::Resource),
    ("resource = [[]]\n", TableKind::Resource),
    ("node = 1\n", TableKind::Node),
    ("[node]\n", TableKind::Node),
    ("node = [1]\n", TableKind::Node),
    ("node = [{}, 1]\n", TableKind::Node),
    ("node = [[]]\n", TableKind::Node),
    ("bus = 1\n", TableKind::Bus),
    ("[bus]\n", TableKind::Bus),
    ("bus = [1]\n", TableKind::Bus),
    ("bus = [{}, 1]\n", TableKind::Bus),
    ("bus = [[]]\n", TableKind::Bus),
    ("edit = 1\n", TableKind::Edit),
    ("[edit]\n", TableKind::Edit),
    ("edit = [1]\n", TableKind::Edit),
    ("edit = [{}, 1]\n", TableKind::Edit),
    ("edit = [[]]\n", TableKind::Edit),
    ("edit = 1\nbus = 1\n", TableKind::Bus),
];

#[test]
fn tops_of_scripts_are_answered(rt: HostRuntime) -> Result<(), Fail> {
    let alloc = rt.alloc();
    check_scripts(&rt, alloc, SCENES, None)?;
    let fault = SceneFault::NotToml;
    check_scripts(&rt, alloc, NO_TOML, Some(fault))?;
    let fault = SceneFault::MissingKey {
        table: TableKind::Scene,
        row: 0,
    };
    check_scripts(&rt, alloc, MISSING_KEYS, Some(fault))?;
    let fault = SceneFault::WrongKind {
        table: TableKind::Scene,
        row: 0,
    };
    check_scripts(&rt, alloc, WRONG_KINDS, Some(fault))?;
    let fault = SceneFault::UnknownKey {
        table: TableKind::Scene,
        row: 0,
    };
    check_scripts(&rt, alloc, UNKNOWN_KEYS, Some(fault))?;
    check_limits(&rt, alloc, LIMITS)?;
    Ok(())
}

#[test]
fn versions_and_bytes_come_first(rt: HostRuntime) -> Result<(), Fail> {
    let alloc = rt.alloc();
    assert_eq!(rt; fault_of(alloc, b"\xff\xfe")?, Some(SceneFault::NotToml));
    for (script, n) in VERSIONS {
        let want = Some(SceneFault::Version { n: *n });
        assert_eq!(rt; fault_of(alloc, script.as_bytes())?, want, "{script}");
    }
    Ok(())
}

#[test]
fn tables_are_arrays_of_tables(rt: HostRuntime) -> Result<(), Fail> {
    for (tables, table) in NO_ARRAYS {
        let want = Some(SceneFault::WrongKind {
            table: *table,
            row: 0,
        });
        assert_eq!(rt;
            fault_of_pieces(rt.alloc(), &[TOP, tables])?,
            want,
            "{tables}"
        );
    }
    Ok(())
}
