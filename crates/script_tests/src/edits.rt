//! Rows of `edit`.

use crate::scripts::{
    ATTACH, BUS, DETACH, GAIN, NODES, OutOfLimits, Refused, START, Scripts, check_limits,
    check_refusals, check_scripts,
};
use scene_model::Reply;
use scene_script::{SceneFault, TableKind, Which};
use std::test::Fail;

const STOP: &str = "[[edit]]\nop = 'stop'\nat = 5\nnode = 's'\n";

const FROM: &str = "[[edit]]\nop = 'from'\nat = 5\nnode = 's'\n";

const UNTIL: &str = "[[edit]]\nop = 'until'\nat = 5\nnode = 's'\n";

const SEEK: &str = "[[edit]]\nop = 'seek'\nat = 5\nnode = 's'\n";

const LOOP: &str = "[[edit]]\nop = 'loop'\nat = 5\nnode = 's'\n";

/// Scenes.
const SCENES: Scripts = &[
    &[NODES, ATTACH, "to = 'endpoint'\n"],
    &[NODES, BUS, DETACH],
    &[NODES, GAIN, "value = 5\nout = 0\n"],
    &[NODES, START],
    &[NODES, START, "editor = 3\n"],
    &[NODES, STOP],
    &[NODES, STOP, "editor = 3\n"],
    &[NODES, FROM, "value = 16777216\n"],
    &[NODES, UNTIL, "value = 16777216\n"],
    &[NODES, SEEK, "value = 140737488355327\n"],
    &[NODES, LOOP, "value = 1\n"],
    &[NODES, "[[edit]]\nop = 'start'\nat = 16777216\nnode = 's'\n"],
];

/// A key is absent. The op is looked at first.
const MISSING_KEYS: Scripts = &[
    &[NODES, "[[edit]]\n"],
    &[NODES, "[[edit]]\nx = 1\n"],
    &[NODES, ATTACH],
    &[NODES, GAIN],
    &[NODES, FROM],
    &[NODES, UNTIL],
    &[NODES, SEEK],
    &[NODES, LOOP],
    &[NODES, "[[edit]]\nop = 'start'\nnode = 's'\n"],
    &[NODES, "[[edit]]\nop = 'start'\nat = 5\n"],
    &[NODES, "[[edit]]\nop = 'start'\n"],
];

/// A value of another kind, an op that no edit has, or a text that is no name.
const WRONG_KINDS: Scripts = &[
    &[NODES, "[[edit]]\nop = 1\n"],
    &[NODES, "[[edit]]\nop = 'Gain'\n"],
    &[NODES, ATTACH, "to = 1\n"],
    &[NODES, FROM, "value = '1'\n"],
    &[NODES, UNTIL, "value = '1'\n"],
    &[NODES, SEEK, "value = '1'\n"],
    &[NODES, LOOP, "value = '1'\n"],
    &[NODES, LOOP, "value = true\n"],
    &[NODES, "[[edit]]\nop = 'start'\nat = 1.0\nnode = 's'\n"],
    &[NODES, "[[edit]]\nop = 'start'\nat = 5\nnode = 1\n"],
    &[NODES, START, "editor = '0'\n"],
    &[
        NODES,
        "[[edit]]\nop = 'attach'\nat = 5\nnode = 'z'\nto = ''\n",
    ],
];

/// A key that this op doesn't have.
const UNKNOWN_KEYS: Scripts = &[
    &[NODES, ATTACH, "to = 'endpoint'\nvalue = 1\n"],
    &[NODES, BUS, DETACH, "to = 'endpoint'\n"],
    &[NODES, BUS, DETACH, "value = 1\n"],
    &[NODES, GAIN, "value = 1\nto = 'g'\n"],
    &[NODES, START, "value = 1\n"],
    &[NODES, START, "out = 0\n"],
    &[NODES, START, "to = 'g'\n"],
    &[NODES, STOP, "value = 1\n"],
    &[NODES, STOP, "out = 0\n"],
    &[NODES, STOP, "to = 'g'\n"],
    &[NODES, FROM, "value = 1\nout = 0\n"],
    &[NODES, FROM, "value = 1\nto = 'g'\n"],
    &[NODES, UNTIL, "value = 1\nout = 0\n"],
    &[NODES, UNTIL, "value = 1\nto = 'g'\n"],
    &[NODES, SEEK, "value = 1\nout = 0\n"],
    &[NODES, SEEK, "value = 1\nto = 'g'\n"],
    &[NODES, LOOP, "value = 1\nout = 0\n"],
    &[NODES, LOOP, "value = 1\nto = 'g'\n"],
];

/// A node that is not there. The plan of the bus rows comes behind it.
const UNKNOWN_NAMES: Scripts = &[
    &[NODES, ATTACH, "to = 'z'\n"],
    &[NODES, "[[edit]]\nop = 'start'\nat = 5\nnode = 'z'\n"],
    &[NODES, "[[edit]]\nop = 'start'\nat = 5\nnode = 'endpoint'\n"],
    &[
        NODES,
        "[[edit]]\nop = 'attach'\nat = 5\nnode = 'z'\nto = 'y'\n",
    ],
    &[
        NODES,
        BUS,
        BUS,
        "[[edit]]\nop = 'start'\nat = 5\nnode = 'z'\n",
    ],
];

/// Numbers out of their limits, the first one in the order of the form.
const LIMITS: &[OutOfLimits] = &[
    (&[NODES, GAIN, "value = -1\n"], Which::Value, -1, 0),
    (
        &[NODES, GAIN, "value = 4294967296\n"],
        Which::Value,
        4_294_967_296,
        4_294_967_295,
    ),
    (
        &[NODES, FROM, "value = 16777217\n"],
        Which::Value,
        16_777_217,
        16_777_216,
    ),
    (&[NODES, FROM, "value = -1\n"], Which::Value, -1, 0),
    (
        &[NODES, UNTIL, "value = 16777217\n"],
        Which::Value,
        16_777_217,
        16_777_216,
    ),
    (&[NODES, UNTIL, "value = -1\n"], Which::Value, -1, 0),
    (
        &[NODES, SEEK, "value = 140737488355328\n"],
        Which::Value,
        140_737_488_355_328,
        140_737_488_355_327,
    ),
    (&[NODES, SEEK, "value = -1\n"], Which::Value, -1, 0),
    (&[NODES, LOOP, "value = 2\n"], Which::Value, 2, 1),
    (&[NODES, LOOP, "value = -1\n"], Which::Value, -1, 0),
    (
        &[NODES, "[[edit]]\nop = 'start'\nat = -1\nnode = 's'\n"],
        Which::At,
        -1,
        0,
    ),
    (
        &[NODES, "[[edit]]\nop = 'start'\nat = 16777217\nnode = 's'\n"],
        Which::At,
        16_777_217,
        16_777_216,
    ),
    (
        &[
            NODES,
            "[[edit]]\nop = 'start'\nat = 5\nnode = 'z'\neditor = 4\n",
        ],
        Which::Editor,
        4,
        3,
    ),
    (&[NODES, START, "editor = -1\n"], Which::Editor, -1, 0),
    (
        &[
            NODES,
            "[[edit]]\nop = 'gain'\nat = -1\nnode = 's'\nvalue = -1\n",
        ],
        Which::At,
        -1,
        0,
    ),
    (
        &[NODES, GAIN, "value = -1\neditor = 9\n"],
        Which::Value,
        -1,
        0,
    ),
    (
        &[NODES, GAIN, "value = -1\nout = 300\n"],
        Which::Out,
        300,
        255,
    ),
];

/// Edits that the plan refuses.
const REFUSED: &[Refused] = &[
    (
        &[NODES, ATTACH, "to = 'endpoint'\nout = 1\n"],
        1,
        Reply::NoSuchBus,
    ),
    (&[NODES, DETACH], 1, Reply::NotAttached),
    (&[NODES, BUS, DETACH, "out = 9\n"], 1, Reply::NoSuchBus),
    (
        &[NODES, GAIN, "value = 4294967295\n"],
        1,
        Reply::GainTooLarge,
    ),
    (
        &[
            NODES,
            "[[edit]]\nop = 'seek'\nat = 5\nnode = 'g'\nvalue = 1\n",
        ],
        1,
        Reply::NotSound,
    ),
    (
        &[
            NODES,
            "[[edit]]\nop = 'loop'\nat = 5\nnode = 'p'\nvalue = 1\n",
        ],
        1,
        Reply::NotSound,
    ),
];

#[test]
fn rows_of_edits_are_answered(rt: HostRuntime) -> Result<(), Fail> {
    let alloc = rt.alloc();
    check_scripts(&rt, alloc, SCENES, None)?;
    let fault = SceneFault::MissingKey {
        table: TableKind::Edit,
        row: 1,
    };
    check_scripts(&rt, alloc, MISSING_KEYS, Some(fault))?;
    let fault = SceneFault::WrongKind {
        table: TableKind::Edit,
        row: 1,
    };
    check_scripts(&rt, alloc, WRONG_KINDS, Some(fault))?;
    let fault = SceneFault::UnknownKey {
        table: TableKind::Edit,
        row: 1,
    };
    check_scripts(&rt, alloc, UNKNOWN_KEYS, Some(fault))?;
    let fault = SceneFault::UnknownName {
        table: TableKind::Edit,
        row: 1,
    };
    check_scripts(&rt, alloc, UNKNOWN_NAMES, Some(fault))?;
    check_limits(&rt, alloc, LIMITS)?;
    check_refusals(&rt, alloc, TableKind::Edit, REFUSED)?;
    Ok(())
}
