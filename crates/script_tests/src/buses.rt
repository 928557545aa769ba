//! Rows of `bus`.

use crate::scripts::{
    BUS, NODES, OutOfLimits, Refused, Scripts, TOP, check_limits, check_refusals, check_scripts,
    fault_of_pieces, repeated,
};
use scene_model::Reply;
use scene_script::{SceneFault, TableKind, Which};
use std::test::Fail;

/// Scenes.
const SCENES: Scripts = &[
    &[NODES, BUS],
    &[NODES, "[[bus]]\nnode = 'p'\nto = 'endpoint'\nout = 1\n"],
    &[NODES, BUS, "gain = 1048576\n"],
];

/// A key is absent.
const MISSING_KEYS: Scripts = &[&[NODES, "[[bus]]\n"]];

/// A value of another kind, or a text that is no name. It comes before names are looked for.
const WRONG_KINDS: Scripts = &[
    &[NODES, "[[bus]]\nnode = 1\n"],
    &[NODES, "[[bus]]\nnode = ''\n"],
    &[NODES, "[[bus]]\nnode = 's'\nto = 4\n"],
    &[NODES, "[[bus]]\nnode = 's'\nto = ''\n"],
    &[NODES, BUS, "out = '0'\n"],
    &[NODES, BUS, "gain = 1.5\n"],
    &[NODES, "[[bus]]\nnode = 'z'\nto = 3\n"],
];

/// A key that no bus has. It comes before those that are absent.
const UNKNOWN_KEYS: Scripts = &[&[NODES, BUS, "x = 1\n"], &[NODES, "[[bus]]\nkind = 1\n"]];

/// A node that is not there. The endpoint has no output, and a resource is no node.
const UNKNOWN_NAMES: Scripts = &[
    &[NODES, "[[bus]]\nnode = 'z'\n"],
    &[NODES, "[[bus]]\nnode = 'endpoint'\n"],
    &[NODES, "[[bus]]\nnode = 'r'\n"],
    &[NODES, "[[bus]]\nnode = 's'\nto = 'z'\n"],
    &[TOP, BUS],
];

/// Numbers out of their limits. They come before names are looked for.
const LIMITS: &[OutOfLimits] = &[
    (&[NODES, BUS, "out = -1\n"], Which::Out, -1, 0),
    (&[NODES, BUS, "out = 256\n"], Which::Out, 256, 255),
    (&[NODES, BUS, "gain = -1\n"], Which::Gain, -1, 0),
    (
        &[NODES, BUS, "gain = 4294967296\n"],
        Which::Gain,
        4_294_967_296,
        4_294_967_295,
    ),
    (
        &[NODES, "[[bus]]\nnode = 'z'\nto = 'endpoint'\ngain = -1\n"],
        Which::Gain,
        -1,
        0,
    ),
];

/// Rows that no plan takes: the gain of each row is set, and then it is attached.
const REFUSED: &[Refused] = &[
    (&[NODES, BUS, "out = 255\n"], 1, Reply::NoSuchBus),
    (&[NODES, BUS, "out = 1\n"], 1, Reply::NoSuchBus),
    (&[NODES, BUS, "gain = 4294967295\n"], 1, Reply::GainTooLarge),
    (&[NODES, BUS, "gain = 1048577\n"], 1, Reply::GainTooLarge),
    (&[NODES, BUS, BUS], 2, Reply::AlreadyAttached { to: 3 }),
    (
        &[NODES, "[[bus]]\nnode = 's'\nto = 's'\n"],
        1,
        Reply::NoInput,
    ),
    (
        &[NODES, "[[bus]]\nnode = 'g'\nto = 'g'\n"],
        1,
        Reply::Cycle { node: 1 },
    ),
    (
        &[
            NODES,
            "[[bus]]\nnode = 'g'\nto = 'p'\n[[bus]]\nnode = 'p'\nto = 'g'\n",
        ],
        2,
        Reply::Cycle { node: 1 },
    ),
];

#[test]
fn rows_of_buses_are_answered(rt: HostRuntime) -> Result<(), Fail> {
    let alloc = rt.alloc();
    check_scripts(&rt, alloc, SCENES, None)?;
    let fault = SceneFault::MissingKey {
        table: TableKind::Bus,
        row: 1,
    };
    check_scripts(&rt, alloc, MISSING_KEYS, Some(fault))?;
    let fault = SceneFault::WrongKind {
        table: TableKind::Bus,
        row: 1,
    };
    check_scripts(&rt, alloc, WRONG_KINDS, Some(fault))?;
    let fault = SceneFault::UnknownKey {
        table: TableKind::Bus,
        row: 1,
    };
    check_scripts(&rt, alloc, UNKNOWN_KEYS, Some(fault))?;
    let fault = SceneFault::UnknownName {
        table: TableKind::Bus,
        row: 1,
    };
    check_scripts(&rt, alloc, UNKNOWN_NAMES, Some(fault))?;
    check_limits(&rt, alloc, LIMITS)?;
    check_refusals(&rt, alloc, TableKind::Bus, REFUSED)?;
    Ok(())
}

/// 256 rows are the most. A row without a target attaches nothing, so that one bus may have many.
#[test]
fn bus_rows_are_counted(rt: HostRuntime) -> Result<(), Fail> {
    let alloc = rt.alloc();
    let too_many = SceneFault::Limit {
        which: Which::BusRows,
        found: 257,
        limit: 256,
    };
    for (count, want) in [(256, None), (257, Some(too_many))] {
        let rows = repeated(alloc, "[[bus]]\nnode = 's'\n", count)?;
        assert_eq!(rt;
            fault_of_pieces(alloc, &[NODES, rows.as_str()])?,
            want,
            "{count} rows"
        );
    }
    Ok(())
}
