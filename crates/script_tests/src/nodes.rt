//! Rows of `node`.

use crate::scripts::{
    GROUP, OutOfLimits, RESOURCE, SOUND, SPLITTER, Scripts, TOP, check_limits, check_scripts,
    fault_of_pieces, numbered, repeated,
};
use scene_script::{SceneFault, TableKind, Which};
use std::test::Fail;

/// Scenes. A node may be named as a resource is.
const SCENES: Scripts = &[
    &[TOP, RESOURCE, SOUND],
    &[
        TOP,
        RESOURCE,
        SOUND,
        "loop = true\nstarted = false\nfrom = 16777216\nuntil = 0\n",
    ],
    &[
        TOP,
        "[[node]]\nkind = 'splitter'\nname = 'p'\noutputs = 4\n",
    ],
    &[
        TOP,
        RESOURCE,
        "[[node]]\nkind = 'sound'\nname = 'r'\nresource = 'r'\n",
    ],
];

/// A key is absent. The kind is looked at first.
const MISSING_KEYS: Scripts = &[
    &[TOP, RESOURCE, "[[node]]\nname = 's'\nresource = 'r'\n"],
    &[TOP, RESOURCE, "[[node]]\nname = 's'\nresource = 'r'\nx=1\n"],
    &[TOP, "[[node]]\nkind = 'sound'\nresource = 'r'\n"],
    &[TOP, "[[node]]\nkind = 'sound'\nname = 's'\n"],
    &[TOP, "[[node]]\nkind = 'splitter'\nname = 'p'\n"],
];

/// A value of another kind, a kind that no node has, or a text that is no name.
const WRONG_KINDS: Scripts = &[
    &[
        TOP,
        "[[node]]\nkind = 'Sound'\nname = 's'\nresource = 'r'\n",
    ],
    &[TOP, "[[node]]\nkind = 1\nname = 's'\nresource = 'r'\nx=1\n"],
    &[
        TOP,
        "[[node]]\nkind = 'sound'\nname = 's!'\nresource = 'r'\n",
    ],
    &[TOP, "[[node]]\nkind = 'sound'\nname = 's'\nresource = ''\n"],
    &[TOP, "[[node]]\nkind = 'sound'\nname = 's'\nresource = 5\n"],
    &[TOP, SOUND, "loop = 1\n"],
    &[
        TOP,
        "[[node]]\nkind = 'splitter'\nname = 'p'\noutputs = '2'\n",
    ],
    &[TOP, GROUP, "started = 1\n"],
    &[TOP, GROUP, "until = false\n"],
];

/// A key that this kind of node doesn't have.
const UNKNOWN_KEYS: Scripts = &[
    &[TOP, SOUND, "x = 1\n"],
    &[TOP, SOUND, "outputs = 2\n"],
    &[TOP, GROUP, "resource = 'r'\n"],
    &[TOP, GROUP, "loop = true\n"],
    &[TOP, GROUP, "outputs = 2\n"],
    &[TOP, SPLITTER, "loop = true\n"],
    &[TOP, SPLITTER, "resource = 'r'\n"],
];

/// A resource that is not there.
const UNKNOWN_NAMES: Scripts = &[&[TOP, SOUND]];

/// The endpoint's name. It comes before the resource is looked for.
const NAMED_ENDPOINT: Scripts = &[
    &[TOP, "[[node]]\nkind = 'group'\nname = 'endpoint'\n"],
    &[
        TOP,
        "[[node]]\nkind = 'sound'\nname = 'endpoint'\nresource = 'r'\n",
    ],
];

/// A name that an earlier row has.
const DOUBLE_NAMES: Scripts = &[
    &[TOP, GROUP, GROUP],
    &[
        TOP,
        GROUP,
        "[[node]]\nkind = 'sound'\nname = 'g'\nresource = 'r'\n",
    ],
];

/// Numbers out of their limits, the first one in the order of the form.
const LIMITS: &[OutOfLimits] = &[
    (
        &[
            TOP,
            "[[node]]\nkind = 'splitter'\nname = 'p'\noutputs = 1\n",
        ],
        Which::Outputs,
        1,
        2,
    ),
    (
        &[
            TOP,
            "[[node]]\nkind = 'splitter'\nname = 'p'\noutputs = 5\n",
        ],
        Which::Outputs,
        5,
        4,
    ),
    (&[TOP, GROUP, "from = -1\n"], Which::From, -1, 0),
    (
        &[TOP, GROUP, "from = 16777217\n"],
        Which::From,
        16_777_217,
        16_777_216,
    ),
    (
        &[TOP, GROUP, "until = 16777217\n"],
        Which::Until,
        16_777_217,
        16_777_216,
    ),
    (&[TOP, GROUP, "until = -2\n"], Which::Until, -2, 0),
    (&[TOP, GROUP, "until = -2\nfrom = -1\n"], Which::From, -1, 0),
    (
        &[
            TOP,
            "[[node]]\nkind = 'group'\nname = 'endpoint'\nfrom = -1\n",
        ],
        Which::From,
        -1,
        0,
    ),
];

#[test]
fn rows_of_nodes_are_answered(rt: HostRuntime) -> Result<(), Fail> {
    let alloc = rt.alloc();
    check_scripts(&rt, alloc, SCENES, None)?;
    let fault = SceneFault::MissingKey {
        table: TableKind::Node,
        row: 1,
    };
    check_scripts(&rt, alloc, MISSING_KEYS, Some(fault))?;
    let fault = SceneFault::WrongKind {
        table: TableKind::Node,
        row: 1,
    };
    check_scripts(&rt, alloc, WRONG_KINDS, Some(fault))?;
    let fault = SceneFault::UnknownKey {
        table: TableKind::Node,
        row: 1,
    };
    check_scripts(&rt, alloc, UNKNOWN_KEYS, Some(fault))?;
    let fault = SceneFault::UnknownName {
        table: TableKind::Node,
        row: 1,
    };
    check_scripts(&rt, alloc, UNKNOWN_NAMES, Some(fault))?;
    let fault = SceneFault::DoubleName {
        table: TableKind::Node,
        row: 1,
    };
    check_scripts(&rt, alloc, NAMED_ENDPOINT, Some(fault))?;
    let fault = SceneFault::DoubleName {
        table: TableKind::Node,
        row: 2,
    };
    check_scripts(&rt, alloc, DOUBLE_NAMES, Some(fault))?;
    check_limits(&rt, alloc, LIMITS)?;
    Ok(())
}

/// 128 rows are the most, and their number comes before what stands in them.
#[test]
fn nodes_are_counted_first(rt: HostRuntime) -> Result<(), Fail> {
    let alloc = rt.alloc();
    let rows = numbered(alloc, "[[node]]\nkind = 'group'\nname = 'g", "'\n", 128)?;
    assert_eq!(rt; fault_of_pieces(alloc, &[TOP, rows.as_str()])?, None);
    let rows = repeated(alloc, GROUP, 129)?;
    let too_many = SceneFault::Limit {
        which: Which::Nodes,
        found: 129,
        limit: 128,
    };
    assert_eq!(rt;
        fault_of_pieces(alloc, &[TOP, rows.as_str()])?,
        Some(too_many)
    );
    Ok(())
}

/// Splitters of four outputs each.
const FOURFOLD: &str = "[[node]]\nkind = 'splitter'\noutputs = 4\nname = 'p";

/// All nodes together have at most 256 outputs. That comes before the rows of `bus`.
#[test]
fn outputs_of_all_nodes_are_counted(rt: HostRuntime) -> Result<(), Fail> {
    let alloc = rt.alloc();
    let rows = numbered(alloc, FOURFOLD, "'\n", 64)?;
    assert_eq!(rt; fault_of_pieces(alloc, &[TOP, rows.as_str()])?, None);
    let rows = numbered(alloc, FOURFOLD, "'\n", 65)?;
    let too_many = Some(SceneFault::Limit {
        which: Which::Buses,
        found: 260,
        limit: 256,
    });
    assert_eq!(rt; fault_of_pieces(alloc, &[TOP, rows.as_str()])?, too_many);
    let pieces = [TOP, rows.as_str(), "[bus]\n"];
    assert_eq!(rt; fault_of_pieces(alloc, &pieces)?, too_many);
    Ok(())
}
