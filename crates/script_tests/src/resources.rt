//! Rows of `resource`.

use crate::scripts::{
    OutOfLimits, RESOURCE, Scripts, TOP, check_limits, check_scripts, fault_of_pieces, numbered,
    repeated,
};
use scene_script::{SceneFault, TableKind, Which};
use std::test::Fail;

/// 64 of the characters of which names are made, the most that a name has.
const NAME_64: &str = "abcdefghijklmnopqrstuvwxyzABCDEFGHIJKLMNOPQRSTUVWXYZ0123456789_-";

/// 63 of them.
const NAME_63: &str = "abcdefghijklmnopqrstuvwxyzABCDEFGHIJKLMNOPQRSTUVWXYZ0123456789_";

/// 32 characters of two bytes.
const ACCENTS: &str = "éééééééééééééééééééééééééééééééé";

/// A row up to its file's name.
const NAMED: &str = "[[resource]]\nname = 'r'\nfile = '";

/// Scenes. A resource may be named as the endpoint is.
const SCENES: Scripts = &[
    &[TOP, "[[resource]]\nname = '", NAME_64, "'\nfile = 'f'\n"],
    &[TOP, "[[resource]]\nname = 'aZ0._-'\nfile = 'r.wav'\n"],
    &[TOP, "[[resource]]\nname = 'endpoint'\nfile = 'r.wav'\n"],
    &[TOP, NAMED, NAME_64, NAME_64, NAME_64, NAME_63, "'\n"],
];

/// A key is absent.
const MISSING_KEYS: Scripts = &[
    &[TOP, "[[resource]]\nfile = 'r.wav'\n"],
    &[TOP, "[[resource]]\nname = 'r'\n"],
    &[TOP, "node = 1\n[[resource]]\nfile = 'r.wav'\n"],
];

/// A value of another kind, or a text that is no name.
const WRONG_KINDS: Scripts = &[
    &[TOP, "[[resource]]\nname = '", NAME_64, ".'\nfile = 'f'\n"],
    &[TOP, "[[resource]]\nname = ''\nfile = 'r.wav'\n"],
    &[TOP, "[[resource]]\nname = 'a b'\nfile = 'r.wav'\n"],
    &[TOP, "[[resource]]\nname = 1\nfile = 'r.wav'\n"],
    &[TOP, "[[resource]]\nname = 'é'\nfile = 'r.wav'\n"],
    &[TOP, "[[resource]]\nname = 'r'\nfile = 1\n"],
];

/// A key that no resource has. It comes before those that are absent.
const UNKNOWN_KEYS: Scripts = &[&[TOP, RESOURCE, "x = 1\n"], &[TOP, "[[resource]]\nx = 1\n"]];

/// A name that an earlier row has. All fields come before it.
const DOUBLE_NAMES: Scripts = &[&[TOP, RESOURCE, RESOURCE]];

/// The bytes of a file's name.
const LIMITS: &[OutOfLimits] = &[
    (
        &[TOP, "[[resource]]\nname = 'r'\nfile = ''\n"],
        Which::FileName,
        0,
        1,
    ),
    (
        &[TOP, RESOURCE, "[[resource]]\nname = 'r'\nfile = ''\n"],
        Which::FileName,
        0,
        1,
    ),
    (
        &[TOP, NAMED, NAME_64, NAME_64, NAME_64, NAME_64, "'\n"],
        Which::FileName,
        256,
        255,
    ),
    (
        &[TOP, NAMED, ACCENTS, ACCENTS, ACCENTS, ACCENTS, "'\n"],
        Which::FileName,
        256,
        255,
    ),
];

#[test]
fn rows_of_resources_are_answered(rt: HostRuntime) -> Result<(), Fail> {
    let alloc = rt.alloc();
    check_scripts(&rt, alloc, SCENES, None)?;
    let fault = SceneFault::MissingKey {
        table: TableKind::Resource,
        row: 1,
    };
    check_scripts(&rt, alloc, MISSING_KEYS, Some(fault))?;
    let fault = SceneFault::WrongKind {
        table: TableKind::Resource,
        row: 1,
    };
    check_scripts(&rt, alloc, WRONG_KINDS, Some(fault))?;
    let fault = SceneFault::UnknownKey {
        table: TableKind::Resource,
        row: 1,
    };
    check_scripts(&rt, alloc, UNKNOWN_KEYS, Some(fault))?;
    let fault = SceneFault::DoubleName {
        table: TableKind::Resource,
        row: 2,
    };
    check_scripts(&rt, alloc, DOUBLE_NAMES, Some(fault))?;
    check_limits(&rt, alloc, LIMITS)?;
    Ok(())
}

/// 64 rows are the most, and their number comes before what stands in them.
#[test]
fn resources_are_counted_first(rt: HostRuntime) -> Result<(), Fail> {
    let alloc = rt.alloc();
    let too_many = Some(SceneFault::Limit {
        which: Which::Resources,
        found: 65,
        limit: 64,
    });
    let double = Some(SceneFault::DoubleName {
        table: TableKind::Resource,
        row: 2,
    });
    for (count, same, others) in [(64, double, None), (65, too_many, too_many)] {
        let rows = repeated(alloc, RESOURCE, count)?;
        assert_eq!(rt;
            fault_of_pieces(alloc, &[TOP, rows.as_str()])?,
            same,
            "{count} rows"
        );
        let rows = numbered(alloc, "[[resource]]\nname = 'r", "'\nfile = 'f'\n", count)?;
        assert_eq!(rt;
            fault_of_pieces(alloc, &[TOP, rows.as_str()])?,
            others,
            "{count} names"
        );
    }
    Ok(())
}
