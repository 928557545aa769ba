//! The order in which edits are made, and how many there may be.

use crate::scripts::{
    ATTACH, BUS, DETACH, NODES, Refused, START, Scripts, check_refusals, check_scripts,
    fault_of_pieces, repeated,
};
use scene_model::Reply;
use scene_script::{SceneFault, TableKind, Which};
use std::test::Fail;

/// The bus of `s` is detached or attached at frame 9.
const DETACH_LATE: &str = "[[edit]]\nop = 'detach'\nat = 9\nnode = 's'\n";

const ATTACH_LATE: &str = "[[edit]]\nop = 'attach'\nat = 9\nnode = 's'\nto = 'endpoint'\n";

/// It is attached at frame 8.
const ATTACH_BEFORE: &str = "[[edit]]\nop = 'attach'\nat = 8\nnode = 's'\nto = 'endpoint'\n";

/// A group is no sound.
const SEEK_GROUP: &str = "[[edit]]\nop = 'seek'\nat = 8\nnode = 'g'\nvalue = 0\n";

/// Scenes: an earlier frame in a later row, and two edits at one frame in the order of their rows.
const SCENES: Scripts = &[
    &[NODES, DETACH_LATE, ATTACH, "to = 'endpoint'\n"],
    &[NODES, BUS, DETACH_LATE, ATTACH_LATE],
    &[NODES, ATTACH_LATE, DETACH_LATE],
    &[NODES, BUS, ATTACH_LATE, DETACH],
];

/// The first edit that isn't made, in the order of frames and then of rows.
const REFUSED: &[Refused] = &[
    (&[NODES, ATTACH_LATE, DETACH], 2, Reply::NotAttached),
    (&[NODES, DETACH_LATE, ATTACH_LATE], 1, Reply::NotAttached),
    (
        &[NODES, BUS, ATTACH_LATE, DETACH_LATE],
        1,
        Reply::AlreadyAttached { to: 3 },
    ),
    (
        &[NODES, ATTACH_LATE, ATTACH_BEFORE],
        1,
        Reply::AlreadyAttached { to: 3 },
    ),
    (&[NODES, DETACH_LATE, SEEK_GROUP], 2, Reply::NotSound),
];

/// The rows of `bus` come before all edits.
const BUS_FIRST: &[Refused] = &[(
    &[NODES, BUS, BUS, DETACH, DETACH],
    2,
    Reply::AlreadyAttached { to: 3 },
)];

#[test]
fn edits_are_made_by_frames_and_then_rows(rt: HostRuntime) -> Result<(), Fail> {
    let alloc = rt.alloc();
    check_scripts(&rt, alloc, SCENES, None)?;
    check_refusals(&rt, alloc, TableKind::Edit, REFUSED)?;
    check_refusals(&rt, alloc, TableKind::Bus, BUS_FIRST)?;
    Ok(())
}

/// 4096 rows are the most. Their number comes behind the rows of `bus`.
#[test]
fn edits_are_counted(rt: HostRuntime) -> Result<(), Fail> {
    let alloc = rt.alloc();
    let rows = repeated(alloc, START, 4096)?;
    assert_eq!(rt; fault_of_pieces(alloc, &[NODES, rows.as_str()])?, None);
    let rows = repeated(alloc, START, 4097)?;
    let too_many = SceneFault::Limit {
        which: Which::Edits,
        found: 4097,
        limit: 4096,
    };
    assert_eq!(rt;
        fault_of_pieces(alloc, &[NODES, rows.as_str()])?,
        Some(too_many)
    );
    let unknown = SceneFault::UnknownKey {
        table: TableKind::Bus,
        row: 1,
    };
    let pieces = [NODES, rows.as_str(), "[[bus]]\nx = 1\n"];
    assert_eq!(rt; fault_of_pieces(alloc, &pieces)?, Some(unknown));
    Ok(())
}

/// As many edits as a scene may have, each before the frame of the row above it.
#[test]
fn edits_may_come_in_any_order(rt: HostRuntime) -> Result<(), Fail> {
    let alloc = rt.alloc();
    let mut rows = String::new(alloc);
    for at in (1..4097).rev() {
        let row = format!(in alloc; "[[edit]]\nop = 'seek'\nat = {at}\nnode = 's'\nvalue = 3\n")?;
        rows.push_str(row.as_str())?;
    }
    assert_eq!(rt; fault_of_pieces(alloc, &[NODES, rows.as_str()])?, None);
    Ok(())
}
