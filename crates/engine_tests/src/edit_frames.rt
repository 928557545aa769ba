//! Edits around the edge of a block.

use crate::scripts::{is_plain_mix, script};
use crate::sounds::{mono, stereo};
use std::alloc::{AllocError, Global};
use std::test::Fail;

/// A looped sound, one that ends at frame 700, a group, and a splitter that isn't started.
const ROWS: &str = "node = [
    { kind = \"sound\", name = \"s\", resource = \"a\", loop = true },
    { kind = \"sound\", name = \"t\", resource = \"b\" },
    { kind = \"group\", name = \"g\" },
    { kind = \"splitter\", name = \"p\", outputs = 2, started = false },
]
bus = [
    { node = \"s\", to = \"g\" },
    { node = \"t\", to = \"p\", gain = 40000 },
    { node = \"g\", to = \"endpoint\", gain = 30000 },
    { node = \"p\", to = \"endpoint\", gain = 20000 },
    { node = \"p\", out = 1, to = \"g\", gain = 10000 },
]";

/// What is done, to which node, and the other keys.
type Row = (&'static str, &'static str, &'static str);

/// Edits of one frame.
const EDITS: &[&[Row]] = &[
    &[("gain", "g", "value = 65536")],
    &[("detach", "s", "")],
    &[("detach", "s", ""), ("attach", "s", "to = \"endpoint\"")],
    &[("start", "p", "")],
    &[("stop", "s", "")],
    &[("stop", "s", ""), ("start", "s", "")],
    &[("start", "p", ""), ("seek", "t", "value = 650")],
    &[("start", "p", ""), ("seek", "t", "value = 99999")],
    &[("seek", "s", "value = 7"), ("seek", "s", "value = 9")],
    &[("seek", "s", "value = 99999")],
    &[("loop", "s", "value = 0")],
    &[
        ("start", "p", ""),
        ("loop", "t", "value = 1"),
        ("seek", "t", "value = 699"),
    ],
    &[("from", "g", "value = 600")],
    &[("until", "g", "value = 600")],
    &[
        ("detach", "s", ""),
        ("seek", "s", "value = 299"),
        ("attach", "s", "to = \"p\""),
        ("gain", "s", "value = 50000"),
        ("start", "p", ""),
        ("stop", "g", ""),
        ("start", "g", ""),
        ("loop", "t", "value = 1"),
        ("seek", "t", "value = 690"),
        ("from", "t", "value = 530"),
        ("until", "g", "value = 1000"),
    ],
];

/// Edits that can be made one after the other.
const IN_A_ROW: [&[Row]; 3] = [
    &[("start", "p", ""), ("detach", "t", "")],
    &[
        ("attach", "t", "to = \"endpoint\""),
        ("seek", "s", "value = 290"),
    ],
    &[
        ("detach", "t", ""),
        ("attach", "t", "to = \"g\""),
        ("detach", "s", ""),
        ("gain", "g", "value = 50000"),
    ],
];

/// Adds edits at a frame to a script.
fn push_edits(
    alloc: Global,
    script: &mut String,
    at: u32,
    edits: &[Row],
) -> Result<(), AllocError> {
    for (op, node, keys) in edits {
        let edit = format!(in alloc;
            "[[edit]]\nat = {at}\nop = \"{op}\"\nnode = \"{node}\"\n{keys}\n"
        )?;
        script.push_str(edit.as_str())?;
    }
    Ok(())
}

#[test]
fn edits_around_the_edge_of_a_block_are_those_of_the_plain_mix(
    rt: HostRuntime,
) -> Result<(), Fail> {
    let alloc = rt.alloc();
    let sounds = [mono(300), stereo(8000, 700), mono(0)];
    for (number, edits) in EDITS.iter().enumerate() {
        for at in [0, 511, 512, 513] {
            let mut script = script(alloc, 2, 24, 1100, ROWS)?;
            push_edits(alloc, &mut script, at, edits)?;
            assert!(rt;
                is_plain_mix(&rt, alloc, script.as_str(), &sounds)?,
                "edits {number} at {at}"
            );
        }
    }
    Ok(())
}

#[test]
fn edits_of_three_frames_in_a_row_are_those_of_the_plain_mix(rt: HostRuntime) -> Result<(), Fail> {
    let alloc = rt.alloc();
    let sounds = [mono(300), stereo(8000, 700), mono(0)];
    let mut script = script(alloc, 1, 16, 1100, ROWS)?;
    for (at, edits) in (511..).zip(IN_A_ROW) {
        push_edits(alloc, &mut script, at, edits)?;
    }
    assert!(rt; is_plain_mix(&rt, alloc, script.as_str(), &sounds)?);
    Ok(())
}
