//! Nodes that begin and cease to be active inside blocks, and nodes that feed one another.

use crate::scripts::{is_plain_mix, script};
use crate::sounds::{mono, stereo};
use std::test::Fail;

/// The rows of scenes of 1100 frames.
const SCENES: &[&str] = &[
    // A looped sound by itself.
    "node = [{ kind = \"sound\", name = \"s\", resource = \"a\", loop = true, from = 1, until = 1099 }]
bus = [{ node = \"s\", to = \"endpoint\" }]",
    // Times at the edge of the first block and beside it.
    "node = [
    { kind = \"sound\", name = \"s\", resource = \"a\", loop = true, from = 511 },
    { kind = \"sound\", name = \"t\", resource = \"b\", until = 513 },
    { kind = \"sound\", name = \"u\", resource = \"c\", loop = true, from = 512, until = 600 },
]
bus = [
    { node = \"s\", to = \"endpoint\", gain = 20000 },
    { node = \"t\", to = \"endpoint\", gain = 20000 },
    { node = \"u\", to = \"endpoint\", gain = 20000 },
]",
    // Never active: until is not after from.
    "node = [
    { kind = \"sound\", name = \"s\", resource = \"a\", loop = true },
    { kind = \"group\", name = \"g\", from = 600, until = 600 },
    { kind = \"group\", name = \"h\", from = 600, until = 200 },
]
bus = [
    { node = \"s\", to = \"g\" },
    { node = \"g\", to = \"h\" },
    { node = \"h\", to = \"endpoint\" },
]",
    // A sound that isn't pulled from frame 200 to 700 stays where it is.
    "node = [
    { kind = \"sound\", name = \"s\", resource = \"b\" },
    { kind = \"group\", name = \"g\", until = 200 },
    { kind = \"group\", name = \"h\", from = 700 },
    { kind = \"splitter\", name = \"p\", outputs = 2 },
]
bus = [
    { node = \"s\", to = \"p\" },
    { node = \"p\", to = \"g\" },
    { node = \"p\", out = 1, to = \"h\" },
    { node = \"g\", to = \"endpoint\", gain = 60000 },
    { node = \"h\", to = \"endpoint\", gain = 70000 },
]",
    // Groups and splitters three deep, in an order in which none stands behind those that feed it.
    "node = [
    { kind = \"group\", name = \"master\", from = 3, until = 1000 },
    { kind = \"group\", name = \"g\", from = 100, until = 900 },
    { kind = \"splitter\", name = \"p\", outputs = 4, from = 50, until = 800 },
    { kind = \"splitter\", name = \"q\", outputs = 3, from = 300 },
    { kind = \"sound\", name = \"s\", resource = \"a\", loop = true, until = 700 },
    { kind = \"sound\", name = \"t\", resource = \"b\", from = 10 },
    { kind = \"sound\", name = \"u\", resource = \"c\", loop = true },
]
bus = [
    { node = \"s\", to = \"q\", gain = 50000 },
    { node = \"t\", to = \"q\", gain = 40000 },
    { node = \"u\", to = \"p\", gain = 30000 },
    { node = \"q\", to = \"p\", gain = 20000 },
    { node = \"q\", out = 1, to = \"g\", gain = 131072 },
    { node = \"q\", out = 2, to = \"endpoint\", gain = 1000 },
    { node = \"p\", to = \"g\", gain = 10000 },
    { node = \"p\", out = 1, to = \"g\", gain = 65536 },
    { node = \"p\", out = 3, to = \"master\", gain = 32768 },
    { node = \"g\", to = \"master\" },
    { node = \"master\", to = \"endpoint\", gain = 80000 },
]",
];

#[test]
fn times_inside_blocks_are_those_of_the_plain_mix(rt: HostRuntime) -> Result<(), Fail> {
    let alloc = rt.alloc();
    let sounds = [stereo(8000, 300), mono(700), stereo(6000, 100)];
    for rows in SCENES {
        for channels in [1, 2] {
            let script = script(alloc, channels, 24, 1100, rows)?;
            assert!(rt;
                is_plain_mix(&rt, alloc, script.as_str(), &sounds)?,
                "{channels} channels: {rows}"
            );
        }
    }
    Ok(())
}
