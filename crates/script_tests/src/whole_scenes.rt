//! Whole scenes that were read, field by field.

use plain_data::{OutOfMemory, Text};
use scene_model::{BusRow, Edit, EditRow, Node, NodeKind, Resource};
use scene_script::read_scene;
use std::alloc::Global;
use std::test::Fail;

/// Each kind of row, with all its keys and with those alone that have no default.
const SCRIPT: &[u8] = b"# A scene of two sounds.
length = 96000
version = 1
rate = 48000
channels = 2
width = 24

[[resource]]
name = \"bell\"
file = \"sounds/bell.wav\"

[[resource]]
file = \"a hum.wav\"
name = \"hum\"

[[node]]
kind = \"sound\"
name = \"strike\"
resource = \"hum\"

[[node]]
kind = \"sound\"
name = \"drone\"
resource = \"bell\"
loop = true
started = false
from = 10
until = 20

[[node]]
kind = \"group\"
name = \"all\"

[[node]]
kind = \"splitter\"
name = \"ways\"
outputs = 3
from = 7

[[bus]]
node = \"strike\"
to = \"ways\"

[[bus]]
node = \"ways\"
out = 2
to = \"all\"
gain = 32768

[[bus]]
node = \"drone\"
gain = 0

[[edit]]
op = \"attach\"
at = 900
node = \"all\"
to = \"endpoint\"
editor = 2

[[edit]]
op = \"attach\"
at = 8
node = \"ways\"
out = 1
to = \"all\"

[[edit]]
op = \"detach\"
at = 8
node = \"ways\"
out = 2

[[edit]]
op = \"gain\"
at = 9
node = \"ways\"
out = 1
value = 1048576
editor = 3

[[edit]]
op = \"start\"
at = 9
node = \"drone\"

[[edit]]
op = \"stop\"
at = 16777216
node = \"all\"
editor = 1

[[edit]]
op = \"from\"
at = 0
node = \"drone\"
value = 5

[[edit]]
op = \"until\"
at = 1
node = \"drone\"
value = 16777216

[[edit]]
op = \"seek\"
at = 2
node = \"drone\"
value = 140737488355327

[[edit]]
op = \"loop\"
at = 3
node = \"drone\"
value = 0

[[edit]]
op = \"loop\"
at = 4
node = \"strike\"
value = 1
";

const BUSES: [BusRow; 3] = [
    BusRow {
        node: 0,
        out: 0,
        to: Some(3),
        gain: 65_536,
    },
    BusRow {
        node: 3,
        out: 2,
        to: Some(2),
        gain: 32_768,
    },
    BusRow {
        node: 1,
        out: 0,
        to: None,
        gain: 0,
    },
];

const fn row(at: u32, editor: u8, edit: Edit) -> EditRow {
    EditRow { at, editor, edit }
}

/// The edits, in the order of the script.
fn edits() -> [EditRow; 11] {
    [
        row(
            900,
            2,
            Edit::Attach {
                node: 2,
                out: 0,
                to: 4,
            },
        ),
        row(
            8,
            0,
            Edit::Attach {
                node: 3,
                out: 1,
                to: 2,
            },
        ),
        row(8, 0, Edit::Detach { node: 3, out: 2 }),
        row(
            9,
            3,
            Edit::SetGain {
                node: 3,
                out: 1,
                gain: 1_048_576,
            },
        ),
        row(9, 0, Edit::Start { node: 1 }),
        row(16_777_216, 1, Edit::Stop { node: 2 }),
        row(0, 0, Edit::From { node: 1, value: 5 }),
        row(
            1,
            0,
            Edit::Until {
                node: 1,
                value: 16_777_216,
            },
        ),
        row(
            2,
            0,
            Edit::Seek {
                node: 1,
                place: 140_737_488_355_327,
            },
        ),
        row(3, 0, Edit::Loop { node: 1, on: false }),
        row(4, 0, Edit::Loop { node: 0, on: true }),
    ]
}

fn text(alloc: Global, text: &str) -> Result<Text, OutOfMemory> {
    Ok(Text::new(String::from_str(alloc, text)?))
}

/// A node by its name, its kind, whether it is started, and its two times.
type NodeFields = (&'static str, NodeKind, bool, u32, u32);

const NODES: [NodeFields; 4] = [
    (
        "strike",
        NodeKind::Sound {
            resource: 1,
            looped: false,
        },
        true,
        0,
        16_777_216,
    ),
    (
        "drone",
        NodeKind::Sound {
            resource: 0,
            looped: true,
        },
        false,
        10,
        20,
    ),
    ("all", NodeKind::Group, true, 0, 16_777_216),
    (
        "ways",
        NodeKind::Splitter { outputs: 3 },
        true,
        7,
        16_777_216,
    ),
];

fn nodes(alloc: Global) -> Result<Vec<Node>, OutOfMemory> {
    let mut nodes = Vec::new(alloc);
    for (name, kind, started, from, until) in NODES {
        nodes.push(Node {
            name: text(alloc, name)?,
            kind,
            started,
            from,
            until,
        })?;
    }
    Ok(nodes)
}

fn resources(alloc: Global) -> Result<Vec<Resource>, OutOfMemory> {
    let mut resources = Vec::new(alloc);
    for (name, file) in [("bell", "sounds/bell.wav"), ("hum", "a hum.wav")] {
        resources.push(Resource {
            name: text(alloc, name)?,
            file: text(alloc, file)?,
        })?;
    }
    Ok(resources)
}

#[test]
fn a_scene_has_each_field_of_its_script(rt: HostRuntime) -> Result<(), Fail> {
    let scene = read_scene(rt.alloc(), SCRIPT).ok().ok_or("a scene")?;
    assert_eq!(rt;
        (scene.version, scene.rate, scene.length),
        (1, 48_000, 96_000)
    );
    assert_eq!(rt; (scene.channels, scene.width), (2, 24));
    assert_eq!(rt;
        scene.resources.as_slice(),
        resources(rt.alloc())?.as_slice()
    );
    assert_eq!(rt; scene.nodes.as_slice(), nodes(rt.alloc())?.as_slice());
    assert_eq!(rt; scene.buses.as_slice(), BUSES.as_slice());
    assert_eq!(rt; scene.edits.as_slice(), edits().as_slice());
    Ok(())
}

#[test]
fn a_scene_of_nothing_is_a_scene(rt: HostRuntime) -> Result<(), Fail> {
    let script = b"version = 1\nrate = 1\nchannels = 1\nwidth = 16\nlength = 0\n";
    let scene = read_scene(rt.alloc(), script).ok().ok_or("a scene")?;
    assert_eq!(rt; (scene.version, scene.rate, scene.length), (1, 1, 0));
    assert_eq!(rt; (scene.channels, scene.width), (1, 16));
    assert_eq!(rt; (scene.endpoint(), scene.bus_count()), (0, 0));
    Ok(())
}
