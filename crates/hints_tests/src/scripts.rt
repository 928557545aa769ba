//! Scripts with a fault, each with what is said of it.

use hints::script_hint;
use scene_script::{ScriptError, read_scene};
use std::test::Fail;

/// A scene without a fault. It has 19 lines.
const SCENE: &str = "version = 1
rate = 8000
channels = 1
width = 16
length = 600

[[resource]]
name = 'r'
file = 'r.wav'

[[node]]
kind = 'sound'
name = 's'
resource = 'r'

[[node]]
kind = 'splitter'
name = 'p'
outputs = 2
";

/// What stands behind it, and what is said of both.
const HINTS: &[(&str, &str)] = &[
    (
        "\n[[bus]]\nnode = 's'\ngian = 3\n",
        "scene.toml:21: row 1 of [[bus]] has the key \"gian\", which a bus doesn't have (node, out, to, gain)\n",
    ),
    (
        "[[node]]\nkind = 'group'\nname = 'g'\nloop = true\n",
        "scene.toml:20: row 3 of [[node]] has the key \"loop\", which a group doesn't have (kind, name, started, from, until)\n",
    ),
    (
        "[[edit]]\nop = 'start'\nat = 1\nnode = 's'\n[[edit]]\nop = 'seek'\nat = 1\nnode = 's'\n",
        "scene.toml:24: row 2 of [[edit]] lacks the key \"value\" (op, at, node, value, editor)\n",
    ),
    (
        "[[node]]\nname = 'n'\n",
        "scene.toml:20: row 3 of [[node]] lacks the key \"kind\" (kind)\n",
    ),
    (
        "[[bus]]\nnode = 's'\ngain = 0.5\n",
        "scene.toml:20: row 1 of [[bus]] needs another value at \"gain\": a whole number\n",
    ),
    (
        "[[node]]\nkind = 'filter'\nname = 'n'\n",
        "scene.toml:20: row 3 of [[node]] needs another value at \"kind\": sound, group or splitter\n",
    ),
    (
        "[bus]\nnode = 's'\n",
        "scene.toml: [[bus]] isn't a list of rows: write the name of the table in two brackets, as [[node]], above each row\n",
    ),
    (
        "[[bus]]\nnode = 's'\nto = 'master'\n",
        "scene.toml:20: row 1 of [[bus]] names at \"to\" what no row of that name is\n",
    ),
    (
        "[[edit]]\nop = 'stop'\nat = 1\nnode = 'endpoint'\n",
        "scene.toml:20: row 1 of [[edit]] names at \"node\" what no row of that name is\n",
    ),
    (
        "[[node]]\nkind = 'group'\nname = 'p'\n",
        "scene.toml:20: row 3 of [[node]] has the name of an earlier row, or that of the endpoint: give it another one\n",
    ),
    (
        "[[edit]]\nop = 'seek'\nat = 1\nnode = 's'\nvalue = 2\n[[edit]]\nop = 'loop'\nat = 1\nnode = 's'\nvalue = 2\n",
        "scene.toml:25: row 2 of [[edit]] has 2 at \"value\", where 0 to 1048576 for a gain, 0 to 16777216 for a time, 0 to 140737488355327 for a place and 0 or 1 for a loop is allowed\n",
    ),
    (
        "[[edit]]\nop = 'start'\nat = -1\nnode = 's'\n",
        "scene.toml:20: row 1 of [[edit]] has -1 at \"at\", where 0 to 16777216 frames are allowed\n",
    ),
    (
        "[[bus]]\nnode = 's'\nto = 's'\n",
        "scene.toml:20: row 1 of [[bus]] leads to a sound, which has no input: attach to a group, a splitter or the endpoint\n",
    ),
    (
        "[[ bus ]]\nnode = 's'\nx = 1\n",
        "scene.toml: row 1 of [[bus]] has the key \"x\", which a bus doesn't have (node, out, to, gain)\n",
    ),
    (
        "bus = 1\n",
        "scene.toml:16: row 2 of [[node]] has the key \"bus\", which a splitter doesn't have (kind, name, outputs, started, from, until)\n",
    ),
    (
        "rate 8000\n",
        "scene.toml: TOML parse error at line 20, column 6\nkey with no value, expected `=`\n",
    ),
    ("", ""),
];

#[test]
fn faults_of_scripts_are_said(rt: HostRuntime) -> Result<(), Fail> {
    let alloc = rt.alloc();
    for (rest, want) in HINTS {
        let mut script = String::from_str(alloc, SCENE)?;
        script.push_str(rest)?;
        let hint = match read_scene(alloc, script.as_bytes()) {
            Ok(_) => String::new(alloc),
            Err(ScriptError::Fault(fault)) => {
                script_hint(alloc, "scene.toml", script.as_bytes(), fault)?
            }
            Err(ScriptError::OutOfMemory) => return Err(Fail::from(plain_data::OutOfMemory)),
        };
        assert_eq!(rt; hint.as_str(), *want);
    }
    Ok(())
}
