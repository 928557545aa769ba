//! The line of each fault of a script.
use crate::programs::{depot_of, ends};
use plain_data::OutOfMemory;
use std::alloc::Global;
use std::test::Fail;

/// The top of a script, without its length.
const TOP: &str = "version = 1\nrate = 8000\nchannels = 1\nwidth = 16\n";

/// The length, a resource, the groups 0 and 1, of which the first is attached to the second, and sound 2.
const ROWS: &str = "length = 4
resource = [{ name = \"r\", file = \"r.wav\" }]
node = [{ kind = \"group\", name = \"a\" }, { kind = \"group\", name = \"b\" }, { kind = \"sound\", name = \"s\", resource = \"r\" }]
bus = [{ node = \"a\", to = \"b\" }]
";

/// The rest of a script behind `TOP` and `ROWS`, and the line of its fault.
const EDITS: &[(&str, &str)] = &[
    (
        "edit = [{ op = \"attach\", at = 0, node = \"b\", to = \"a\" }]",
        "script: EditRefused edit 1 Cycle 0\n",
    ),
    (
        "edit = [{ op = \"detach\", at = 0, node = \"b\" }]",
        "script: EditRefused edit 1 NotAttached\n",
    ),
    (
        "edit = [{ op = \"attach\", at = 4, node = \"a\", to = \"b\" }]",
        "script: EditRefused edit 1 AlreadyAttached 1\n",
    ),
    (
        "edit = [{ op = \"attach\", at = 0, node = \"b\", to = \"s\" }]",
        "script: EditRefused edit 1 NoInput\n",
    ),
    (
        "edit = [{ op = \"gain\", at = 0, node = \"a\", out = 1, value = 0 }]",
        "script: EditRefused edit 1 NoSuchBus\n",
    ),
    (
        "edit = [{ op = \"gain\", at = 0, node = \"a\", value = 1048577 }]",
        "script: EditRefused edit 1 GainTooLarge\n",
    ),
    (
        "edit = [{ op = \"seek\", at = 0, node = \"a\", value = 0 }]",
        "script: EditRefused edit 1 NotSound\n",
    ),
    (
        "edit = [{ op = \"stop\", at = 2, node = \"s\" }, { op = \"stop\", at = 1, node = \"t\" }]",
        "script: UnknownName edit 2\n",
    ),
    (
        "edit = [{ op = \"stop\", at = 16777217, node = \"s\" }]",
        "script: Limit At 16777217 16777216\n",
    ),
    (
        "edit = [{ op = \"loop\", at = 0, node = \"s\", value = 2 }]",
        "script: Limit Value 2 1\n",
    ),
    (
        "edit = [{ op = \"stop\", at = 0, node = \"s\", editor = 4 }]",
        "script: Limit Editor 4 3\n",
    ),
];

/// The rest of a script behind `TOP`, and the line of its fault.
const TABLES: &[(&str, &str)] = &[
    ("length", "script: NotToml\n"),
    ("length = 4\ntempo = 1", "script: UnknownKey scene 0\n"),
    ("length = -1", "script: Limit Length -1 0\n"),
    ("", "script: MissingKey scene 0\n"),
    ("length = 4\nnode = 1", "script: WrongKind node 0\n"),
    (
        "length = 4\nresource = [{ name = \"r\" }]",
        "script: MissingKey resource 1\n",
    ),
    (
        "length = 4\nresource = [{ name = \"r\", file = \"\" }]",
        "script: Limit FileName 0 1\n",
    ),
    (
        "length = 4\nresource = [{ name = \"r\", file = \"f\" }, { name = \"r\", file = \"f\" }]",
        "script: DoubleName resource 2\n",
    ),
    (
        "length = 4\nnode = [{ kind = \"splitter\", name = \"p\", outputs = 5 }]",
        "script: Limit Outputs 5 4\n",
    ),
    (
        "length = 4\nnode = [{ kind = \"group\", name = \"g\", from = -1 }]",
        "script: Limit From -1 0\n",
    ),
    (
        "length = 4\nnode = [{ kind = \"group\", name = \"g\", until = -1 }]",
        "script: Limit Until -1 0\n",
    ),
    (
        "length = 4\nnode = [{ kind = \"group\", name = \"g\" }]\nbus = [{ node = \"h\" }]",
        "script: UnknownName bus 1\n",
    ),
    (
        "length = 4\nnode = [{ kind = \"group\", name = \"g\" }]\nbus = [{ node = \"g\", out = 256 }]",
        "script: Limit Out 256 255\n",
    ),
    (
        "length = 4\nnode = [{ kind = \"group\", name = \"g\" }]\nbus = [{ node = \"g\", gain = -1 }]",
        "script: Limit Gain -1 0\n",
    ),
    (
        "length = 4\nnode = [{ kind = \"group\", name = \"g\" }]\nbus = [{ node = \"g\", gain = 1048577 }]",
        "script: EditRefused bus 1 GainTooLarge\n",
    ),
    (
        "length = 4\nnode = [{ kind = \"group\", name = \"a\" }, { kind = \"group\", name = \"b\" }, { kind = \"group\", name = \"c\" }]\nbus = [{ node = \"a\", to = \"c\" }]\nedit = [{ op = \"attach\", at = 4, node = \"a\", to = \"c\" }]",
        "script: EditRefused edit 1 AlreadyAttached 2\n",
    ),
];

/// Whole scripts, and the line of their fault.
const HEADS: &[(&str, &str)] = &[
    ("version = 2", "script: Version 2\n"),
    ("version = 1\nrate = 0", "script: Limit Rate 0 1\n"),
    (
        "version = 1\nrate = 1\nchannels = 3",
        "script: Limit Channels 3 2\n",
    ),
    (
        "version = 1\nrate = 1\nchannels = 1\nwidth = 8",
        "script: Limit Width 8 24\n",
    ),
];

/// Whether `mix` of the script ends with status 6 and this line, and OUT isn't created.
fn is_refused(alloc: Global, script: &str, line: &str) -> Result<bool, OutOfMemory> {
    let mut depot = depot_of(alloc, script, &[])?;
    let told = ends(
        alloc,
        &mut depot,
        &["mix", "scene.toml", "out.wav"],
        6,
        line,
    )?;
    Ok(told && depot.file("out.wav").is_none())
}

#[test]
fn each_fault_of_a_script_has_its_line(rt: HostRuntime) -> Result<(), Fail> {
    let alloc = rt.alloc();
    for (script, line) in HEADS {
        assert!(rt; is_refused(alloc, script, line)?, "{line}");
    }
    for (rest, line) in TABLES {
        let script = format!(in alloc; "{TOP}{rest}\n")?;
        assert!(rt; is_refused(alloc, script.as_str(), line)?, "{line}");
    }
    for (rest, line) in EDITS {
        let script = format!(in alloc; "{TOP}{ROWS}{rest}\n")?;
        assert!(rt; is_refused(alloc, script.as_str(), line)?, "{line}");
    }
    Ok(())
}
