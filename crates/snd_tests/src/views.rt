//! `sceneview`: pictures of a scene's wiring.

use crate::programs::{depot_of, words_of};
use plain_data::OutOfMemory;
use snd_io::MemSink;
use snd_tools::run_view;
use std::alloc::Global;
use std::test::Fail;

/// A sound that is started at frame 50 goes through a group, which is active before frame 100.
const SCRIPT: &str = r#"version = 1
rate = 8000
channels = 1
width = 16
length = 200
resource = [{ name = "a", file = "a\\\"b\nc.wav" }]
node = [{ kind = "sound", name = "s", resource = "a", started = false }, { kind = "group", name = "g", until = 100 }]
bus = [{ node = "s", to = "g", gain = 98304 }, { node = "g", to = "endpoint", gain = 6 }]
edit = [{ op = "start", at = 50, node = "s" }, { op = "detach", at = 51, node = "g" }, { op = "attach", at = 90, node = "g", to = "endpoint" }]
"#;

/// Words, the status, and what is printed.
type Case = (&'static [&'static str], u8, &'static str);

const CASES: &[Case] = &[
    (
        &["scene.toml"],
        0,
        r#"digraph scene {
  label="frame 0";
  rankdir=LR;
  node [shape=box];
  n0 [label="s\nsound a\\\"b\nc.wav\nfrom 0 until 16777216\nstopped", color=grey, fontcolor=grey];
  n1 [label="g\ngroup\nfrom 0 until 100"];
  n2 [label="endpoint", shape=doublecircle];
  n0 -> n1 [label="1.5000", color=grey, fontcolor=grey];
  n1 -> n2 [label="0.0001"];
}
"#,
    ),
    (
        &["scene.toml", "050"],
        0,
        r#"digraph scene {
  label="frame 50";
  rankdir=LR;
  node [shape=box];
  n0 [label="s\nsound a\\\"b\nc.wav\nfrom 0 until 16777216"];
  n1 [label="g\ngroup\nfrom 0 until 100"];
  n2 [label="endpoint", shape=doublecircle];
  n0 -> n1 [label="1.5000"];
  n1 -> n2 [label="0.0001"];
}
"#,
    ),
    (
        &["scene.toml", "51"],
        0,
        r#"digraph scene {
  label="frame 51";
  rankdir=LR;
  node [shape=box];
  n0 [label="s\nsound a\\\"b\nc.wav\nfrom 0 until 16777216", color=grey, fontcolor=grey];
  n1 [label="g\ngroup\nfrom 0 until 100", color=grey, fontcolor=grey];
  n2 [label="endpoint", shape=doublecircle];
  n0 -> n1 [label="1.5000", color=grey, fontcolor=grey];
}
"#,
    ),
    (
        &["scene.toml", "16777216"],
        0,
        r#"digraph scene {
  label="frame 16777216";
  rankdir=LR;
  node [shape=box];
  n0 [label="s\nsound a\\\"b\nc.wav\nfrom 0 until 16777216", color=grey, fontcolor=grey];
  n1 [label="g\ngroup\nfrom 0 until 100", color=grey, fontcolor=grey];
  n2 [label="endpoint", shape=doublecircle];
  n0 -> n1 [label="1.5000", color=grey, fontcolor=grey];
  n1 -> n2 [label="0.0001", color=grey, fontcolor=grey];
}
"#,
    ),
    (&[], 2, "usage: word 0\n"),
    (&[""], 2, "usage: word 0\n"),
    (&["", "x"], 2, "usage: word 0\n"),
    (&["scene.toml", "16777217"], 2, "usage: word 1\n"),
    (&["scene.toml", "000000001"], 2, "usage: word 1\n"),
    (&["scene.toml", "1", "2"], 2, "usage: word 2\n"),
    (&["other.toml"], 4, "absent: other.toml\n"),
    (&["bad.toml"], 6, "script: NotToml\n"),
];

/// Whether the words end with this status and print this text.
fn views(alloc: Global, case: &Case) -> Result<bool, OutOfMemory> {
    let (words, code, text) = *case;
    let mut depot = depot_of(alloc, SCRIPT, &[("bad.toml", b"version 1")])?;
    let owned = words_of(alloc, words)?;
    let mut sink = MemSink::new(alloc)?;
    let status = run_view(alloc, &owned, &mut depot, &mut sink);
    Ok(status.code() == code && sink.bytes() == text.as_bytes())
}

#[test]
fn a_scene_is_drawn_as_it_is_at_a_frame(rt: HostRuntime) -> Result<(), Fail> {
    for case in CASES {
        assert!(rt; views(rt.alloc(), case)?, "{:?}", case.0);
    }
    Ok(())
}
