//! Words that are no command.
use crate::programs::ends;
use snd_io::SureDepot;
use std::test::Fail;

/// Words, and the place of the first that doesn't fit, as the text tells it.
const USAGES: &[(&[&str], &str)] = &[
    (&[], "usage: word 0\n"),
    (&["play", "a", "b"], "usage: word 0\n"),
    (&["mix"], "usage: word 1\n"),
    (&["mix", "a"], "usage: word 2\n"),
    (&["mix", ""], "usage: word 2\n"),
    (&["mix", "a", "b", "c"], "usage: word 3\n"),
    (&["mix", "", "", "c"], "usage: word 3\n"),
    (&["mix", "", ""], "usage: word 1\n"),
    (&["mix", "a", ""], "usage: word 2\n"),
    (&["info"], "usage: word 1\n"),
    (&["info", ""], "usage: word 1\n"),
    (&["info", "", "b"], "usage: word 2\n"),
    (&["gen"], "usage: word 1\n"),
    (&["gen", "x"], "usage: word 2\n"),
    (&["gen", "1", "g", "h"], "usage: word 3\n"),
    (&["gen", "", "g"], "usage: word 1\n"),
    (&["gen", "+1", "g"], "usage: word 1\n"),
    (&["gen", "1a", "g"], "usage: word 1\n"),
    (&["gen", "4294967296", "g"], "usage: word 1\n"),
    (&["gen", "00000000001", "g"], "usage: word 1\n"),
    (&["gen", "x", "g h"], "usage: word 1\n"),
    (&["gen", "1", ""], "usage: word 2\n"),
    (&["gen", "1", "g h"], "usage: word 2\n"),
    (&["gen", "1", "g:"], "usage: word 2\n"),
    (&["fx"], "usage: word 1\n"),
    (&["fx", "a"], "usage: word 2\n"),
    (&["fx", "a", "o"], "usage: word 3\n"),
    (&["fx", "a", "o", "5"], "usage: word 4\n"),
    (&["fx", "", "", ""], "usage: word 4\n"),
    (&["fx", "", "o", "5", "pan:0"], "usage: word 1\n"),
    (&["fx", "a", "", "x", "pan"], "usage: word 2\n"),
    (&["fx", "a", "o", "16777217", "pan"], "usage: word 3\n"),
    (&["fx", "a", "o", "000000005", "pan:0"], "usage: word 3\n"),
    (&["fx", "a", "o", "5", "fade:4:4:0:1"], "usage: word 4\n"),
    (
        &["fx", "a", "o", "5", "pan:0", "pan:65537", "pan"],
        "usage: word 5\n",
    ),
    (
        &[
            "fx", "", "o", "5", "pan:0", "pan:1", "pan:2", "pan:3", "pan:4", "pan:5", "pan:6",
            "pan:7", "pan:8", "pan:9", "pan:10", "pan:11", "pan:12", "pan:13", "pan:14", "pan:15",
            "pan:16",
        ],
        "usage: word 20\n",
    ),
];

#[test]
fn words_that_are_no_command_are_named_by_their_place(rt: HostRuntime) -> Result<(), Fail> {
    let alloc = rt.alloc();
    for (words, text) in USAGES {
        let mut depot = SureDepot::new(alloc)?;
        assert!(rt; ends(alloc, &mut depot, words, 2, text)?, "{words:?}");
    }
    let mut depot = SureDepot::new(alloc)?;
    let long = "p".repeat(alloc, 256)?;
    let words = ["mix", "scene.toml", long.as_str()];
    assert!(rt; ends(alloc, &mut depot, &words, 2, "usage: word 2\n")?);
    Ok(())
}
