//! What is said of the other statuses.

use hints::{Program, absent_hint, long_hint, memory_hint, store_hint, unprinted_hint, usage_hint};
use std::test::Fail;

#[test]
fn words_are_said(rt: HostRuntime) -> Result<(), Fail> {
    let alloc = rt.alloc();
    let hint = usage_hint(alloc, Program::Scenetool, Some("mox"))?;
    assert_eq!(rt;
        hint.as_str(),
        "scenetool: the word \"mox\" doesn't fit\nits forms: mix SCENE OUT, info FILE, gen NUMBER PREFIX or fx FILE OUT COUNT EFFECT ..\nscenetool --help says more\n"
    );
    let hint = usage_hint(alloc, Program::Scenerender, None)?;
    assert_eq!(rt;
        hint.as_str(),
        "scenerender: a word is missing\nits forms: render SCENE OUT WORKERS\nscenerender --help says more\n"
    );
    let hint = usage_hint(alloc, Program::Sceneview, Some("x"))?;
    assert_eq!(rt;
        hint.as_str(),
        "sceneview: the word \"x\" doesn't fit\nits forms: SCENE [FRAME]\nsceneview --help says more\n"
    );
    Ok(())
}

#[test]
fn other_statuses_are_said(rt: HostRuntime) -> Result<(), Fail> {
    let alloc = rt.alloc();
    let hint = memory_hint(alloc, Program::Scenetool)?;
    assert_eq!(rt; hint.as_str(), "scenetool: there wasn't enough memory\n");
    let hint = store_hint(alloc, Program::Scenetool)?;
    assert_eq!(rt;
        hint.as_str(),
        "scenetool: a file couldn't be read or written: the disk may be full, a path that of a directory, or the file not allowed\n"
    );
    let hint = absent_hint(alloc, "a.wav")?;
    assert_eq!(rt;
        hint.as_str(),
        "a.wav: there is no such file; paths are from the directory that you are in\n"
    );
    let hint = long_hint(alloc, "a.wav", 67_108_864)?;
    assert_eq!(rt;
        hint.as_str(),
        "a.wav: with this file there are more than 67108864 bytes (64 MiB), the most that is read\n"
    );
    let hint = unprinted_hint(alloc, Program::Scenetool)?;
    assert_eq!(rt;
        hint.as_str(),
        "scenetool: standard output couldn't be written; all files are\n"
    );
    Ok(())
}
