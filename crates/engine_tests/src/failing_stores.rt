//! What is left of a scene's file where a call of the store fails.

ghost use Rattle.std.specs.Prelude.{◌≡◌, None, IfOk};
ghost use Rattle.snd_io.specs.MemFiles.{mem_writing};

use crate::rendering::frame_by_frame;
use crate::scripts::{scene, script};
use crate::sounds::{clips, mono};
use engine::{RunFault, mix};
use plain_data::OutOfMemory;
use snd_io::{MemDepot, Snag};
use std::alloc::Global;
use std::process::Abort;
use std::test::Fail;

/// A scene's width, its length and its edits, and the bytes of each append: the header, each block,
/// and the pad byte where there is one.
type Case = (u8, u32, &'static str, &'static [u32]);

const CASES: &[Case] = &[
    // No frame.
    (24, 0, "", &[44]),
    // 512 frames and 88.
    (16, 600, "", &[44, 1024, 176]),
    // 512 frames and one of 3 bytes, and the pad byte.
    (24, 513, "", &[44, 1536, 3, 1]),
    // 512 frames, 88 up to the edit, and 500.
    (
        16,
        1100,
        "edit = [{ op = \"gain\", at = 600, node = \"s\", value = 9 }]",
        &[44, 1024, 176, 1000],
    ),
];

/// A sound of 600 frames, and the edits.
fn one_sound(alloc: Global, width: u8, length: u32, edits: &str) -> Result<String, OutOfMemory> {
    let rows = format!(in alloc;
        "node = [{{ kind = \"sound\", name = \"s\", resource = \"a\" }}]
bus = [{{ node = \"s\", to = \"endpoint\" }}]
{edits}"
    )?;
    Ok(script(alloc, 1, width, length, rows.as_str())?)
}

/// Appends alone are counted, or all calls.
fn snag(appends_only: bool, call: u32, taken: u32) -> Snag {
    Snag {
        appends_only,
        call,
        taken,
    }
}

/// A store that has an older file of that name, and fails at this call.
fn store(alloc: Global, snag: Snag) -> Result<MemDepot, OutOfMemory>
    ensures { IfOk result (λ depot. mem_writing depot ≡ None) }
{
    let mut depot = MemDepot::new(alloc)?;
    depot.set(alloc, "out.wav", b"old")?;
    depot.fail(alloc, snag)?;
    Ok(depot)
}

/// What `mix` is answered where this call fails, and the file that is left.
fn mixed(alloc: Global, script: &str, snag: Snag) -> Result<(Option<RunFault>, Vec<u8>), Fail> {
    let scene = scene(alloc, script)?;
    let clips = clips(alloc, &[mono(600), mono(0), mono(0)], 1)?;
    let mut depot = store(alloc, snag)?;
    let fault = mix(alloc, &scene, clips, &mut depot, "out.wav").err();
    let file = depot.file("out.wav").ok_or("no file")?;
    Ok((fault, Vec::from_slice(alloc, file)?))
}

/// The whole file.
fn whole(rt: &impl Abort, alloc: Global, script: &str) -> Result<Vec<u8>, Fail> {
    let scene = scene(alloc, script)?;
    let clips = clips(alloc, &[mono(600), mono(0), mono(0)], 1)?;
    assert!(rt; clips.len() == scene.resources.as_slice().len());
    let (bytes, _) = frame_by_frame(alloc, &scene, clips.as_slice())?;
    Ok(bytes)
}

/// Whether a fault of the store leaves the first `left` bytes of a file.
fn is_left(answer: &(Option<RunFault>, Vec<u8>), file: &[u8], left: u32) -> bool {
    let (fault, out) = answer;
    *fault == Some(RunFault::DepotFault)
        && out.len() == left as usize
        && file.starts_with(out.as_slice())
}

/// Asserts what is left where each of these appends fails, and that there are no more.
fn assert_appends(
    rt: &impl Abort,
    alloc: Global,
    script: &str,
    file: &[u8],
    appends: &[u32],
) -> Result<(), Fail> {
    let (mut before, mut next) = (0u32, 1u32);
    for size in appends {
        for taken in [0, 1, *size, u32::MAX] {
            let answer = mixed(alloc, script, snag(true, next, taken))?;
            let left = before.saturating_add(taken.min(*size));
            assert!(rt;
                is_left(&answer, file, left),
                "append {next} takes {taken}: {script}"
            );
        }
        before = before.saturating_add(*size);
        next = next.saturating_add(1);
    }
    let (fault, out) = mixed(alloc, script, snag(true, next, 0))?;
    assert!(rt;
        fault.is_none() && out.as_slice() == file,
        "{next} appends: {script}"
    );
    assert_eq!(rt; out.len(), before as usize);
    Ok(())
}

#[test]
fn a_failing_append_leaves_what_was_appended(rt: HostRuntime) -> Result<(), Fail> {
    let alloc = rt.alloc();
    for (width, length, edits, appends) in CASES {
        let script = one_sound(alloc, *width, *length, edits)?;
        let file = whole(&rt, alloc, script.as_str())?;
        assert_appends(&rt, alloc, script.as_str(), file.as_slice(), appends)?;
    }
    Ok(())
}

/// The header has 44 bytes, a frame 2, and the third append is that of the second block.
#[test]
fn a_store_that_fails_at_the_second_block_has_the_first(rt: HostRuntime) -> Result<(), Fail> {
    let alloc = rt.alloc();
    let script = one_sound(alloc, 16, 600, "")?;
    let (fault, out) = mixed(alloc, script.as_str(), snag(true, 3, 0))?;
    assert_eq!(rt; (fault, out.len()), (Some(RunFault::DepotFault), 1068));
    let (fault, out) = mixed(alloc, script.as_str(), snag(true, 4, 0))?;
    assert_eq!(rt; (fault, out.len()), (None, 1244));
    Ok(())
}

/// `create` is the first call, and after two blocks `finish` is the fifth.
#[test]
fn a_store_that_fails_at_create_or_finish(rt: HostRuntime) -> Result<(), Fail> {
    let alloc = rt.alloc();
    let script = one_sound(alloc, 16, 600, "")?;
    let file = whole(&rt, alloc, script.as_str())?;
    let answer = mixed(alloc, script.as_str(), snag(false, 1, 9))?;
    assert!(rt; is_left(&answer, b"old", 3));
    let answer = mixed(alloc, script.as_str(), snag(false, 5, 9))?;
    assert!(rt; is_left(&answer, file.as_slice(), 1244));
    let (fault, out) = mixed(alloc, script.as_str(), snag(false, 6, 9))?;
    assert!(rt; fault.is_none() && out.as_slice() == file.as_slice());
    Ok(())
}
