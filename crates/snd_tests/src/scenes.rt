//! Whole scenes that were worked out by hand, each by its script, its samples and the samples that
//! come out.
ghost use Rattle.std.specs.Prelude.{◌≡◌, None, IfOk};
ghost use Rattle.snd_io.specs.SureFiles.{sure_writing};

use crate::mixes::EMPTY;
use crate::programs::{data_of, depot_of, mixed, run, sound};
use plain_data::OutOfMemory;
use snd_io::SureDepot;
use std::alloc::{AllocError, Global};
use std::test::Fail;

/// The top of a script of mono and 16 bits at 8000 Hz, without its length.
const TOP: &str = "version = 1\nrate = 8000\nchannels = 1\nwidth = 16\n";

/// Resources `a` and `b`.
const SOUNDS: &str =
    "resource = [{ name = \"a\", file = \"a.wav\" }, { name = \"b\", file = \"b.wav\" }]\n";

/// A scene by the rest of its script, the samples of `a` and of `b`, and those that come out.
pub type Worked = (&'static str, &'static [i16], &'static [i16], &'static [i16]);

/// The scenes.
pub const WORKED: &[Worked] = &[
    // No node at all.
    ("length = 0", &[], &[], &[]),
    ("length = 3", &[], &[], &[0, 0, 0]),
    // The sum is held once, after all buses.
    (
        "length = 1
node = [{ kind = \"sound\", name = \"s\", resource = \"a\" }, { kind = \"sound\", name = \"t\", resource = \"a\" }, { kind = \"sound\", name = \"u\", resource = \"b\" }]
bus = [{ node = \"s\", to = \"endpoint\" }, { node = \"t\", to = \"endpoint\" }, { node = \"u\", to = \"endpoint\" }]",
        &[32767],
        &[-32767],
        &[32767],
    ),
    // A splitter to the endpoint and to a group that is started at frame 2.
    (
        "length = 4
node = [{ kind = \"sound\", name = \"s\", resource = \"a\" }, { kind = \"splitter\", name = \"p\", outputs = 2 }, { kind = \"group\", name = \"g\", started = false }]
bus = [{ node = \"s\", to = \"p\" }, { node = \"p\", to = \"endpoint\" }, { node = \"p\", out = 1, to = \"g\" }, { node = \"g\", to = \"endpoint\" }]
edit = [{ op = \"start\", at = 2, node = \"g\" }]",
        &[1, 2, 3, 4],
        &[],
        &[1, 2, 6, 8],
    ),
    // At frame 2 detached, sought and attached again; a gain that is heard, and one past the end.
    (
        "length = 5
node = [{ kind = \"sound\", name = \"s\", resource = \"a\" }]
bus = [{ node = \"s\", to = \"endpoint\" }]
edit = [{ op = \"detach\", at = 2, node = \"s\" }, { op = \"seek\", at = 2, node = \"s\", value = 0 }, { op = \"attach\", at = 2, node = \"s\", to = \"endpoint\" }, { op = \"gain\", at = 4, node = \"s\", value = 131072 }, { op = \"gain\", at = 5, node = \"s\", value = 0 }]",
        &[10, 20, 30, 40],
        &[],
        &[10, 20, 10, 20, 60],
    ),
    // A cursor moves only where its sound is pulled.
    (
        "length = 4
node = [{ kind = \"sound\", name = \"s\", resource = \"a\" }, { kind = \"group\", name = \"g\" }]
bus = [{ node = \"s\", to = \"g\" }, { node = \"g\", to = \"endpoint\" }]
edit = [{ op = \"stop\", at = 1, node = \"g\" }, { op = \"start\", at = 3, node = \"g\" }]",
        &[1, 2, 3, 4],
        &[],
        &[1, 0, 0, 2],
    ),
    // From frame 1, until frame 3.
    (
        "length = 4
node = [{ kind = \"sound\", name = \"s\", resource = \"a\", from = 1, until = 3 }]
bus = [{ node = \"s\", to = \"endpoint\" }]",
        &[1, 2, 3, 4],
        &[],
        &[0, 1, 2, 0],
    ),
    // A loop of no frames, and one of two.
    (
        "length = 3
node = [{ kind = \"sound\", name = \"s\", resource = \"a\", loop = true }]
bus = [{ node = \"s\", to = \"endpoint\" }]",
        &[],
        &[],
        &[0, 0, 0],
    ),
    (
        "length = 5
node = [{ kind = \"sound\", name = \"s\", resource = \"a\", loop = true }]
bus = [{ node = \"s\", to = \"endpoint\" }]",
        &[7, 9],
        &[],
        &[7, 9, 7, 9, 7],
    ),
    // Every edit at frame 1: the sound goes on from its third sample in a loop, at half its gain.
    (
        "length = 4
node = [{ kind = \"sound\", name = \"s\", resource = \"a\" }, { kind = \"group\", name = \"g\", started = false }]
bus = [{ node = \"s\", to = \"endpoint\" }, { node = \"g\", to = \"endpoint\" }]
edit = [{ op = \"detach\", at = 1, node = \"s\" }, { op = \"attach\", at = 1, node = \"s\", to = \"g\" }, { op = \"gain\", at = 1, node = \"s\", value = 32768 }, { op = \"start\", at = 1, node = \"g\" }, { op = \"stop\", at = 1, node = \"s\" }, { op = \"start\", at = 1, node = \"s\" }, { op = \"from\", at = 1, node = \"s\", value = 1 }, { op = \"until\", at = 1, node = \"s\", value = 9 }, { op = \"seek\", at = 1, node = \"s\", value = 99 }, { op = \"seek\", at = 1, node = \"s\", value = 2 }, { op = \"loop\", at = 1, node = \"s\", value = 1 }]",
        &[10, 20, 30],
        &[],
        &[10, 15, 5, 10],
    ),
    // A seek past the end: silence, and then the loop begins again.
    (
        "length = 4
node = [{ kind = \"sound\", name = \"s\", resource = \"a\", loop = true }]
bus = [{ node = \"s\", to = \"endpoint\" }]
edit = [{ op = \"seek\", at = 1, node = \"s\", value = 140737488355327 }]",
        &[10, 20, 30],
        &[],
        &[10, 0, 10, 20],
    ),
];

/// The bytes of samples of 16 bits.
fn bytes_of(alloc: Global, samples: &[i16]) -> Result<Vec<u8>, AllocError> {
    let mut bytes = Vec::new(alloc);
    for sample in samples {
        bytes.extend_from_slice(&sample.to_le_bytes())?;
    }
    Ok(bytes)
}

/// A store with the script of a scene and its sound files, which have at most 9 samples.
pub fn worked_depot(alloc: Global, worked: &Worked) -> Result<SureDepot, OutOfMemory>
    ensures { IfOk result (λ depot. sure_writing depot ≡ None) }
{
    let (rest, a, b, _) = worked;
    let script = format!(in alloc; "{TOP}{SOUNDS}{rest}\n")?;
    let a = sound(alloc, 1, 8000, &a[..a.len().min(9)])?;
    let b = sound(alloc, 1, 8000, &b[..b.len().min(9)])?;
    let files: [(&str, &[u8]); 2] = [("a.wav", &a), ("b.wav", &b)];
    depot_of(alloc, script.as_str(), &files)
}

/// Whether a scene comes out as it was worked out.
fn is_worked(alloc: Global, worked: &Worked) -> Result<bool, OutOfMemory> {
    let mut depot = worked_depot(alloc, worked)?;
    run(alloc, &mut depot, &["mix", "scene.toml", "out.wav"])?;
    let want = bytes_of(alloc, worked.3)?;
    let Some(out) = depot.file("out.wav") else {
        return Ok(false);
    };
    Ok(out.len() >= 44 && data_of(out) == want.as_slice())
}

#[test]
fn scenes_come_out_as_they_were_worked_out(rt: HostRuntime) -> Result<(), Fail> {
    for worked in WORKED {
        assert!(rt; is_worked(rt.alloc(), worked)?, "{}", worked.0);
    }
    Ok(())
}

#[test]
fn a_scene_without_frames_is_a_header(rt: HostRuntime) -> Result<(), Fail> {
    let alloc = rt.alloc();
    let script = format!(in alloc; "{TOP}length = 0\n")?;
    let (out, text) = mixed(alloc, script.as_str(), &[])?;
    assert_eq!(rt; out.as_slice(), EMPTY);
    let line = b"frames 0 rate 8000 channels 1 width 16 bytes 44 peak 0 sum 0\n";
    assert_eq!(rt; text.as_slice(), line.as_slice());
    Ok(())
}

/// Two sounds at 16.0 are held within 24 bits, and the peak is that of the mix, before its samples
/// are packed.
#[test]
fn the_peak_is_that_of_the_mix(rt: HostRuntime) -> Result<(), Fail> {
    let alloc = rt.alloc();
    let script = format!(in alloc;
        "{TOP}length = 2
resource = [{{ name = \"a\", file = \"a.wav\" }}]
node = [{{ kind = \"sound\", name = \"s\", resource = \"a\" }}, {{ kind = \"sound\", name = \"t\", resource = \"a\" }}]
bus = [{{ node = \"s\", to = \"endpoint\", gain = 1048576 }}, {{ node = \"t\", to = \"endpoint\", gain = 1048576 }}]
"
    )?;
    let a = sound(alloc, 1, 8000, &[32767, -32768])?;
    let (out, text) = mixed(alloc, script.as_str(), &[("a.wav", &a)])?;
    let want = bytes_of(alloc, &[32767, -32768])?;
    assert_eq!(rt; data_of(&out), want.as_slice());
    let line = b"frames 2 rate 8000 channels 1 width 16 bytes 48 peak 8388608 sum 510\n";
    assert_eq!(rt; text.as_slice(), line.as_slice());
    Ok(())
}

/// 60 splitters in a row, with two buses from each to the next: 2^60 ways to the endpoint. With a
/// gain of a half on each bus the sound comes through as it is.
fn splitters(alloc: Global) -> Result<String, AllocError> {
    let mut text = String::from_str(alloc, TOP)?;
    text.push_str("length = 3\n[[resource]]\nname = \"a\"\nfile = \"a.wav\"\n")?;
    text.push_str("[[node]]\nkind = \"sound\"\nname = \"s\"\nresource = \"a\"\n")?;
    for i in 0..60 {
        let node = format!(in alloc;
            "[[node]]\nkind = \"splitter\"\nname = \"p{i}\"\noutputs = 2\n"
        )?;
        text.push_str(node.as_str())?;
    }
    text.push_str("[[bus]]\nnode = \"s\"\nto = \"p0\"\n")?;
    for i in 0..60 {
        for out in 0..2 {
            let bus = format!(in alloc; "[[bus]]\nnode = \"p{i}\"\nout = {out}\ngain = 32768\n")?;
            text.push_str(bus.as_str())?;
            if i < 59 {
                let to = format!(in alloc; "to = \"p{}\"\n", i + 1)?;
                text.push_str(to.as_str())?;
            } else {
                text.push_str("to = \"endpoint\"\n")?;
            }
        }
    }
    Ok(text)
}

#[test]
fn splitters_in_a_row_are_mixed_at_once(rt: HostRuntime) -> Result<(), Fail> {
    let alloc = rt.alloc();
    let script = splitters(alloc)?;
    let a = sound(alloc, 1, 8000, &[1000, -2000, 3000])?;
    let (out, _) = mixed(alloc, script.as_str(), &[("a.wav", &a)])?;
    let want = bytes_of(alloc, &[1000, -2000, 3000])?;
    assert_eq!(rt; data_of(&out), want.as_slice());
    Ok(())
}
