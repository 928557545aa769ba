//! The plain mix itself, into a sink that takes its bytes and into one that fails.
use crate::programs::{mixed, sound};
use clip_decode::{Clip, MAX_SOUND_BYTES};
use mix_model::{MixFault, Summary, plain_mix};
use scene_script::read_scene;
use snd_io::MemSink;
use std::alloc::Global;
use std::process::Abort;
use std::test::Fail;

/// A sound of four samples that is detached, sought and attached again, and gets another gain, and one past the end.
const SCRIPT: &str = "version = 1
rate = 8000
channels = 1
width = 16
length = 5
resource = [{ name = \"a\", file = \"a.wav\" }]
node = [{ kind = \"sound\", name = \"s\", resource = \"a\" }]
bus = [{ node = \"s\", to = \"endpoint\" }]
edit = [{ op = \"detach\", at = 2, node = \"s\" }, { op = \"seek\", at = 2, node = \"s\", value = 0 }, { op = \"attach\", at = 2, node = \"s\", to = \"endpoint\" }, { op = \"gain\", at = 4, node = \"s\", value = 131072 }, { op = \"gain\", at = 5, node = \"s\", value = 0 }]
";

/// The mix of the script with this sound, written to the sink.
fn mix_into(
    rt: &impl Abort,
    alloc: Global,
    file: Vec<u8>,
    sink: &mut MemSink,
) -> Result<Result<Summary, MixFault>, Fail> {
    let scene = read_scene(alloc, SCRIPT.as_bytes()).ok().ok_or("a scene")?;
    let clip = Clip::new(alloc, file).ok().ok_or("a clip")?;
    let clips = [clip];
    assert!(rt; scene.resources.as_slice().len() == 1);
    assert!(rt; clips[0].bytes().len() as u64 <= MAX_SOUND_BYTES);
    Ok(plain_mix(alloc, &scene, &clips, sink))
}

#[test]
fn the_plain_mix_is_the_file_that_mix_writes(rt: HostRuntime) -> Result<(), Fail> {
    let alloc = rt.alloc();
    let a = sound(alloc, 1, 8000, &[10, 20, 30, 40])?;
    let (out, _) = mixed(alloc, SCRIPT, &[("a.wav", &a)])?;
    assert!(rt; out.as_slice().ends_with(b"\x0a\0\x14\0\x0a\0\x14\0\x3c\0"));
    let mut sink = MemSink::new(alloc)?;
    let summary = Summary {
        peak: 15_360,
        sum: 120,
    };
    assert_eq!(rt; mix_into(&rt, alloc, a, &mut sink)?, Ok(summary));
    assert_eq!(rt; sink.bytes(), out.as_slice());
    Ok(())
}

#[test]
fn a_sink_that_fails_ends_the_plain_mix(rt: HostRuntime) -> Result<(), Fail> {
    let alloc = rt.alloc();
    let a = sound(alloc, 1, 8000, &[10, 20, 30, 40])?;
    let mut sink = MemSink::new(alloc)?;
    sink.fail(alloc, 1, 10)?;
    assert_eq!(rt;
        mix_into(&rt, alloc, a, &mut sink)?,
        Err(MixFault::SinkFault)
    );
    assert_eq!(rt; sink.bytes(), b"RIFF\x2e\0\0\0WA".as_slice());
    Ok(())
}
