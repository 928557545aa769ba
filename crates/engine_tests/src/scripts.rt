//! Scenes by their scripts.

use crate::rendering::common_summary;
use crate::sounds::{Sound, clips};
use scene_model::Scene;
use scene_script::read_scene;
use std::alloc::{AllocError, Global};
use std::process::Abort;
use std::test::Fail;

/// A script of resources `a`, `b` and `c` at 8000 Hz, with these rows.
pub fn script(
    alloc: Global,
    channels: u8,
    width: u8,
    length: u32,
    rows: &str,
) -> Result<String, AllocError> {
    format!(in alloc;
        "version = 1
rate = 8000
channels = {channels}
width = {width}
length = {length}
resource = [{{ name = \"a\", file = \"a\" }}, {{ name = \"b\", file = \"b\" }}, {{ name = \"c\", file = \"c\" }}]
{rows}
"
    )
}

/// The scene of a script.
pub fn scene(alloc: Global, script: &str) -> Result<Scene, Fail> {
    Ok(read_scene(alloc, script.as_bytes())?)
}

/// Whether the engine writes what the plain mix does, and with its summary, for a script with sounds
/// of noise.
pub fn is_plain_mix(
    rt: &impl Abort,
    alloc: Global,
    script: &str,
    sounds: &[Sound],
) -> Result<bool, Fail> {
    let scene = scene(alloc, script)?;
    let clips = clips(alloc, sounds, 1)?;
    Ok(common_summary(rt, alloc, &scene, clips)?.is_some())
}
