//! A scene as the engine renders it, and as the plain mix does.

ghost use Rattle.std.specs.Prelude.{◌≡◌, ◌≤◌, All, length};
ghost use Rattle.clip_decode.specs.ClipData.{ClipData};
ghost use Rattle.clip_decode.specs.Limits.{most_sound_bytes};

use clip_decode::Clip;
use engine::mix;
use mix_model::{Summary, plain_mix};
use scene_model::Scene;
use snd_io::{MemSink, SureDepot};
use std::alloc::Global;
use std::process::Abort;
use std::test::Fail;

/// The WAVE file of a scene, and its summary.
type Rendered = (Vec<u8>, Summary);

/// The file that the engine writes.
fn in_blocks(alloc: Global, scene: &Scene, clips: Vec<Clip>) -> Result<Rendered, Fail>
    requires { All (λ (c : ClipData). length c.bytes ≤ most_sound_bytes) clips.items }
{
    let mut depot = SureDepot::new(alloc)?;
    let summary = mix(alloc, scene, clips, &mut depot, "out.wav")?;
    let file = depot.file("out.wav").ok_or("no file")?;
    Ok((Vec::from_slice(alloc, file)?, summary))
}

/// The file that the plain mix writes.
pub fn frame_by_frame(alloc: Global, scene: &Scene, clips: &[Clip]) -> Result<Rendered, Fail>
    requires count { length clips.now ≡ length scene.now.resources }
    requires sizes { All (λ (c : ClipData). length c.bytes ≤ most_sound_bytes) clips.now }
{
    let mut sink = MemSink::new(alloc)?;
    let summary = plain_mix(alloc, scene, clips, &mut sink)?;
    Ok((Vec::from_slice(alloc, sink.bytes())?, summary))
}

/// The summary of a scene of which both write the same file with the same summary, and `None` where
/// they don't.
pub fn common_summary(
    rt: &impl Abort,
    alloc: Global,
    scene: &Scene,
    clips: Vec<Clip>,
) -> Result<Option<Summary>, Fail>
    requires { All (λ (c : ClipData). length c.bytes ≤ most_sound_bytes) clips.items }
{
    assert!(rt; clips.len() == scene.resources.as_slice().len());
    let (want, summary) = frame_by_frame(alloc, scene, clips.as_slice())?;
    let (found, other) = in_blocks(alloc, scene, clips)?;
    let is_same = found.as_slice() == want.as_slice() && other == summary;
    Ok(is_same.then_some(summary))
}
