//! The clips of a scene's resources, and which node plays how many frames of them.

ghost use Rattle.std.specs.Prelude.{◌≡◌, ◌+◌, ◌≤◌, ℕ, All, List, length, map, slice_index, IfOk};
ghost use Rattle.clip_decode.specs.ClipData.{ClipData};
ghost use Rattle.scene_model.specs.Limits as limits;
ghost use Rattle.mix_model.specs.Mix.{AreFramesOf, clips_of, kind_frames, node_frames};
ghost use Rattle.scene_clips.specs.SceneClipData.{SceneClipData};
ghost use Rattle.clip_decode.specs.Limits.{most_sound_bytes};

use crate::order::MAX_INPUTS;
use clip_decode::Clip;
use plain_data::OutOfMemory;
use scene_clips::SceneClip;
use scene_model::{NodeKind, Scene};
use std::alloc::Global;

/// The clips of the resources at the scene's rate and channels.
pub(crate) fn decoded(
    alloc: Global,
    scene: &Scene,
    clips: &[Clip],
) -> Result<Vec<SceneClip>, OutOfMemory>
    requires { All (λ (c : ClipData). length c.bytes ≤ most_sound_bytes) clips.now }
    ensures { IfOk result (λ decoded. decoded.items ≡ clips_of scene.now (map (λ (c : ClipData). c.bytes) clips.now)) }
{
    let (rate, channels) = (scene.rate, scene.channels);
    let mut decoded = Vec::new(alloc);
    for clip in clips {
        decoded.push(SceneClip::decode(alloc, clip, rate, channels)?)?;
    }
    Ok(decoded)
}

/// The number of frames of each clip.
pub(crate) fn frames_of(alloc: Global, clips: &[SceneClip]) -> Result<Vec<u64>, OutOfMemory>
    ensures { IfOk result (λ frames. AreFramesOf clips.now frames.items) }
{
    let mut frames = Vec::new(alloc);
    for k in 0..clips.len() {
        frames.push(clips[k].len())?;
    }
    Ok(frames)
}

/// The number of frames of each node's clip, by the number of the node: 0 for a group, a splitter
/// and the endpoint. `frames` are those of the clips of the scene's resources, in their order.
pub fn clip_lengths(scene: &Scene, frames: &[u64]) -> [u64; MAX_INPUTS]
    ensures { (clips : List SceneClipData) → AreFramesOf clips frames.now → (n : ℕ) → slice_index result n ≡ node_frames clips scene.now n }
{
    let mut lengths = [0; MAX_INPUTS];
    set_lengths(scene, frames, &mut lengths);
    lengths
}

fn set_lengths(scene: &Scene, frames: &[u64], lengths: &mut [u64])
    requires { length lengths.old ≡ limits.most_nodes + 1 }
    ensures { (clips : List SceneClipData) → AreFramesOf clips frames.now → (n : ℕ) → slice_index lengths.new n ≡ node_frames clips scene.now n }
{
    lengths.fill(0);
    let nodes = scene.nodes.as_slice();
    for n in 0..nodes.len() {
        lengths[n] = kind_length(nodes[n].kind, frames);
    }
}

/// The number of frames that a node of this kind plays.
fn kind_length(kind: NodeKind, frames: &[u64]) -> u64
    ensures { (clips : List SceneClipData) → AreFramesOf clips frames.now → result ≡ kind_frames clips kind }
{
    let NodeKind::Sound { resource, .. } = kind else {
        return 0
    };
    match frames.get(resource as usize) {
        Some(count) => *count,
        None => 0,
    }
}
