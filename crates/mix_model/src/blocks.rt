//! A scene while it is written, block by block.

ghost use Rattle.std.specs.Prelude.{◌≡◌, ◌<◌, ◌≤◌, ◌++◌, All, length, map, IfOk};
ghost use Rattle.clip_decode.specs.ClipData.{ClipData};
ghost use Rattle.mix_model.specs.Mix.{clips_of};
ghost use Rattle.mix_model.specs.Rendering.{data_of, frames_before, IsRendered};
ghost use Rattle.clip_decode.specs.Limits.{most_sound_bytes};

use crate::player::Player;
use crate::summary::Summary;
use clip_decode::Clip;
use plain_data::OutOfMemory;
use scene_model::Scene;
use std::alloc::Global;
use wave_write::pack;

/// The most frames of a block.
const BLOCK_FRAMES: u32 = 512;

/// Renders a scene block by block, and holds the samples and the bytes of the current block.
#[derive(Drop)]
pub(crate) struct Blocks {
    /// The player, at the first frame after the block.
    pub(crate) player: Player,
    /// The block's samples, interleaved.
    samples: Vec<i32>,
    /// The same, packed at the scene's width.
    pub(crate) bytes: Vec<u8>,
    /// The summary of all frames so far.
    pub(crate) summary: Summary,
}

impl Blocks {
    /// A scene before its first block.
    pub(crate) fn new(alloc: Global, scene: &Scene, clips: &[Clip]) -> Result<Blocks, OutOfMemory>
        requires { All (λ (c : ClipData). length c.bytes ≤ most_sound_bytes) clips.now }
        ensures rendered { IfOk result (λ blocks. IsRendered scene.now blocks) }
        ensures start { IfOk result (λ blocks. blocks.player.time ≡ 0) }
        ensures clips { IfOk result (λ blocks. blocks.player.clips.items
            ≡ clips_of scene.now (map (λ (c : ClipData). c.bytes) clips.now)) }
    {
        let player = Player::new(alloc, scene, clips)?;
        Ok(Blocks {
            player,
            samples: Vec::new(alloc),
            bytes: Vec::new(alloc),
            summary: Summary::empty(),
        })
    }

    /// Renders the next block of 512 frames, or of those that are left.
    pub(crate) fn next(&mut self, alloc: Global, scene: &Scene) -> Result<(), OutOfMemory>
        requires rendered { IsRendered scene.now self.old }
        requires left { self.old.player.time < scene.now.length }
        ensures rendered { IfOk result (λ _. IsRendered scene.now self.new) }
        ensures next { IfOk result (λ _. (self.old.player.time < self.new.player.time) × (self.new.player.clips.items ≡ self.old.player.clips.items)) }
        ensures bytes { IfOk result (λ _. data_of scene.now (frames_before scene.now self.new)
            ≡ data_of scene.now (frames_before scene.now self.old) ++ self.new.bytes.items) }
    {
        let count = BLOCK_FRAMES.min(scene.length - self.player.time);
        self.samples.clear();
        self.bytes.clear();
        self.player
            .play_all(alloc, scene, count, &mut self.samples)?;
        pack(alloc, self.samples.as_slice(), scene.width, &mut self.bytes)?;
        self.summary = self
            .summary
            .extended(self.samples.as_slice(), self.bytes.as_slice());
        Ok(())
    }
}
