//! Effects one after the other.

ghost use Rattle.std.specs.Prelude.{◌≡◌, ◌+◌, ◌/◌, ◌%◌, ◌^◌, ◌<◌, ◌≤◌, [], ◌++◌, ℤ, All, IfOk, IsTrue, List, drop, length};
ghost use Rattle.mix_fixed.specs.Sound.{Is24};
ghost use Rattle.fx_nodes.specs.Effects.{chain_value, is_in_range, most_effects};
ghost use Rattle.fx_nodes.specs.Stages.{StandsFor, effects_in, frames_taken};

use crate::effect::Effect;
use crate::stage::{Stage, run_stages};
use plain_data::OutOfMemory;
use std::alloc::Global;

/// The most effects of a chain.
pub const MAX_EFFECTS: usize = 16;

/// Effects one after the other, on stereo frames of 24 bits that come in blocks. What it gives doesn't depend on how the
/// frames are cut into blocks.
#[derive(Drop)]
pub struct Chain {
    pub(crate) stages: Vec<Stage>,
    pub(crate) taken: u32,
}

impl Chain {
    /// A chain of these effects, at most 16, the first of them first, that has taken no frames. All numbers are in
    /// range ([`Effect::is_in_range`]). It takes the memory of all delays: 8 bytes for each frame of a delay.
    pub fn open(alloc: Global, effects: &[Effect]) -> Result<Chain, OutOfMemory>
        requires count { length effects.now ≤ most_effects }
        requires numbers { All (λ effect. IsTrue (is_in_range effect)) effects.now }
        ensures effects { IfOk result (λ chain. effects_in chain ≡ effects.now) }
        ensures clock { IfOk result (λ chain. frames_taken chain ≡ 0) }
        ensures empty { IfOk result (λ chain. StandsFor chain []) }
    {
        let mut stages = Vec::with_capacity(alloc, effects.len())?;
        for effect in effects {
            let stage = Stage::new(alloc, *effect)?;
            stages.push(stage)?;
        }
        Ok(Chain { stages, taken: 0 })
    }

    /// The frames that the chain has taken since its opening.
    pub fn frames_taken(&self) -> u32
        ensures { result ≡ frames_taken self.now }
    {
        self.taken
    }

    /// Replaces the next frames, interleaved samples of 24 bits for two channels, by what the effects make of them after
    /// all frames before. There are fewer than 2^32 frames in all, with these. It takes no memory.
    pub fn block(&mut self, frames: &mut [i32])
        requires even { length frames.old % 2 ≡ 0 }
        requires samples { All Is24 frames.old }
        requires clock { frames_taken self.old + length frames.old / 2 < 2 ^ 32 }
        ensures samples { All Is24 frames.new }
        ensures effects { effects_in self.new ≡ effects_in self.old }
        ensures clock { frames_taken self.new ≡ frames_taken self.old + length frames.old / 2 }
        ensures value { (taken : List ℤ) → StandsFor self.old taken → frames.new ≡ drop (length taken) (chain_value (effects_in self.old) (taken ++ frames.old)) }
        ensures joined { (taken : List ℤ) → StandsFor self.old taken
            → chain_value (effects_in self.old) (taken ++ frames.old) ≡ chain_value (effects_in self.old) taken ++ frames.new }
        ensures stands { (taken : List ℤ) → StandsFor self.old taken → StandsFor self.new (taken ++ frames.old) }
    {
        run_stages(self.stages.as_mut_slice(), self.taken, frames);
        self.taken += (frames.len() / 2) as u32;
    }
}
