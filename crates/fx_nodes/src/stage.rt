//! The stages of a chain.

ghost use Rattle.std.specs.Prelude.{◌≡◌, ◌+◌, ◌*◌, ◌/◌, ◌%◌, ◌^◌, ◌<◌, [], ◌++◌, ℤ, All, IfOk, IsTrue, List, length};
ghost use Rattle.mix_fixed.specs.Sound.{Is24};
ghost use Rattle.fx_nodes.specs.Effects.{chain_value, effect_value, is_in_range};
ghost use Rattle.fx_nodes.specs.Stages.{HasTaken, HaveTaken, effect_of, effects_of};

use crate::amplifier::Amplifier;
use crate::delay_line::DelayLine;
use crate::effect::Effect;
use crate::fader::Fader;
use crate::panner::Panner;
use plain_data::OutOfMemory;
use std::alloc::Global;

/// What gives an effect, block by block.
#[derive(Drop)]
pub(crate) enum Stage {
    Delaying(DelayLine),
    Panning(Panner),
    Fading(Fader),
    Amplifying(Amplifier),
}

impl Stage {
    /// A stage that has taken no frames, of an effect whose numbers are in range.
    pub(crate) fn new(alloc: Global, effect: Effect) -> Result<Stage, OutOfMemory>
        requires { IsTrue (is_in_range effect) }
        ensures effect { IfOk result (λ stage. effect_of stage ≡ effect) }
        ensures empty { IfOk result (λ stage. HasTaken stage []) }
    {
        match effect {
            Effect::Delay { frames, decay } => match DelayLine::new(alloc, frames, decay) {
                Ok(line) => Ok(Stage::Delaying(line)),
                Err(error) => Err(error),
            },
            Effect::Pan { place } => Ok(Stage::Panning(Panner { place })),
            Effect::Fade {
                from,
                to,
                first,
                last,
            } => Ok(Stage::Fading(Fader {
                from,
                to,
                first,
                last,
            })),
            Effect::Level { gain } => Ok(Stage::Amplifying(Amplifier { gain })),
        }
    }

    /// The next frames, interleaved, in place. The first of them has the number `start`.
    pub(crate) fn block(&mut self, start: u32, frames: &mut [i32])
        requires even { length frames.old % 2 ≡ 0 }
        requires samples { All Is24 frames.old }
        requires clock { start + length frames.old / 2 < 2 ^ 32 }
        ensures range { All Is24 frames.new }
        ensures effect { effect_of self.new ≡ effect_of self.old }
        ensures value { (taken : List ℤ) → length taken ≡ 2 * start → HasTaken self.old taken
            → (effect_value (effect_of self.old) (taken ++ frames.old) ≡ effect_value (effect_of self.old) taken ++ frames.new)
            × HasTaken self.new (taken ++ frames.old) }
    {
        match self {
            Stage::Delaying(line) => line.block(frames),
            Stage::Panning(panner) => panner.block(frames),
            Stage::Fading(fader) => fader.block(start, frames),
            Stage::Amplifying(amplifier) => amplifier.block(frames),
        }
    }
}

/// The next frames of a chain of stages, interleaved, in place. The first of them has the number `start`.
pub(crate) fn run_stages(stages: &mut [Stage], start: u32, frames: &mut [i32])
    requires even { length frames.old % 2 ≡ 0 }
    requires samples { All Is24 frames.old }
    requires clock { start + length frames.old / 2 < 2 ^ 32 }
    ensures range { All Is24 frames.new }
    ensures count { length stages.new ≡ length stages.old }
    ensures effects { effects_of stages.new ≡ effects_of stages.old }
    ensures value { (taken : List ℤ) → length taken ≡ 2 * start → HaveTaken stages.old taken
        → (chain_value (effects_of stages.old) (taken ++ frames.old) ≡ chain_value (effects_of stages.old) taken ++ frames.new)
        × HaveTaken stages.new (taken ++ frames.old) }
{
    if let Some((first, rest)) = stages.split_first_mut() {
        first.block(start, frames);
        run_stages(rest, start, frames);
    }
}
