//! Chains of effects that are written as words, and frames that go through them.

ghost use Rattle.std.specs.Prelude.{All, IfOk, IsTrue};
ghost use Rattle.mix_fixed.specs.Sound.{Is24};
ghost use Rattle.fx_nodes.specs.Effects.{is_in_range};

use fx_nodes::{Chain, Effect, MAX_EFFECTS, read_effect};
use mix_fixed::sat24;
use plain_data::OutOfMemory;
use std::alloc::{AllocError, Global};
use std::process::Abort;

/// The effects that words write.
fn effects(rt: &impl Abort, alloc: Global, words: &[&str]) -> Result<Vec<Effect>, AllocError>
    ensures { IfOk result (λ effects. All (λ effect. IsTrue (is_in_range effect)) effects.items) }
{
    let mut effects = Vec::new(alloc);
    for word in words {
        let effect = read_effect(word).expect(rt, "an effect");
        effects.push(effect)?;
    }
    Ok(effects)
}

/// A chain of the effects that words write.
pub fn chain_of(rt: &impl Abort, alloc: Global, words: &[&str]) -> Result<Chain, OutOfMemory> {
    let effects = effects(rt, alloc, words)?;
    assert!(rt; effects.len() <= MAX_EFFECTS);
    Chain::open(alloc, &effects)
}

/// Samples, held within 24 bits.
pub fn samples(alloc: Global, given: &[i32]) -> Result<Vec<i32>, AllocError>
    ensures { IfOk result (λ samples. All Is24 samples.items) }
{
    let mut samples = Vec::new(alloc);
    for sample in given {
        samples.push(sat24(i64::from(*sample)))?;
    }
    Ok(samples)
}

/// The next frames of a chain, in place.
pub fn next(rt: &impl Abort, chain: &mut Chain, frames: &mut [i32])
    requires { All Is24 frames.old }
{
    assert!(rt; frames.len() % 2 == 0);
    assert!(rt; chain.frames_taken() < 1 << 31);
    assert!(rt; frames.len() / 2 < 1 << 31);
    chain.block(frames);
}
