//! What the command line asks for.

ghost use Rattle.std.specs.Prelude.{◌≤◌, All, IsTrue, vec_len};
ghost use Rattle.fx_nodes.specs.Effects.{is_in_range, most_effects};

use crate::blocks::run;
use fx_nodes::{Chain, Effect, MAX_EFFECTS, read_effect};
use plain_data::OutOfMemory;
use std::alloc::Global;

/// So many blocks through a chain of effects.
#[derive(Drop)]
pub struct Order {
    effects: Vec<Effect>,
    blocks: u32,
    ghost count: { vec_len effects ≤ most_effects },
    ghost in_range: { All (λ effect. IsTrue (is_in_range effect)) effects.items },
}

impl Order {
    /// The order that two words give. `None` for any other words.
    pub fn read(alloc: Global, words: &str, blocks: &str) -> Result<Option<Order>, OutOfMemory> {
        let Ok(blocks) = blocks.parse::<u32>() else {
            return Ok(None);
        };
        let mut effects = Vec::new(alloc);
        if words != "none" {
            for word in words.split('+') {
                let Some(effect) = read_effect(word) else {
                    return Ok(None);
                };
                effects.push(effect)?;
            }
        }
        if effects.len() > MAX_EFFECTS {
            return Ok(None);
        }
        Ok(Some(Order { effects, blocks }))
    }

    /// Runs the blocks through the chain, and answers a number made of what it wrote.
    pub fn checksum(&self, alloc: Global) -> Result<u32, OutOfMemory> {
        let mut chain = Chain::open(alloc, &self.effects)?;
        Ok(run(&mut chain, self.blocks))
    }
}
