//! The effects of a command, by their words.

ghost use Rattle.std.specs.Prelude.{◌≡◌, ◌≤◌, All, IfOk, IsTrue, length, map, string_bytes};
ghost use Rattle.fx_nodes.specs.Effects.{is_in_range, most_effects};
ghost use Rattle.snd_tools.specs.Commands.{effects_from};
ghost use Rattle.snd_tools.specs.CommandsRead.{GivesEffects};

use arrayvec::ArrayVec;
use fx_nodes::{Effect, MAX_EFFECTS, read_effect};

/// The place of the first word that writes an effect.
const FIRST_EFFECT: u32 = 4;

/// Reads the effects that at most 16 words write, or gives the place of the first word that writes none.
pub(crate) fn read_effects(words: &[String]) -> Result<ArrayVec<Effect, MAX_EFFECTS>, u32>
    requires { length words.now ≤ most_effects }
    ensures value { GivesEffects result (effects_from 4 (map string_bytes words.now)) }
    ensures in_range { IfOk result (λ effects. All (λ effect. IsTrue (is_in_range effect)) effects.items) }
    ensures count { IfOk result (λ effects. length effects.items ≡ length words.now) }
{
    let mut effects = ArrayVec::new();
    for word in words {
        match read_effect(word.as_str()) {
            Some(effect) => effects.push(effect),
            None => return Err(FIRST_EFFECT + effects.len() as u32),
        }
    }
    Ok(effects)
}
