//! Effects as words.

ghost use Rattle.std.specs.Prelude.{◌≡◌, IfSome, IsTrue, option_map};
ghost use Rattle.fx_nodes.specs.Effects.{is_in_range};
ghost use Rattle.fx_nodes.specs.Words as spec;

use crate::effect::Effect;
use plain_data::read_number;

/// The most digits of a number.
const MAX_DIGITS: usize = 10;

/// The effect that a word of one of these forms writes, if its numbers are within the limits of [`Effect`]:
/// `delay:FRAMES:DECAY`, `pan:PLACE`, `fade:FROM:TO:FIRST:LAST`, `level:GAIN`. Each number has 1 to 10 digits, leading
/// zeros among them. It takes no memory.
#[tactic(auto, unfolding(crate::specs::Words::effect_of_word))]
pub fn read_effect(word: &str) -> Option<Effect>
    ensures read { result ≡ spec.effect_of_word word.now }
    ensures in_range { IfSome result (λ effect. IsTrue (is_in_range effect)) }
{
    let (name, numbers) = split_at_colon(word)?;
    let effect = named(name, numbers)?;
    in_range(effect)
}

fn in_range(effect: Effect) -> Option<Effect>
    ensures checked { result ≡ spec.in_range effect }
    ensures in_range { IfSome result (λ effect. IsTrue (is_in_range effect)) }
{
    if effect.is_in_range() {
        Some(effect)
    } else {
        None
    }
}

#[tactic(auto, unfolding(crate::specs::Words::named))]
fn named(name: &str, numbers: &str) -> Option<Effect>
    ensures { result ≡ spec.named name.now numbers.now }
{
    match name {
        "delay" => read_delay(numbers),
        "pan" => read_pan(numbers),
        "fade" => read_fade(numbers),
        "level" => read_level(numbers),
        _ => None,
    }
}

#[tactic(auto, unfolding(crate::specs::Words::delay_of))]
fn read_delay(numbers: &str) -> Option<Effect>
    ensures { result ≡ spec.delay_of numbers.now }
{
    let (frames, decay) = split_at_colon(numbers)?;
    Some(Effect::Delay {
        frames: number(frames)?,
        decay: number(decay)?,
    })
}

#[tactic(auto, unfolding(crate::specs::Words::pan_of))]
fn read_pan(numbers: &str) -> Option<Effect>
    ensures { result ≡ spec.pan_of numbers.now }
{
    Some(Effect::Pan {
        place: number(numbers)?,
    })
}

#[tactic(auto, unfolding(crate::specs::Words::fade_of))]
fn read_fade(numbers: &str) -> Option<Effect>
    ensures { result ≡ spec.fade_of numbers.now }
{
    let (from, rest) = split_at_colon(numbers)?;
    let (to, gains) = split_at_colon(rest)?;
    let (first, last) = split_at_colon(gains)?;
    Some(Effect::Fade {
        from: number(from)?,
        to: number(to)?,
        first: number(first)?,
        last: number(last)?,
    })
}

#[tactic(auto, unfolding(crate::specs::Words::level_of))]
fn read_level(numbers: &str) -> Option<Effect>
    ensures { result ≡ spec.level_of numbers.now }
{
    Some(Effect::Level {
        gain: number(numbers)?,
    })
}

/// What stands before the first colon of a word, and what stands behind it.
#[tactic(auto, unfolding(crate::specs::Words::split_at_colon))]
fn split_at_colon(word: &str) -> Option<(&str, &str)>
    ensures { option_map (λ parts. (parts.0.now, parts.1.now)) result ≡ spec.split_at_colon word.now }
{
    word.split_once(':')
}

/// The number of a word of 1 to 10 digits, leading zeros among them, if it has 32 bits.
#[tactic(auto, unfolding(crate::specs::Words::number))]
fn number(word: &str) -> Option<u32>
    ensures { result ≡ spec.number word.now }
{
    read_number(word, MAX_DIGITS, u32::MAX)
}
