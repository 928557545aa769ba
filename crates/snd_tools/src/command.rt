ghost use Rattle.std.specs.Prelude.{◌≡◌, ◌≤◌, IfOk, map, length, string_bytes};
ghost use Rattle.fx_nodes.specs.Effects.{most_effects};
ghost use Rattle.snd_tools.specs.Commands.{Scenetool, mix_words, info_words, gen_words, fx_parts, fx_words, command};
ghost use Rattle.snd_tools.specs.CommandsRead.{CanBeDone, GivesCommand};

use crate::effect_words::read_effects;
use crate::words::{MAX_COUNT_DIGITS, MAX_NUMBER, MAX_NUMBER_DIGITS, is_path, is_prefix};
use arrayvec::ArrayVec;
use fx_nodes::{Effect, MAX_EFFECTS};
use fx_render::MAX_FRAMES;
use plain_data::read_number;

/// What the words after the program's name ask for.
#[derive(Drop)]
pub(crate) enum Command<'a> {
    /// `mix SCENE OUT`: renders the scene of the script SCENE to the WAVE file OUT.
    Mix {
        scene: &'a str,
        out: &'a str,
    },
    /// `info FILE`: prints the format of the WAVE file FILE and the number of its frames.
    Info {
        file: &'a str,
    },
    /// `gen NUMBER PREFIX`: writes the scene of a number, and its sound files.
    Gen {
        number: u32,
        prefix: &'a str,
    },
    /// `fx FILE OUT COUNT EFFECT ..`: writes what the effects make of the first COUNT frames of the WAVE file FILE to the WAVE
    /// file OUT.
    Fx {
        file: &'a str,
        out: &'a str,
        count: u32,
        effects: ArrayVec<Effect, MAX_EFFECTS>,
    },
}

/// Reads the words after the name of `scenetool`, or gives the place of the first word that doesn't fit.
pub(crate) fn read_command(words: &[String]) -> Result<Command<'_>, u32>
    ensures value { GivesCommand result (command Scenetool (map string_bytes words.now)) }
    ensures limits { IfOk result CanBeDone }
{
    match words.split_first() {
        Some((word, rest)) if word.as_str() == "mix" => read_mix_words(rest),
        Some((word, rest)) if word.as_str() == "info" => read_info_words(rest),
        Some((word, rest)) if word.as_str() == "gen" => read_gen_words(rest),
        Some((word, rest)) if word.as_str() == "fx" => read_fx_words(rest),
        _ => Err(0),
    }
}

/// Reads the words after `mix`.
fn read_mix_words(words: &[String]) -> Result<Command<'_>, u32>
    ensures value { GivesCommand result (mix_words (map string_bytes words.now)) }
    ensures limits { IfOk result CanBeDone }
{
    match words {
        [] => Err(1),
        [_scene] => Err(2),
        [scene, out] => {
            if !is_path(scene.as_str()) {
                Err(1)
            } else if !is_path(out.as_str()) {
                Err(2)
            } else {
                Ok(Command::Mix {
                    scene: scene.as_str(),
                    out: out.as_str(),
                })
            }
        }
        _ => Err(3),
    }
}

/// Reads the words after `info`.
fn read_info_words(words: &[String]) -> Result<Command<'_>, u32>
    ensures value { GivesCommand result (info_words (map string_bytes words.now)) }
    ensures limits { IfOk result CanBeDone }
{
    match words {
        [] => Err(1),
        [file] => {
            if is_path(file.as_str()) {
                Ok(Command::Info {
                    file: file.as_str(),
                })
            } else {
                Err(1)
            }
        }
        _ => Err(2),
    }
}

/// Reads the words after `gen`.
fn read_gen_words(words: &[String]) -> Result<Command<'_>, u32>
    ensures value { GivesCommand result (gen_words (map string_bytes words.now)) }
    ensures limits { IfOk result CanBeDone }
{
    match words {
        [] => Err(1),
        [_number] => Err(2),
        [number, prefix] => match read_number(number.as_str(), MAX_NUMBER_DIGITS, MAX_NUMBER) {
            Some(number) => {
                if is_prefix(prefix.as_str()) {
                    Ok(Command::Gen {
                        number,
                        prefix: prefix.as_str(),
                    })
                } else {
                    Err(2)
                }
            }
            None => Err(1),
        },
        _ => Err(3),
    }
}

/// Reads the words after `fx`.
fn read_fx_words(words: &[String]) -> Result<Command<'_>, u32>
    ensures value { GivesCommand result (fx_words (map string_bytes words.now)) }
    ensures limits { IfOk result CanBeDone }
{
    match words {
        [] => Err(1),
        [_file] => Err(2),
        [_file, _out] => Err(3),
        [_file, _out, _count] => Err(4),
        [file, out, count, effects @ ..] => {
            if effects.len() <= MAX_EFFECTS {
                read_fx_parts(file, out, count, effects)
            } else {
                Err(4 + MAX_EFFECTS as u32)
            }
        }
    }
}

/// Reads FILE, OUT, COUNT and at most 16 effects.
fn read_fx_parts<'a>(
    file: &'a String,
    out: &'a String,
    count: &'a String,
    effects: &'a [String],
) -> Result<Command<'a>, u32>
    requires { length effects.now ≤ most_effects }
    ensures value { GivesCommand result (fx_parts (string_bytes file.now) (string_bytes out.now) (string_bytes count.now) (map string_bytes effects.now)) }
    ensures limits { IfOk result CanBeDone }
{
    if !is_path(file.as_str()) {
        return Err(1);
    }
    if !is_path(out.as_str()) {
        return Err(2);
    }
    match read_number(count.as_str(), MAX_COUNT_DIGITS, MAX_FRAMES) {
        Some(count) => Ok(Command::Fx {
            file: file.as_str(),
            out: out.as_str(),
            count,
            effects: read_effects(effects)?,
        }),
        None => Err(3),
    }
}
