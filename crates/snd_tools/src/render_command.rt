ghost use Rattle.std.specs.Prelude.{map, string_bytes, ◌≤◌, IfOk};
ghost use Rattle.snd_tools.specs.Commands.{Scenerender, command, most_workers, render_words};
ghost use Rattle.snd_tools.specs.CommandsRead.{GivesCommandBy, said_render};

use crate::words::is_path;
use plain_data::read_number;

/// The most digits of WORKERS.
const MAX_WORKERS_DIGITS: usize = 2;

/// The greatest WORKERS.
const MAX_WORKERS: u32 = 16;

/// What the words after the name of `scenerender` ask for, `render SCENE OUT WORKERS`: the scene of the script
/// SCENE is rendered to the WAVE file OUT with that many workers.
#[derive(Clone, Copy)]
pub(crate) struct RenderCommand<'a> {
    pub(crate) scene: &'a str,
    pub(crate) out: &'a str,
    /// 0 to 16.
    pub(crate) workers: u32,
}

/// Reads the words after the name of `scenerender`, or gives the place of the first word that doesn't fit.
pub(crate) fn read_render_command(words: &[String]) -> Result<RenderCommand<'_>, u32>
    ensures value { GivesCommandBy said_render result (command Scenerender (map string_bytes words.now)) }
    ensures workers { IfOk result (λ held. held.workers ≤ most_workers) }
{
    match words.split_first() {
        Some((word, rest)) if word.as_str() == "render" => read_render_words(rest),
        _ => Err(0),
    }
}

/// Reads the words after `render`.
fn read_render_words(words: &[String]) -> Result<RenderCommand<'_>, u32>
    ensures value { GivesCommandBy said_render result (render_words (map string_bytes words.now)) }
    ensures workers { IfOk result (λ held. held.workers ≤ most_workers) }
{
    match words {
        [] => Err(1),
        [_scene] => Err(2),
        [_scene, _out] => Err(3),
        [scene, out, workers] => {
            if !is_path(scene.as_str()) {
                return Err(1);
            }
            if !is_path(out.as_str()) {
                return Err(2);
            }
            match read_number(workers.as_str(), MAX_WORKERS_DIGITS, MAX_WORKERS) {
                Some(workers) => Ok(RenderCommand {
                    scene: scene.as_str(),
                    out: out.as_str(),
                    workers,
                }),
                None => Err(3),
            }
        }
        _ => Err(4),
    }
}
