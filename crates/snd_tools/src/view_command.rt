ghost use Rattle.std.specs.Prelude.{map, string_bytes, ◌≤◌, IfOk};
ghost use Rattle.scene_model.specs.Limits as limits;
ghost use Rattle.snd_tools.specs.Commands.{Sceneview, command};
ghost use Rattle.snd_tools.specs.CommandsRead.{GivesCommandBy, said_view};

use crate::words::is_path;
use plain_data::read_number;

/// The most digits of FRAME.
const MAX_FRAME_DIGITS: usize = 8;

/// The greatest FRAME.
const MAX_FRAME: u32 = 16_777_216;

/// What the words after the name of `sceneview` ask for, `SCENE` or `SCENE FRAME`: the wiring of the scene of the script SCENE
/// at that frame, or at frame 0.
#[derive(Clone, Copy)]
pub(crate) struct ViewCommand<'a> {
    pub(crate) scene: &'a str,
    /// 0 to 16777216.
    pub(crate) frame: u32,
}

/// Reads the words after the name of `sceneview`, or gives the place of the first word that doesn't fit.
pub(crate) fn read_view_command(words: &[String]) -> Result<ViewCommand<'_>, u32>
    ensures value { GivesCommandBy said_view result (command Sceneview (map string_bytes words.now)) }
    ensures frame { IfOk result (λ held. held.frame ≤ limits.most_frames) }
{
    match words {
        [] => Err(0),
        [scene] => {
            if !is_path(scene.as_str()) {
                return Err(0);
            }
            Ok(ViewCommand {
                scene: scene.as_str(),
                frame: 0,
            })
        }
        [scene, frame] => {
            if !is_path(scene.as_str()) {
                return Err(0);
            }
            match read_number(frame.as_str(), MAX_FRAME_DIGITS, MAX_FRAME) {
                Some(frame) => Ok(ViewCommand {
                    scene: scene.as_str(),
                    frame,
                }),
                None => Err(1),
            }
        }
        _ => Err(2),
    }
}
