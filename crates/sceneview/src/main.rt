//! The program `sceneview`: it hands its words, the files of the system and standard output to the
//! commands, and ends with the status that they answer.
#![tactic(auto)]

use snd_tools::{DiskDepot, TextOut, print_text, program_words, run_view};
use std::io;
use std::process::ExitCode;

const HELP: &str = "\
sceneview draws the wiring of a scene, in the DOT language of Graphviz.

  sceneview SCENE [FRAME]    reads the script SCENE and prints its nodes and buses as they
                             are at FRAME, 0 to 16777216, after the edits of that frame;
                             without FRAME, at frame 0. What isn't heard there is grey
  sceneview --help           prints this text
  sceneview --version        prints the version

sceneview scene.toml 48000 | dot -Tsvg > wiring.svg   makes a picture of it.

SCENE is a path of 1 to 255 bytes, from the directory that you are in. The sound files
are not looked at, and no file changes. It ends with one of these statuses:

   0  done
   1  there was no memory
   2  the words are none of the forms above
   3  SCENE could not be read
   4  SCENE is not there
   5  SCENE is too long
   6  SCENE is refused
   8  the text could not be printed

After another status than 0 and 8, one line on standard output says more.
README.md and docs/ in the repository say more.
";

const VERSION: &str = "sceneview 0.1.0\n";

fn main(rt: HostRuntime) -> ExitCode {
    let words = match program_words(&rt) {
        Ok(words) => words,
        Err(code) => return code,
    };
    match words.as_slice() {
        [word] if word.as_str() == "--help" => print_text(&rt, HELP),
        [word] if word.as_str() == "--version" => print_text(&rt, VERSION),
        words => {
            let mut depot = DiskDepot::new(&rt);
            let mut text = TextOut::new(io::writer(&rt));
            let status = run_view(rt.alloc(), words, &mut depot, &mut text);
            ExitCode::from(status.code())
        }
    }
}
