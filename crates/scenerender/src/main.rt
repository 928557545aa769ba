//! The program `scenerender`: it hands its words, the files of the system and standard output to the
//! commands, with the threads of the system, and ends with the status that they answer.
#![tactic(auto)]

use snd_io::FreeGate;
use snd_tools::{DiskDepot, TextOut, print_text, program_words, run_render};
use std::io;
use std::process::ExitCode;

const HELP: &str = "\
scenerender renders scenes of sound to WAVE files, with several threads.

  scenerender render SCENE OUT WORKERS
                             reads the script SCENE and the sound files that it names,
                             decodes them with WORKERS threads beside its own, 0 to 16,
                             and writes the WAVE file OUT: the same bytes for every number
  scenerender --help         prints this text
  scenerender --version      prints the version

SCENE and OUT are paths of 1 to 255 bytes, from the directory that you are in.
It ends with one of these statuses:

   0  done
   1  there was no memory
   2  the words are none of the forms above
   3  a file could not be read or written
   4  SCENE or a sound file is not there
   5  SCENE or a sound file is too long, or all sound files together are
   6  SCENE is refused
   7  a sound file is refused
   8  the text could not be printed; OUT is written

One line says more on standard output. After 2, 4, 5, 6 and 7 no file has changed.
README.md and docs/ in the repository say more.
";

const VERSION: &str = "scenerender 0.1.0\n";

fn main(rt: HostRuntime) -> ExitCode {
    let words = match program_words(&rt) {
        Ok(words) => words,
        Err(code) => return code,
    };
    match words.as_slice() {
        [word] if word.as_str() == "--help" => print_text(&rt, HELP),
        [word] if word.as_str() == "--version" => print_text(&rt, VERSION),
        words => {
            let mut depot = DiskDepot::new(&rt);
            let mut text = TextOut::new(io::writer(&rt));
            let status = run_render(&rt, rt.alloc(), words, &mut depot, &mut text, &FreeGate);
            ExitCode::from(status.code())
        }
    }
}
