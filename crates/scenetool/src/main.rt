//! The program `scenetool`: it hands its words, the files of the system and standard output to the
//! commands, and ends with the status that they answer.
#![tactic(auto)]

use snd_tools::{DiskDepot, Status, TextOut, print_text, program_words, run_tool};
use std::io;
use std::process::ExitCode;

const HELP: &str = "\
scenetool renders scenes of sound to WAVE files.

  scenetool mix SCENE OUT    reads the script SCENE and the sound files that it names,
                             and writes the WAVE file OUT
  scenetool info FILE        prints the format of the WAVE file FILE, and its frames
  scenetool gen NUMBER PREFIX
                             writes a large scene that follows from NUMBER, 0 to 4294967295:
                             the sounds PREFIX-0.wav to PREFIX-7.wav and the script PREFIX.toml;
                             PREFIX is 1 to 64 letters, digits, `_`, `-`, `.` and `/`
  scenetool fx FILE OUT COUNT EFFECT ..
                             takes the first COUNT frames of the WAVE file FILE, 0 to
                             16777216, in two channels, sends them through 1 to 16 effects,
                             one after the other, and writes the WAVE file OUT;
                             EFFECT is delay:FRAMES:DECAY, pan:PLACE,
                             fade:FROM:TO:FIRST:LAST or level:GAIN, gains in 1/65536
  scenetool --help           prints this text
  scenetool --version        prints the version

SCENE, OUT and FILE are paths of 1 to 255 bytes, from the directory that you are in.
It ends with one of these statuses:

   0  done
   1  there was no memory
   2  the words are none of the forms above
   3  a file could not be read or written
   4  SCENE, FILE or a sound file is not there
   5  SCENE, FILE or a sound file is too long, or all sound files together are
   6  SCENE is refused
   7  a sound file is refused
   8  the text could not be printed; the files are written

One line says more on standard output. After 2, 4, 5, 6 and 7 no file has changed.
README.md and docs/ in the repository say more.
";

const VERSION: &str = "scenetool 0.1.0\n";

fn main(rt: HostRuntime) -> ExitCode {
    let words = match program_words(&rt) {
        Ok(words) => words,
        Err(code) => return code,
    };
    match words.as_slice() {
        [word] if word.as_str() == "--help" => print_text(&rt, HELP),
        [word] if word.as_str() == "--version" => print_text(&rt, VERSION),
        words => ExitCode::from(run(&rt, words).code()),
    }
}

fn run(rt: &HostRuntime, words: &[String]) -> Status {
    let mut depot = DiskDepot::new(rt);
    let mut text = TextOut::new(io::writer(rt));
    run_tool(rt.alloc(), words, &mut depot, &mut text)
}
