//! What the programs do by themselves: they collect their words, and print their help and version.

use snd_status::Status;
use std::process::ExitCode;
use std::{env, io};

/// The line of want of memory, where there is none for the words.
const OUT_OF_MEMORY: &str = "out of memory\n";

/// The words after the program's name.
///
/// # Errors
///
/// The code with which the program ends: 2 where a word isn't UTF-8, so that the words fit no form, and 1
/// where there is no memory for them; then its line is printed, if it can be.
pub fn program_words(rt: &HostRuntime) -> Result<Vec<String>, ExitCode> {
    match env::args(rt) {
        Ok(args) => match args.skip(1).collect(rt.alloc()) {
            Ok(words) => Ok(words),
            Err(_) => Err(out_of_memory(rt)),
        },
        Err(error) if error.kind() == io::ErrorKind::OutOfMemory => Err(out_of_memory(rt)),
        Err(_) => Err(ExitCode::from(Status::Usage { word: 0 }.code())),
    }
}

/// Prints a text, and gives the code with which the program ends: 0, or 8 where it can't be printed.
pub fn print_text(rt: &impl Print, text: &str) -> ExitCode {
    match rt.print(text) {
        Ok(()) => ExitCode::SUCCESS,
        Err(_) => ExitCode::from(Status::TextFault.code()),
    }
}

fn out_of_memory(rt: &impl Print) -> ExitCode {
    // Where the line can't be printed either, the code says it alone.
    rt.print(OUT_OF_MEMORY).ok();
    ExitCode::from(Status::OutOfMemory.code())
}
