ghost use Rattle.std.specs.Prelude.{◌≡◌, ◌≤◌, ◌++◌, ℕ, List, IfOk, true, string_bytes, option_map};
ghost use Rattle.snd_io.specs.Answers.{IsPrefix};
ghost use Rattle.snd_io.specs.Faults.{Rose};
ghost use Rattle.snd_tools.specs.Counts.{CountsText};
ghost use Rattle.snd_tools.specs.Outcome.{status_line};
ghost use Rattle.snd_tools.specs.Printing.{Prints, PrintsOr, has_line, has_outcome_line};

use plain_data::OutOfMemory;
use snd_io::{Put, Sink};
use snd_status::Status;
use std::alloc::Global;
use std::marker::Model;

/// The line of status 1, which takes no memory.
const OUT_OF_MEMORY_LINE: &str = "out of memory\n";

/// Writes the line of what a command came to, its report or its status, and gives the status.
pub(crate) fn print_outcome<T: Sink>(
    alloc: Global,
    text: &mut T,
    came_to: Result<String, Status>,
) -> Status
    requires { has_outcome_line came_to ≡ true }
    ensures prints { (added : List ℕ) × (T.written text.new ≡ option_map (λ t. t ++ added) (T.written text.old)) × Prints came_to added (Rose (T.faults text.old) (T.faults text.new)) result }
    ensures counts { CountsText (T.faults text.old) (T.faults text.new) result }
{
    match came_to {
        Ok(line) => match text.write(alloc, line.as_bytes()) {
            Put::Done => Status::Done,
            Put::Failed => Status::TextFault,
            Put::OutOfMemory => Status::OutOfMemory,
        },
        Err(status) => print_status(alloc, text, status),
    }
}

/// Writes the line of a status, and gives the status, or want of memory.
fn print_status<T: Sink>(alloc: Global, text: &mut T, status: Status) -> Status
    requires { has_line status ≡ true }
    ensures prints { (added : List ℕ) × (T.written text.new ≡ option_map (λ t. t ++ added) (T.written text.old)) × PrintsOr status added (Rose (T.faults text.old) (T.faults text.new)) result }
    ensures counts { CountsText (T.faults text.old) (T.faults text.new) result }
{
    let line = match status_line(alloc, &status) {
        Ok(line) => line,
        Err(_) => return print_out_of_memory(alloc, text),
    };
    match text.write(alloc, line.as_bytes()) {
        Put::Done | Put::Failed => status,
        Put::OutOfMemory => Status::OutOfMemory,
    }
}

/// Writes the line of want of memory, and gives that status.
fn print_out_of_memory<T: Sink>(alloc: Global, text: &mut T) -> Status
    ensures status { result ≡ Status.OutOfMemory }
    ensures prints { (added : List ℕ) × (T.written text.new ≡ option_map (λ t. t ++ added) (T.written text.old)) × IsPrefix added (status_line Status.OutOfMemory) }
    ensures later { T.faults text.old ≤ T.faults text.new }
{
    text.write(alloc, OUT_OF_MEMORY_LINE.as_bytes());
    Status::OutOfMemory
}

/// The line of a status.
fn status_line(alloc: Global, status: &Status) -> Result<String, OutOfMemory>
    ensures { IfOk result (λ text. string_bytes text ≡ status_line status.now) }
{
    Ok(format!(in alloc; "{status}\n")?)
}
