ghost use Rattle.std.specs.Prelude.{◌≡◌, IfOk, option_map, string_bytes};
ghost use Rattle.hints.specs.StatusHints as spec;

use crate::program::Program;
use plain_data::OutOfMemory;
use std::alloc::Global;
use std::fmt;

/// What is said of words that are no form of a program: the word that doesn't fit, where it is there, and the forms.
///
/// # Errors
///
/// Want of memory.
#[tactic(auto, unfolding(crate::specs::StatusHints::usage_text))]
pub fn usage_hint(
    alloc: Global,
    program: Program,
    word: Option<&str>,
) -> Result<String, OutOfMemory>
    ensures { IfOk result (λ said. string_bytes said ≡ spec.usage_text program (option_map (λ w. w.now) word.entry)) }
{
    let (name, forms) = (program.name(), program.forms());
    let word = UnfitWord(word);
    Ok(format!(in alloc; "{name}: {word}\nits forms: {forms}\n{name} --help says more\n")?)
}

/// The word that doesn't fit, where it is there.
#[derive(Clone, Copy)]
struct UnfitWord<'a>(Option<&'a str>);

impl fmt::Display for UnfitWord<'_> {
    ghost use Rattle.std.specs.Prelude.{Some};
    ghost use Rattle.std.specs.Option.{option_map};
    ghost use Rattle.hints.specs.StatusHints.{word_text};

    ghost output = { λ h. Some (word_text (option_map (λ w. w.now) h.0)) };

    fn fmt<W: fmt::Write>(&self, f: &mut fmt::Formatter<W>) -> fmt::Result {
        match self.0 {
            Some(word) => write!(f, "the word \"{word}\" doesn't fit"),
            None => f.write_str("a word is missing"),
        }
    }
}

/// What is said of want of memory.
///
/// # Errors
///
/// Want of memory for that, too.
#[tactic(auto, unfolding(crate::specs::StatusHints::memory_text))]
pub fn memory_hint(alloc: Global, program: Program) -> Result<String, OutOfMemory>
    ensures { IfOk result (λ said. string_bytes said ≡ spec.memory_text program) }
{
    let name = program.name();
    Ok(format!(in alloc; "{name}: there wasn't enough memory\n")?)
}

/// What is said of a store of files that failed.
///
/// # Errors
///
/// Want of memory.
#[tactic(auto, unfolding(crate::specs::StatusHints::store_text))]
pub fn store_hint(alloc: Global, program: Program) -> Result<String, OutOfMemory>
    ensures { IfOk result (λ said. string_bytes said ≡ spec.store_text program) }
{
    let name = program.name();
    Ok(format!(in alloc;
        "{name}: a file couldn't be read or written: the disk may be full, a path that of a directory, or the file not allowed\n"
    )?)
}

/// What is said of a file that isn't there.
///
/// # Errors
///
/// Want of memory.
#[tactic(auto, unfolding(crate::specs::StatusHints::absent_text))]
pub fn absent_hint(alloc: Global, name: &str) -> Result<String, OutOfMemory>
    ensures { IfOk result (λ said. string_bytes said ≡ spec.absent_text name.now) }
{
    Ok(format!(in alloc;
        "{name}: there is no such file; paths are from the directory that you are in\n"
    )?)
}

/// What is said of a file that is too long, or with which all sound files are.
///
/// # Errors
///
/// Want of memory.
#[tactic(auto, unfolding(crate::specs::StatusHints::long_text))]
pub fn long_hint(alloc: Global, name: &str, limit: u64) -> Result<String, OutOfMemory>
    ensures { IfOk result (λ said. string_bytes said ≡ spec.long_text name.now limit) }
{
    let mebibytes = limit / 1_048_576;
    Ok(format!(in alloc;
        "{name}: with this file there are more than {limit} bytes ({mebibytes} MiB), the most that is read\n"
    )?)
}

/// What is said of a line that couldn't be printed.
///
/// # Errors
///
/// Want of memory.
#[tactic(auto, unfolding(crate::specs::StatusHints::unprinted_text))]
pub fn unprinted_hint(alloc: Global, program: Program) -> Result<String, OutOfMemory>
    ensures { IfOk result (λ said. string_bytes said ≡ spec.unprinted_text program) }
{
    let name = program.name();
    Ok(format!(in alloc; "{name}: standard output couldn't be written; all files are\n")?)
}
