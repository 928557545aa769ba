//! What went wrong, said to a person.
//!
//! The line that a program prints on standard output is for programs. A hint is the text beside it on standard error: which
//! file, where in it, what was found, and what would be right. It is made of values alone, after the status is known, and takes
//! no part in it.
//!
//! The texts are definitions of `specs/`; what the TOML parser says of a text that isn't TOML has no definition.
#![tactic(auto)]

mod files;
mod program;
mod scripts;
mod statuses;

pub use files::file_hint;
pub use program::Program;
pub use scripts::script_hint;
pub use statuses::{absent_hint, long_hint, memory_hint, store_hint, unprinted_hint, usage_hint};
