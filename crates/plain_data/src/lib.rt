//! The small types in which public calls hand texts, lists and want of memory over.
//!
//! A [`Text`] is a `String` and [`Rows`] are a `Vec`, made from it and giving it back without
//! memory. Contracts see a `Text` as the list of its bytes and `Rows` as the list of their items,
//! so that a definition can build one and two of them are equal where their lists are.
//! [`OutOfMemory`] is the error of a call that fails for want of memory alone. [`read_number`] reads a number of
//! the command line.
//!
//! `proofs/Lists.antt` has lemmas on lists and options on which several crates stand.
#![tactic(auto)]

mod numbers;
mod out_of_memory;
mod rows;
mod text;

pub use numbers::read_number;
pub use out_of_memory::OutOfMemory;
pub use rows::Rows;
pub use text::Text;
