//! The two companding laws of ITU-T G.711, from a code of eight bits to a linear sample.
//!
//! A WAVE file keeps them under the tags 6 (A-law) and 7 (mu-law), one byte a sample. [`alaw`] and
//! [`ulaw`] give each code's value on the usual scale of 16 bits: A-law's thirteen bits times 8,
//! mu-law's fourteen bits times 4. Both are total and read a table of 256 entries; their contracts
//! are the standard's formulas.
#![tactic(auto)]

mod a_law;
mod mu_law;

pub use a_law::alaw;
pub use mu_law::ulaw;
