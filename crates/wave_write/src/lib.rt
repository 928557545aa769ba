//! What a PCM WAVE file is written from: its header, and samples packed at a width.
#![tactic(auto)]

mod packing;
mod riff_header;

pub use packing::pack;
pub use riff_header::header;
