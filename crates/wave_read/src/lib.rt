//! Reads what a WAVE file says of its sound.
//!
//! `survey` goes over the chunks of a file by their sizes, and answers the format of the sound,
//! where its data stands and how many frames there are, or the first fault. It takes RIFF and RF64
//! files of linear PCM, A-law, mu-law and IMA ADPCM, reads headers alone, and takes no memory.
//!
//! The rules are those of Microsoft and IBM, "Multimedia Programming Interface and Data
//! Specifications 1.0" (RIFF WAVE), Microsoft, "Multiple Channel Audio Data and WAVE Files" (the
//! extensible format), EBU Tech 3306 (RF64) and Microsoft, "New Multimedia Data Types and Data
//! Techniques" (IMA ADPCM in WAVE files, the `fact` chunk).
//! Where this reader is more lenient than they are, or stricter, docs/FORMATS.md says so point by
//! point.
#![tactic(auto)]

mod chunks;
mod file;
mod format;
mod found;
mod frames;
mod kind;
mod laws;
mod numbers;
mod step_indices;
mod walk;
mod wave;
mod wave_fault;

pub use file::survey;
pub use kind::Kind;
pub use laws::{a_wave_lies_in_its_file, one_chunk_list, wave_from_its_chunks};
pub use wave::Wave;
pub use wave_fault::WaveFault;
