//! Effects on a sound file, block by block, to a WAVE file.
//!
//! [`render_effects`] takes the first frames of a clip in two channels (`stereo_reader.rt`), page after page, and frames of
//! 0 past its end. A chain of effects replaces them in blocks of 512 frames (`blocks.rt`), and each block is appended to the
//! file that is written (`out_file.rt`). So it takes the memory of one page, one block and the delays.
//!
//! `specs/Effected.antt` says what is written, over the whole list of frames: `fx_nodes` defines what effects make of it,
//! `clip_decode` the frames, `rate_fit` the two channels and `wave_write` the bytes.
#![tactic(auto)]

mod blocks;
mod out_file;
mod stereo_reader;
mod wav_file;

pub use out_file::render_effects;
pub use wav_file::{MAX_FRAMES, STEREO, WIDTH, file_bytes};
