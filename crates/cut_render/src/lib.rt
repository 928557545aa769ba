//! Pieces of a sound file, one after the other, to a WAVE file.
//!
//! A [`Segment`] is a piece by the place of its first frame and the number of its frames, and [`read_segment`] reads it from a
//! word. [`render_cut`] takes the segments of a clip in their order, in one channel where the clip has one, else in two
//! (`frame_reader.rt`), and frames of 0 past its end. They are packed in pieces of at most 512 frames (`pieces.rt`), each of
//! which is appended to the file that is written (`out_file.rt`). So it takes the memory of one page and one piece, whatever
//! the segments are.
//!
//! `specs/Cut.antt` says what is written, over the whole list of frames: `clip_decode` defines the frames, `rate_fit` their
//! channels and `wave_write` the bytes.
#![tactic(auto)]

mod frame_reader;
mod numerals;
mod out_file;
mod pieces;
mod segment;
mod wav_file;
mod words;

pub use frame_reader::FrameReader;
pub use out_file::render_cut;
pub use pieces::Pieces;
pub use segment::{MAX_FRAMES, MAX_PLACE, MAX_SEGMENTS, Segment, total_frames};
pub use wav_file::{WIDTH, channels_of, file_bytes};
pub use words::read_segment;
