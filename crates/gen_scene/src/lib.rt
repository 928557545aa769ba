//! A stated large scene, made from a number: eight sound files of noise and the script of a scene
//! that plays them through four groups, with edits all along. The bytes of the sounds are a
//! definition of the number, those of the script of the number and the prefix of the names, so that
//! everybody who measures an engine by them measures the same work.
//!
//! [`Draws`] are the numbers of the generator. The sounds are PCM of 16 bits, 220500 frames each:
//! sound `i` is mono where `i` is even and stereo where it is odd, at 44100 Hz for the first four
//! and at 48000 Hz for the others. [`noise`] gives their samples, one draw each, [`sound_file`]
//! their WAVE files, and [`script`] the script, whose gains and edits are the draws that follow.
#![tactic(auto)]

mod draws;
mod files;
mod noise_samples;
mod rows;
mod script_text;
mod sounds;

pub use draws::Draws;
pub use files::{script_name, sound_file, sound_name};
pub use noise_samples::noise;
pub use script_text::script;
pub use sounds::{SOUND_FRAMES, SOUNDS, sound_channels, sound_rate};
