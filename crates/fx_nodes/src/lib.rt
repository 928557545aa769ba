//! Effects on stereo frames of 24 bits: delay, pan, fade and level, one after the other, block by block.
//!
//! An [`Effect`] is one of four kinds with its numbers, and [`read_effect`] reads it from a word such as
//! `delay:2:32768`. A [`Chain`] is opened with a list of up to 16 effects and takes the memory of all delays then;
//! [`Chain::block`] replaces the next frames, interleaved samples of two channels, by what the effects make of them, and
//! takes none. Frames are counted from the opening on. **What a chain has given since its opening is what its effects
//! make of all frames that it was given, however they were cut into blocks.**
//!
//! `specs/Effects.antt` says what an effect makes of frames, channel by channel, by the number of the frame: a delay by
//! what came so many frames before, a fade by a gain for each frame. The code keeps a ring for each delay and the number
//! of the next frame, and steps along a fade without a division. Both channels go through one ring: a delay of n stereo
//! frames is one of 2 n interleaved samples.
//!
//! All of this is the project's own; gains, rounding and saturation are those of `mix_fixed`.
#![tactic(auto)]

mod amplifier;
mod chain;
mod delay_line;
mod effect;
mod fader;
mod gains;
mod laws;
mod panner;
mod slope;
mod stage;
mod words;

pub use chain::{Chain, MAX_EFFECTS};
pub use effect::{Effect, MAX_DELAY, MAX_FADE_END};
pub use laws::{
    a_chain_keeps_the_number_of_frames, a_delay_feeds_back, a_fade_goes_by_equal_parts,
    both_channels_go_through_one_ring, effects_look_at_no_later_frame, frames_may_be_cut_anywhere,
    words_write_effects,
};
pub use words::read_effect;
