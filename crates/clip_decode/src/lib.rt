//! Clips: the bytes of a WAVE file with what they say of their sound, and their samples in 24 bits.
//!
//! A [`Clip`] is made of a file once and then shared; its type keeps that the file says its
//! `Wave`, so that nobody reads the headers again. The sound is decoded in [`pages`] of 8192 frames:
//! [`fill`] writes the one at which a [`Cursor`] stands into a [`Page`] and moves the cursor on. It
//! takes no memory and decodes each sample of a page once, also where a page begins inside a block
//! of IMA ADPCM. [`Cursor::at`] is a cursor at any page.
//!
//! The definitions go by the kind of the sound: `specs/Pcm.antt`, `specs/G711.antt` and
//! `specs/Ima.antt` say what the sample of a channel in a frame is, by their numbers, and
//! `specs/Samples.antt` joins them. `specs/Frames.antt` has the list of a file's frames, none where
//! the file is refused, and `specs/Pages.antt` its pages. The laws tie the two views together: the
//! list has each sample by its numbers ([`frames_have_samples`]), and so has each page
//! ([`pages_have_samples`]); the pages joined are the list ([`pages_are_the_frames`]).
#![tactic(auto)]

mod clip;
mod clip_error;
mod companded;
mod cursor;
mod decoding;
mod ima;
mod laws;
mod page;
mod pcm;
mod widened;

pub use clip::{Clip, MAX_SOUND_BYTES};
pub use clip_error::ClipError;
pub use cursor::Cursor;
pub use decoding::fill;
pub use laws::{
    frames_are_few, frames_have_samples, ima_has_the_frames_of_its_blocks, no_frames_where_refused,
    pages_are_the_frames, pages_have_samples,
};
pub use page::{FRAMES_PER_PAGE, Page, pages};
