//! Clips at a scene's rate and in its channels.
//!
//! A [`SceneClip`] is a clip that is decoded whole, once. Its samples are read by the numbers of
//! their frame and their channel, in any order: each takes at most two frames of the file, brings
//! them to the scene's channels, and blends them where it lies between the two. [`SceneClip::run`]
//! reads frames in order, all channels of each, by a walker that divides only where it begins. Where the file has
//! the scene's rate and channels, a run is a copy of what stands in the pages (`copied.rt`).
//!
//! It is a [`PagedClip`] with the pages of the file. That one reads them out of pages that somebody
//! else keeps, of which the first are there: [`PagedClip::pages_to`] says how many are needed. The
//! bytes of the file are not kept. A [`Converter`] keeps no frame: it says between which two frames of
//! the file one of the scene lies, and makes its samples of these two.
//!
//! `specs/ClipFrames.antt` says which these are: the list of the file's frames, converted to the
//! scene's channels frame by frame and then to its rate. [`clip_has_samples`] says that the samples
//! by number are those of that list. The contracts speak of the bytes of the file though they are
//! not kept: a `FileContent` takes no memory and carries them for the proofs.
#![tactic(auto)]

mod converter;
mod copied;
mod file_content;
mod file_frames;
mod laws;
mod mixdown;
mod paged_clip;
mod scene_clip;

pub use converter::Converter;
pub use laws::{clip_has_samples, no_frames_where_refused};
pub use paged_clip::PagedClip;
pub use scene_clip::SceneClip;
