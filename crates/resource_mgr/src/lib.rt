//! The sound files of a scene's resources: fetched from a store of files, and decoded.
//!
//! [`fetch_clips`] fetches the files of resources one after the other and makes a
//! [`Clip`](clip_decode::Clip) of each. Where one isn't there, is too long or is refused, it answers
//! the first [`LibFault`] in the order of the resources, by the resource's number.
//! [`fetch_file`] fetches one file of any kind.
//!
//! A [`Tape`] has the pages of one clip in which its frames are decoded. It answers each page that
//! is shown, and [`NotYet`](exec_reel::NotYet) for the others.
//!
//! A [`Library`] has the pages of clips as jobs that threads share by reference, behind a ring. [`Library::open`] gives a
//! [`Shelf`]: the library, a [`Poster`] with the jobs of all pages in their order, a [`Desk`] for each worker and one more,
//! and the tapes. [`Library::post_some`] posts jobs while there is room. [`Library::work_one`] runs one, and
//! [`Library::worker`] runs them until it comes by a [`Work::Quit`], which [`Library::post_quit`] posts. A page whose turn
//! hasn't come and a quit are posted again, or stay at the desk until its next call. No call but the opening takes memory.
//!
//! Contracts see of a desk what its seat posted and took, in order, and the job that it keeps: `specs/PageOrder.antt` says in
//! which order the pages come, `specs/Posting.antt` what a post makes of a desk, and `specs/Working.antt` what the running of
//! a job does, and that no job is lost.
//!
//! `specs/Fetching.antt` says what is fetched and which fault comes first.
#![tactic(auto)]

mod desk;
mod fetching;
mod lib_fault;
mod library;
mod poster;
mod reels;
mod source;
mod tape;
mod work;
mod worker;

pub use desk::Desk;
pub use fetching::{fetch_clips, fetch_file};
pub use lib_fault::LibFault;
pub use library::{Library, MAX_WORKERS, Shelf};
pub use poster::{Posted, Poster};
pub use tape::Tape;
pub use work::{Work, Worked};
