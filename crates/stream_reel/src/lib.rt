//! Streams: the pages of a clip, which one end decodes and the other one hears, with two page buffers.
//!
//! [`Stream::open`] gives the two ends. The [`Listener`] sends its buffers to the [`Filler`], each with
//! the number of the page that it wants, and the filler sends them back filled. Both rings are those of
//! `rtrb`, so that the ends may be on two threads, and neither waits for the other one. A page that
//! [`Listener::next`] gives is lent: it lies in a buffer that the listener has until its next call.
//! [`Listener::seek`] begins a new round. Buffers of an older round are sent to the filler again when
//! they come. Only `open` takes memory, and only [`Filler::work`] may wait.
//!
//! The listener's meaning is the list of what was heard, with the round, the number and the samples of
//! each page (`specs/Heard.antt`). The list isn't stored. A buffer that goes back to the filler has
//! its page still, and a mark whether it was heard: so the list stands in what the listener sent and in
//! the buffers that it has. After [`Stream::close`] the list is lawful for the stream's file, since with
//! both ends on one thread what the listener received is a part of what the filler sent, and all of
//! that is filled with the file's pages.
//!
//! What an end knows of a ring may be out of date. [`Stream::meet`] makes it current, and then the next
//! answers of both ends are exact: `specs/Met.antt` has what they know then, and `specs/Due.antt` why
//! the page that comes next is the first one of its round.
#![tactic(auto)]

mod buffer;
mod filler;
mod laws;
mod listener;
mod not_loaded;
mod stream;
mod turned;
mod two;

pub use filler::Filler;
pub use laws::{first_page_of_a_later_round, first_page_of_round_0};
pub use listener::Listener;
pub use not_loaded::NotLoaded;
pub use stream::{Ends, Stream};
pub use turned::Turned;
