//! The block engine: a scene's mix, many frames at a time.
//!
//! A [`Renderer`] goes through a scene in blocks of 512 frames, or fewer where the next edit falls or
//! the scene ends ([`Renderer::step`]). Within a block no edit falls, but times of nodes and ends of
//! clips do. So a block is rendered in spans (`span.rt`), in which no node begins or ceases to be
//! active: there the same nodes are pulled, and a cursor either stays or plays on. Each node that is
//! pulled is rendered once a span (`nodes.rt`), behind those that feed it, and its samples are kept for
//! all its buses: those of a sound from its clip (`sounds.rt`), those of another node as the sum of what
//! the buses attached to it add (`feeds.rt`). The endpoint's are the samples of the block. The first
//! frames of all clips, as many as fit a budget, are kept at the scene's rate and in its channels once they were played
//! (`cached_clip.rt`, `kept_frames.rt`), and copied for each sound that plays them again.
//!
//! The pages come from tapes, which show them one after the other, since other threads may decode them meanwhile. [`Renderer::ready`]
//! renders the block as far as its pages are shown, and answers a [`Need`] where it reads one that isn't; [`Renderer::block`] gives it.
//!
//! That the blocks are the mix is the clause `samples` of [`Renderer::block`]: the frames of the scene
//! from its clock on, which `mix_model` defines frame by frame. `specs/Span.antt` says what the samples of
//! a node are over a span, and `specs/Playing.antt` what a block is. After [`Renderer::open`] nothing
//! takes memory.
//!
//! [`mix`] renders a scene on the calling thread and sets a file of a store to its WAVE file, block by block
//! (`out_file.rt`, over the pieces of [`open_file`]): the bytes that `mix_model`'s plain mix writes, which computes each frame by itself.
//! [`render`] sets it to the same bytes, while other threads decode the clips (`decoding_desk.rt`).
#![tactic(auto)]

mod advance;
mod block;
mod cached_clip;
mod decoding_desk;
mod edits;
mod feeds;
mod kept_frames;
mod laws;
mod need;
mod nodes;
pub mod open_file;
mod opening;
mod order;
mod out_file;
mod page_source;
mod playback;
mod renderer;
mod rendering;
mod room;
mod run_fault;
mod sounds;
mod span;
mod steady;

pub use laws::a_block_has_one_length;
pub use need::Need;
pub use renderer::Renderer;
pub use rendering::{mix, render};
pub use run_fault::RunFault;
