//! What a scene sounds like, as definitions, and a plain renderer that meets them: it computes each
//! frame by itself from the nodes, and packs and writes 512 frames at a time.
//!
//! `specs/Mix.antt` says what the mix of a scene is. At frame `t` all edits of frames up to `t` are
//! made. The input of a node is the sum, over all buses attached to it whose own node is active, of
//! that node's output by the bus's gain, and this sum is brought back to 24 bits by saturation,
//! once. The output of a group or a splitter is its input, that of a sound its clip's frame at its
//! cursor (`specs/Signals.antt`). A cursor moves on after each frame at which its sound is pulled:
//! active, and on some path to the endpoint (`specs/Pulled.antt`). The frames of the scene are the
//! endpoint's inputs, and `specs/Output.antt` says what WAVE file they make.
//!
//! [`plain_mix`] writes that file to a sink, and answers a [`Summary`] of it or a [`MixFault`]. The
//! parts of a frame are public, for other renderers of the same mix: the edits that are due
//! ([`make_due`], [`seek`]), depths of nodes and a topological order of the buses ([`depths`],
//! [`topological_order`]), what is active and what is pulled ([`is_active`], [`mark_pulled`]), cursors
//! ([`next_cursor`], [`advance_cursors`]) and the lengths of clips ([`clip_lengths`]), and what stands before
//! and behind the frames in the file ([`scene_header`], [`is_padded`], [`write_padding`], [`file_bytes`]).
//!
//! The laws, functions that do nothing, say that the definitions hold what one would expect of a mix.
//! Those of `span_laws.rt` are for a renderer that computes many frames at a time: how a scene goes on
//! from moment to moment (`specs/Moments.antt`), and what stays where no edit and no time of a node
//! falls (`specs/Spans.antt`).
#![tactic(auto)]

mod blocks;
mod clips;
mod cursors;
mod edits;
mod frame;
mod laws;
mod mix_fault;
mod order;
mod player;
mod pull;
mod rendering;
mod span_laws;
mod summary;
mod wav_file;

pub use clips::clip_lengths;
pub use cursors::{advance_cursors, next_cursor};
pub use edits::{make_due, seek};
pub use laws::{
    a_sound_plays_its_clip, edits_past_the_end_change_nothing, inputs_hang_on_what_feeds_them,
    inputs_have_one_solution, pulls_have_one_solution, the_order_of_buses_makes_no_difference,
    what_is_not_attached_is_silent, what_is_not_pulled_does_not_move, what_is_written_is_read_back,
};
pub use mix_fault::MixFault;
pub use order::{MAX_INPUTS, depths, topological_order};
pub use pull::{is_active, mark_pulled};
pub use rendering::plain_mix;
pub use span_laws::{
    a_sound_plays_on, frames_can_be_split, frames_go_on_between_edits, moments_follow_one_another,
    no_edit_falls_before_the_next, pulls_stay_between_times, samples_stand_frame_by_frame,
};
pub use summary::Summary;
pub use wav_file::{file_bytes, is_padded, scene_header, write_padding};
