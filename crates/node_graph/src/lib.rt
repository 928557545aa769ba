//! The graph of a scene while it plays: which output buses are attached to each input, and how the
//! nodes and buses are set.
//!
//! A [`Stage`] is a [`Plan`](scene_model::Plan) with a linked list beside it for each input: the
//! buses that are attached there, each with its [`Feed`]. So a mixer that goes over an input looks
//! at its own buses alone, and not at all buses of the scene. What a stage means is its plan: an edit
//! is answered as [`apply`](scene_model::apply) answers it and leaves the plan that `apply` leaves, and
//! the lists always have the buses that the plan attaches.
//!
//! The lists are those of `bus_list`, with both sides of each in one hand, so that nothing waits. To
//! visit a list is to split it, to walk it from its front to its end and to join it again: since no
//! edit comes between, the visit gives exactly what is attached. The numbers that it gave are kept
//! until the next edit of that list. A list counts its edits, up to 2^62: one that had so many, as in
//! no run, is no longer kept, and the buses of its node are read from the plan.
//!
//! A stage stands on one thread. All memory is taken by [`Stage::open`]; no later call takes any.
//!
//! A live run keeps the same plan and the same lists apart: [`open_list`] makes the list of an input,
//! [`list_change`] says which list an edit changes, and [`board_word`] gives a word of the board.
#![tactic(auto)]

mod attached;
mod board;
mod feed;
mod input_list;
mod inputs;
mod laws;
mod list_changes;
mod stage;
mod visit;
mod visited_list;

pub use board::board_word;
pub use feed::Feed;
pub use inputs::open_list;
pub use laws::{each_attached_bus_is_listed_once, the_board_has_a_word_for_each_dial};
pub use list_changes::{ListChange, list_change, number_of};
pub use stage::Stage;
