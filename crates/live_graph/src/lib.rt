//! The node graph of a live run: a scene that plays while up to four editors change it.
//!
//! A [`LiveStage`] is what editors change, one at a time: the [`Plan`](scene_model::Plan), the editors
//! of the linked lists of all inputs, and the words of the [`Board`](live_board::Board). An edit is
//! answered as [`apply`](scene_model::apply) answers it. What it changes beside the plan is either one
//! list or one word of the board: a bus is put at the front of the list of its input, or taken out of
//! it, which waits until no visit stands on that bus any more; a setting of a node or a gain is stored
//! in its word, and then counted.
#![tactic(auto)]

mod blank;
mod desk;
mod dials;
mod hand;
mod input_editor;
mod mixer;
mod opening;
mod run;
mod shared;
mod stage;

pub use blank::Blank;
pub use dials::dial_of;
pub use hand::Hand;
pub use input_editor::InputEditor;
pub use live_board::{Entry, Window};
pub use mixer::Mixer;
pub use run::Run;
pub use shared::{Shared, SharedParts};
pub use stage::LiveStage;
