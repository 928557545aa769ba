//! What a scene is: the sounds, groups and splitters that a script names, how they are wired to
//! the endpoint, and the edits that change them while the scene plays.
//!
//! A [`Scene`] is made once, from a script, and read by all that renders it. It keeps its limits by
//! its type: whoever holds one knows that its rate is at most [`MAX_RATE`], that each sound names a
//! resource that is there, and that each row names a node that is there. So a reader of scenes
//! tests nothing again. A literal `Scene { .. }` that might break one of them is refused when the
//! crate is built.
//!
//! A [`Plan`] is how the scene is wired at some moment: it begins as [`Plan::opening`] says, and
//! [`apply`] makes an edit in it or refuses it. No node of a plan is ever reached from itself along
//! attached buses, so that a mix of it is well defined.
//!
//! Nodes are numbered from 0 in the order of the script, and the endpoint has the next number.
//! Output buses are numbered from 0, node by node. Times are counted in frames of the scene's rate,
//! and gains in 1/65536. This form of scenes and its limits are this project's own.
#![tactic(auto)]

mod bus;
mod bus_row;
mod changes;
mod conditions;
mod copies;
mod edit;
mod laws;
mod limits;
mod name;
mod node;
mod node_state;
mod order;
mod outputs;
mod plan;
mod reach;
mod refusals;
mod reply;
mod resource;
mod scene;

pub use bus::{Bus, target};
pub use bus_row::BusRow;
pub use edit::{Edit, EditRow};
pub use laws::{
    a_plan_takes_the_edits_of_a_scene, buses_have_their_numbers, edits_are_ordered_by_frames,
    edits_keep_kinds_and_outputs, no_plan_has_a_cycle, plan_is_all_edits_so_far,
    times_stay_in_range,
};
pub use limits::{
    LAST_EDITOR, MAX_BUS_ROWS, MAX_BUSES, MAX_EDITS, MAX_FILE_NAME_BYTES, MAX_LENGTH,
    MAX_NAME_BYTES, MAX_NODES, MAX_PLACE, MAX_RATE, MAX_RESOURCES, MAX_SEEKS, MAX_SPLITTER_OUTPUTS,
    MIN_SPLITTER_OUTPUTS,
};
pub use mix_fixed::{MAX_GAIN, UNITY_GAIN};
pub use name::{is_file_name, is_name};
pub use node::{Node, NodeKind};
pub use node_state::NodeState;
pub use order::{NumberedEdit, edits_in_order};
pub use plan::{Plan, apply};
pub use reply::Reply;
pub use resource::Resource;
pub use scene::Scene;
