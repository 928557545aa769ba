//! Reads a scene from its script.
//!
//! A script is a TOML document. Its top level has the version of the form, 1, the sample rate in
//! Hz, the channels, the bits of a sample of the output and the length in frames. The arrays of
//! tables `resource`, `node`, `bus` and `edit` have a row for each sound file, each node without the
//! endpoint, each output bus that is wired at the start, and each edit. Rows name resources and
//! nodes, and `endpoint` is the name of the endpoint; the scene has their numbers.
//!
//! [`read_scene`] answers the scene, or the first [`SceneFault`] in this order:
//!
//! 1. the bytes aren't a TOML document;
//! 2. the version, then a key at the top that isn't known, then the numbers at the top;
//! 3. for `resource`, `node`, `bus` and `edit` in this order: whether it is an array of tables, the
//!    number of its rows, and then its rows. After those of `node` comes the number of all output buses;
//! 4. the edits that the rows stand for, in a plan of the nodes alone: each bus row is a gain edit
//!    and, where it has a target, an attach edit; then come the edits in the order of their frames
//!    and rows. Each must be done.
//!
//! In a row the kind or the op comes first, then a key that this kind doesn't have, then the keys in
//! the order of the form, then a name that is taken, and then the names that it refers to. The
//! order of the keys in the text is of no matter. A fault in a row is that of the first row that has
//! one, which [`faults_are_the_first`] says as a law.
//!
//! This form of scripts is this project's own.
#![tactic(auto)]

mod bounds;
mod bus_rows;
mod edit_keys;
mod edit_rows;
mod fault;
mod fault_keys;
mod fault_place;
mod fault_rows;
mod fields;
mod header;
mod laws;
mod limits;
mod lines;
mod names;
mod node_keys;
mod node_rows;
mod op_word;
mod place;
mod placed_edit;
mod read;
mod resource_rows;
mod script_error;
mod table_rows;

pub use fault::{SceneFault, TableKind, Which};
pub use fault_keys::RowForm;
pub use fault_place::{FaultPlace, locate};
pub use laws::{
    edits_are_done, faults_are_the_first, names_are_distinct, references_are_by_name,
    rows_are_read_in_order,
};
pub use read::read_scene;
pub use script_error::ScriptError;
