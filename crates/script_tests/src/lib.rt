//! The tests of reading scenes: tables of scripts with the answers that the form of scripts gives
//! them, one whole scene, field by field, and the scripts that `scenetool gen` writes.
//!
//! A script is written as the pieces of which it is joined: the top of a script, and rows that are
//! right. Its strings stand in single quotes, which TOML allows. A table has a file of its own for
//! the top of a script and for each kind of row.
#![tactic(auto)]

#[cfg(test)]
mod buses;
#[cfg(test)]
mod edit_order;
#[cfg(test)]
mod edits;
#[cfg(test)]
mod generated_scripts;
#[cfg(test)]
mod nodes;
#[cfg(test)]
mod resources;
#[cfg(test)]
mod scripts;
#[cfg(test)]
mod top_level;
#[cfg(test)]
mod whole_scenes;
