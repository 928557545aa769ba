//! The tests of `node_graph`: the board of a small scene after each kind of edit, worked out by hand,
//! and a stage beside a plan under many edits.
#![tactic(auto)]

#[cfg(test)]
mod both;
#[cfg(test)]
mod scenes;
#[cfg(test)]
mod stages;
