//! The tests of `slot_tags`: the values of tags, the limits of a table, and threads that share one.
#![tactic(auto)]

#[cfg(test)]
mod limits;
#[cfg(test)]
mod tables;
#[cfg(test)]
mod threads;
#[cfg(test)]
mod values;
