//! The tests of `fx_nodes`: words, values that were worked out by hand at both ends of each range, and chains whose frames
//! come in blocks of several lengths.
#![tactic(auto)]

#[cfg(test)]
mod blocks;
#[cfg(test)]
mod chains;
#[cfg(test)]
mod long_delay;
#[cfg(test)]
mod values;
#[cfg(test)]
mod words;
