//! The tests of `bus_list`: edits before, under and after visits on one thread, a detach that waits for
//! a visit on another thread, and many edits beside many visits, each of which is then checked against
//! the edits that were made.
#![tactic(auto)]

#[cfg(test)]
mod lawful;
#[cfg(test)]
mod many_edits;
#[cfg(test)]
mod one_thread;
#[cfg(test)]
mod recorder;
#[cfg(test)]
mod visited;
#[cfg(test)]
mod waiting_detach;
