//! The tests of `live_board`: what readings show on one thread, what a hand tells, and many changes
//! beside many readings, each of which is then checked against the changes that were made.
#![tactic(auto)]

#[cfg(test)]
mod beside;
#[cfg(test)]
mod one_thread;
#[cfg(test)]
mod opened;
