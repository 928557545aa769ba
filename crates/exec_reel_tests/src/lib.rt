//! The tests of `exec_reel`: the turns of tickets on one thread, in every order, and on several threads, and
//! the pages that a reader is given.
#![tactic(auto)]

#[cfg(test)]
mod clips;
#[cfg(test)]
mod orders;
#[cfg(test)]
mod reading;
#[cfg(test)]
mod threads;
#[cfg(test)]
mod tickets;
