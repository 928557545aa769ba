//! The tests of the gates of `snd_io`: which events a gate keeps in order, on one thread and on
//! several, and which it lets pass.
#![tactic(auto)]

#[cfg(test)]
mod events;
#[cfg(test)]
mod one_thread;
#[cfg(test)]
mod threads;
