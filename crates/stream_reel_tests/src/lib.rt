//! The tests of `stream_reel`: streams on one thread, call by call and whole, and a listener that seeks
//! beside a filler on a thread of its own.
#![tactic(auto)]

#[cfg(test)]
mod clips;
#[cfg(test)]
mod one_thread;
#[cfg(test)]
mod player;
#[cfg(test)]
mod two_threads;
#[cfg(test)]
mod whole_streams;
