//! The tests of the queue of jobs: the order of jobs, the tags under which they lie, where there is no room,
//! and threads that share a queue.
#![tactic(auto)]

#[cfg(test)]
mod order;
#[cfg(test)]
mod queues;
#[cfg(test)]
mod room;
#[cfg(test)]
mod threads;
