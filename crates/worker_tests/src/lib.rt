//! The tests of decoding by workers, at the desks of a library.
#![tactic(auto)]

#[cfg(test)]
mod gates;
#[cfg(test)]
mod places;
#[cfg(test)]
mod shelves;
#[cfg(test)]
mod sounds;
#[cfg(test)]
mod tapes;
#[cfg(test)]
mod threads;
