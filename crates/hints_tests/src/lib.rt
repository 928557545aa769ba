//! The tests of hints: tables of what went wrong, with the whole of what is said of it.
#![tactic(auto)]

#[cfg(test)]
mod files;
#[cfg(test)]
mod scripts;
#[cfg(test)]
mod statuses;
