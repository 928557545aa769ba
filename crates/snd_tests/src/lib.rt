//! The tests of the commands and of the outside: worked examples, tables of inputs, and each public
//! call once on its happy path.
#![tactic(auto)]

#[cfg(test)]
mod effects;
#[cfg(test)]
mod fakes;
#[cfg(test)]
mod generated;
#[cfg(test)]
mod infos;
#[cfg(test)]
mod limits;
#[cfg(test)]
mod mixes;
#[cfg(test)]
mod plain_mixes;
#[cfg(test)]
mod programs;
#[cfg(test)]
mod renders;
#[cfg(test)]
mod scenes;
#[cfg(test)]
mod script_faults;
#[cfg(test)]
mod sounds;
#[cfg(test)]
mod system_files;
#[cfg(test)]
mod usages;
#[cfg(test)]
mod views;
