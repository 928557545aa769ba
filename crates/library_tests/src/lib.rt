//! The tests of the libraries below `mix_model`, but for `snd_io`: worked examples, tables of
//! inputs, and most public calls once on their happy path, by themselves or through a call above
//! them. The laws, which do nothing, are left out. Reading scenes from scripts has a crate of tests of
//! its own.
#![tactic(auto)]

#[cfg(test)]
mod clips;
#[cfg(test)]
mod converted_clips;
#[cfg(test)]
mod g711_codes;
#[cfg(test)]
mod gains;
#[cfg(test)]
mod ima_blocks;
#[cfg(test)]
mod kernels;
#[cfg(test)]
mod page_walks;
#[cfg(test)]
mod plans;
#[cfg(test)]
mod rates;
#[cfg(test)]
mod scene_values;
#[cfg(test)]
mod sound_files;
#[cfg(test)]
mod tapes;
#[cfg(test)]
mod wave_files;
#[cfg(test)]
mod wave_writing;
