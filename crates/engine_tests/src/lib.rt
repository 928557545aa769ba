//! The tests of `engine`: scenes rendered in blocks beside the plain mix, which computes each frame by
//! itself, the blocks of a scene, worked out by hand, and what is left of its file where the store fails.
#![tactic(auto)]

#[cfg(test)]
mod block_steps;
#[cfg(test)]
mod clip_ends;
#[cfg(test)]
mod edit_frames;
#[cfg(test)]
mod failing_stores;
#[cfg(test)]
mod node_times;
#[cfg(test)]
mod noise;
#[cfg(test)]
mod random_rows;
#[cfg(test)]
mod random_scenes;
#[cfg(test)]
mod rendering;
#[cfg(test)]
mod scene_lengths;
#[cfg(test)]
mod scripts;
#[cfg(test)]
mod sounds;
