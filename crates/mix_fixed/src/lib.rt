//! Sound arithmetic in fixed point: samples of 24 bits in an `i32`, and gains in 1/65536.
//!
//! A sample lies from -8388608 to 8388607, the range of 24-bit PCM in two's complement (Microsoft,
//! "Multiple Channel Audio Data and WAVE Files"). A [`Gain`] is at most 16.0. [`scale`] rounds
//! down, towards negative infinity, and [`sat24`] brings a sum back to 24 bits by saturation.
//! [`add_scaled`] and [`settle`] do the two for whole slices: sums of 64 bits that samples are added
//! to by a gain, and the samples that come of them. [`add_scaled_narrow`] and [`settle_narrow`] do
//! so for sums of 32 bits.
#![tactic(auto)]

mod gain;
mod kernels;
mod narrow;
mod sample;
mod shares;

pub use gain::{Gain, MAX_GAIN, UNITY_GAIN};
pub use kernels::{add_scaled, settle};
pub use narrow::{add_scaled_narrow, settle_narrow};
pub use sample::{sat24, scale};
