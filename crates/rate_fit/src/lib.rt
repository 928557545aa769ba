//! The conversion of a clip's rate and channels.
//!
//! A [`Fit`] says how many frames a clip has at another rate, and between which two frames of the
//! clip each of them lies: a [`Point`]. [`blend`] is the linear interpolation at a point, rounded
//! down. [`to_channels`] brings a frame to one or two channels.
//!
//! Points come in three ways, and blends in two. [`Fit::at`] and [`blend`] divide: they are the rule
//! as it is written, and what the others are tested and measured against. An [`Interpolator`] is
//! made for one output rate and multiplies: it blends without a division, and finds a point without
//! one in the first 2^24 frames of a clip. A [`Walker`] gives the points one after the other by
//! addition, and divides only where it begins. Clips at a scene's rate are read by an interpolator,
//! frame by frame in any order, and by a walker where frames come in order.
#![tactic(auto)]

mod channels;
mod fit;
mod interpolation;
mod interpolator;
mod point;
mod rounding;
mod walker;

pub use channels::{mean, to_channels, to_stereo};
pub use fit::Fit;
pub use interpolation::blend;
pub use interpolator::Interpolator;
pub use point::Point;
pub use walker::Walker;
