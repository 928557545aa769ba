//! The wiring of a scene at a frame, as a picture in the DOT language of [Graphviz](https://graphviz.org/doc/info/lang.html).
//!
//! [`wiring`] draws the plan that the scene has at that frame, after the frame's edits: a box for each node, with its name,
//! what it is, the sound file that it plays, and from when until when it is active; and an arrow for each bus that is
//! attached, with its gain as a factor. What isn't heard is grey: a node that isn't pulled, and a bus whose node isn't active
//! or that leads to a node that isn't pulled. Plan and pulled nodes are those by which a scene is mixed, so the picture can't
//! disagree with the sound.
//!
//! `specs/Wiring.antt` has the text, line by line.
#![tactic(auto)]

mod labels;
mod lines;
mod moment;
mod picture;

pub use picture::wiring;
