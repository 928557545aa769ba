//! IMA ADPCM: four bits a sample, decoded one code at a time or a block of a WAVE file at once.
//!
//! The rule of one code, the step table and the index changes are those of the IMA Digital Audio
//! Focus and Technical Working Groups, "Recommended Practices for Enhancing Digital Audio
//! Compatibility in Multimedia Systems" (revision 3.00), the layout of a block that of the WAVE
//! form of IMA ADPCM (tag 0x11) in Microsoft's "New Multimedia Data Types and Data Techniques". An
//! [`Ima`] is one channel's decoder. [`block_into`] writes the frames of a whole block, and
//! [`part_into`] those of a part, for a reader that stops inside a block and goes on.
//!
//! A contract places each code by its number; the code reads the words of a channel one after the
//! other. [`samples_are_predictors`] and [`run_can_be_resumed`] tie the two
//! views together.
#![tactic(auto)]

mod block;
mod fault;
mod ima;
mod laws;
mod part;
mod quantizer;
mod word;

pub use block::{block_frames, block_into};
pub use fault::ImaFault;
pub use ima::Ima;
pub use laws::{run_can_be_resumed, samples_are_predictors};
pub use part::part_into;
