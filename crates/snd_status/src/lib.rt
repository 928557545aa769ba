//! How a command ends: its status, and the line of text that says so.
//!
//! A [`Status`] is the number with which a program ends and the text of a refusal, with the place
//! and the value of what was refused. A [`MixReport`] and a [`WaveReport`] are what a command prints
//! when it is done. Each of them is printed by `Display`, in ASCII but for the names of files, with
//! no newline at its end; the exact bytes are definitions of `specs/Texts.antt`; those of faults
//! stand with the faults.
#![tactic(auto)]

mod mix_report;
mod status;
mod wave_report;

pub use mix_report::MixReport;
pub use status::Status;
pub use wave_report::WaveReport;
