//! The commands of `scenetool` ([`run_tool`]), of `scenerender` ([`run_render`]) and of `sceneview` ([`run_view`]), from words to
//! a status, over any store of files and any sink of text. [`DiskDepot`] and [`TextOut`] are the system's files and streams.
#![tactic(auto)]

mod command;
mod disk_depot;
mod effect_words;
mod effects;
mod fetching;
mod fx;
mod generating;
mod info;
mod laws;
mod mix;
mod prepared;
mod printing;
mod program;
mod render;
mod render_command;
mod render_tool;
mod rendering;
mod text_out;
mod tool;
mod view;
mod view_command;
mod view_tool;
mod words;

pub use disk_depot::DiskDepot;
pub use laws::{an_outcome_is_that_of_the_named_files, the_refusal_is_the_first};
pub use program::{print_text, program_words};
pub use render_tool::run_render;
pub use snd_status::Status;
pub use text_out::TextOut;
pub use tool::run_tool;
pub use view_tool::run_view;
