//! The buses that are attached to an input: a linked list which one thread edits while another one
//! walks it, without a lock between them.
//!
//! - [`BusList`] makes an empty list, [`Both`]: its two sides in one hand.
//! - [`Both::split`] parts them. The [`Editor`] attaches buses, each with a feed, and detaches them.
//!   The [`Pass`] walks the list: a visit [begins](Pass::begin), goes [from bus to bus](Pass::next)
//!   and [ends](Pass::end). [`Held`] lends the bus that it stands on, with its feed.
//! - [`Both::join`] puts the sides together again, and tells that each visit was lawful: the buses
//!   that it gave stood in the list while it ran, none came twice, and a visit that came to the end
//!   missed none that stood there all the while.
//!
//! No call of a pass waits, and none takes memory: a pass may run in a thread that must not stop. Only
//! [`Editor::detach`] waits, for a grace period: until the pass can't stand on the bus any more.
//! Then the feed is the caller's alone.
//!
//! `specs/Visits.antt` says what a lawful visit is, `specs/Invariant.antt` what holds between any two
//! atomic steps, and `specs/Steps.antt` what each kind of step does. Only the module `table` makes
//! steps, by one function for each kind. `docs/BUS_LISTS.md` of the repository shows a detach step by
//! step.
#![tactic(auto)]

mod both;
mod bus_list;
mod detaching;
mod editor;
mod grace_period;
mod held;
mod history;
mod list_editor;
mod pass;
mod predecessor;
mod rule;
mod step_parts;
mod table;
mod view;
mod visit;

pub use both::Both;
pub use bus_list::BusList;
pub use editor::Editor;
pub use held::Held;
pub use history::Entry;
pub use pass::Pass;
pub use visit::{Visit, Window};
