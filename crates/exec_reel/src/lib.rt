//! Reels: the pages of a clip, which threads decode in order and one reader reads, with no lock.
//!
//! [`Reel::open`] takes the memory of all pages of a clip. [`Reel::draw`] gives a [`Ticket`] for each
//! page, in order: its number is what the execution counter of the reel was, which rises by 1. Any
//! thread may run any ticket by [`Reel::run`]. Where the reel's pointer is the ticket's number, it is the
//! turn of its page: the page is decoded with the reel's one cursor and put in its place, and then the
//! pointer goes on to the next number, which shows the page. Else the ticket is too early, and comes
//! back.
//!
//! [`Reader::page`] gives a page that is shown, and [`NotYet`] for one that isn't. Its samples aren't
//! copied. [`Reel::whole`] decodes all pages at once, and gives a reader to which all are shown.
//!
//! Only `open` and `whole` take memory, and no call waits for another thread.
//!
//! All this holds over every interleaving of the atomic steps of all threads. `specs/Rule.antt` has the
//! rule of the table, which each kind of step keeps, `specs/Steps.antt` what each does and tells, and
//! `proofs/RuleLaws.antt` what the rule says, in sentences of its own. Only the module `reel_table` makes
//! steps, by one function for each kind. Each step adds a [`Note`] with the word that it found to the
//! list of its seat, which contracts see: so an answer shows what this very call loaded.
#![tactic(auto)]

mod cell;
mod drawer;
mod not_yet;
mod opening;
mod page_moves;
mod reader;
mod reel;
mod reel_table;
mod rule;
mod ticket;
mod view;

pub use drawer::Drawer;
pub use not_yet::NotYet;
pub use reader::Reader;
pub use reel::{Opened, Reel};
pub use ticket::{Ended, Ran, Ticket};
pub use view::Note;
