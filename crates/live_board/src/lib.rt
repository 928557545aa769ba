//! The board of a live run: the words of its dials, which one editor at a time stores while a mixer
//! reads them, and two words for each editor by which its edits are booked.
//!
//! A [`Board`] is a table of atomic words. First comes a count of the changes so far, then a word for
//! each dial. Whoever holds the run's lock makes a change by two steps, [`Board::store_dial`] and then
//! [`Board::store_count`]. The mixer [reads](Board::read) the count, each dial in order and the count
//! again: so it knows a window of the board's history, and each word that it found stood there at some
//! time within that window. No step of either side waits for the other, and none takes memory.
//!
//! The words `told` and `booked` of an editor tie its own hand to the journal of the run. A hand tells
//! a reply once all those before it are booked; whoever holds the lock finds it, books it, and the hand
//! finds it booked. [`told_word`] says what is told: how many replies, and the last of them.
//!
//! Each side has a seat at the table, whose view contracts see: what it stored, what it loaded, and what
//! follows. `specs/Rule.antt` is the rule that holds between any two steps of all threads,
//! `specs/Steps.antt` what each step does to the view of its seat. At the end of a run the seats are
//! joined, and [`Board::learn`] tells that the readings are lawful in the board's whole history, and
//! that the journal has what the hands made. What a lawful reading is, `mix_model` says.
//!
//! Each dial has a largest word, which no store exceeds, so that a reader can rely on the range of what
//! it loads.
#![tactic(auto)]

mod board;
mod codes;
mod reading;
mod rule;
mod view;

pub use board::{Board, BoardSeat};
pub use codes::{reply_code, told_word};
pub use reading::Window;
pub use rule::BoardRule;
pub use view::{Entry, HandView, LockView, MixView, Note, Opening, Reading, View};
