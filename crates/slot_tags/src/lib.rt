//! Tagged slots: places for jobs that threads share without a lock, none of which is given again
//! while its tag is held.
//!
//! A [`SlotTable`] has groups of 32 slots. Each slot has a bit, which is set while it is held, a
//! counter, and a cell for a job. [`SlotTable::take`] sets the first bit that it finds clear by a
//! fetch_or, raises that slot's counter by a fetch_add, puts the job into the cell and answers a
//! [`SlotTag`]. A tag's value is the counter in the high 32 bits and the slot in the low ones, so
//! no two tags of a table have one value. [`SlotTable::lift`] and [`SlotTable::put`] empty a tag
//! and fill it again, and [`SlotTable::give`] ends it: it clears the slot's bit by a fetch_and. A
//! slot whose counter has reached the table's last number keeps its bit, and is never given again.
//!
//! Each thread has a [`SlotSeat`], which says at which table it is. Contracts see two lists of it:
//! the tags that were given back through it, and its notes, one for each step that the seat and its
//! tags made, with the word that the step found. So a `take` that answers [`Full`] shows that it
//! tried each slot once and found each bit set.
//!
//! All this holds over every interleaving of the steps of all threads: `specs/Rule.antt` has the
//! rule of the table, which each kind of step keeps, and `proofs/RuleLaws.antt` what it says in
//! sentences of its own. The table is private to one module, which has one function for each kind
//! of step; the calls stand over these. The cell of a slot goes out to its tag's seat and comes
//! home within one call, by loads and a plain exchange, which make no note.
#![tactic(auto)]

mod rule;
mod slot_table;
mod step_table;
mod tag;
mod view;

pub use slot_table::{Full, SlotSeat, SlotTable};
pub use tag::SlotTag;
pub use view::{JobCode, Note};
