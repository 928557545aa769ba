//! What a seat of the table knows. No value of these types is made when a program runs: a view stands in
//! contracts alone.
ghost use base.Stored.{Gv};
ghost use base.Fml.{ftrue};
ghost use Rattle.slot_tags.specs.Codes.{coded_gv};

use std::collections::LinkedList;
use std::marker::Model;

/// What the table is told once, when it is made.
#[derive(Drop)]
pub struct Sizes {
    pub groups: u32,
    pub last: u32,
}

/// How far a seat is with its slot.
pub enum Role {
    /// It is a slot seat. Tags are split off it, and it has no slot.
    Splitter,
    /// It is a tag's and has no slot.
    Free,
    /// It set its slot's bit, and the slot's counter hasn't risen yet.
    Won,
    /// Its slot's counter has its number, and the slot's cell is at home.
    Held,
    /// The same, and the cell is out with it.
    Open,
    /// It cleared its slot's bit.
    Given,
    /// It was joined into a slot seat.
    Spent,
}

/// One step of a seat, with the word that it found. The exchanges of a cell make no note.
pub enum Note {
    /// A tag's seat was split off.
    Split,
    /// A fetch_or of a slot's bit: the slot, and the word of its group as it was.
    FetchOr(u32, u64),
    /// A fetch_add of 1 to a slot's counter: the slot, and the counter as it was.
    FetchAdd(u32, u64),
    /// A fetch_and that clears a slot's bit: the slot, and the word of its group as it was.
    FetchAnd(u32, u64),
    /// A tag's seat was joined.
    Join,
}

/// A job, as a view knows it: by its code, so that a view doesn't name the job's type.
pub struct JobCode {
    pub ghost code: { Gv } by { coded_gv },
}

impl Model for JobCode {
    ghost also_owns = { λ _. ftrue };
}

/// What a seat knows.
pub struct View {
    pub role: Role,
    /// The last number that a tag may have.
    pub last: u32,
    /// The slot, and the number of its tag, once there are any.
    pub slot: u32,
    pub number: u32,
    /// The job in the slot's cell.
    pub job: Option<JobCode>,
    pub notes: LinkedList<Note>,
    /// The tags that were given back through the slot seat, each with its slot and its number. A tag's
    /// seat has a copy, made at the split.
    pub given: LinkedList<(u32, u32)>,
}
