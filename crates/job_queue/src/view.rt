//! What a seat of the ring knows. No value of these types is made when a program runs: a view stands in
//! contracts alone.
ghost use base.Fml.{ftrue};
ghost use Rattle.atomic_table.specs.Seated.{TableId, table_id_coded};

use slot_tags::Note;
use std::collections::LinkedList;
use std::marker::Model;

/// Which slot table it is.
pub struct TableName {
    pub ghost id: { TableId } by { table_id_coded },
}

impl Model for TableName {
    ghost also_owns = { λ _. ftrue };
}

/// A tag: its slot, its number, and the notes of its own steps.
pub struct TagData {
    pub slot: u32,
    pub number: u32,
    pub notes: LinkedList<Note>,
}

/// A job that was posted, with the tag under which it lay.
pub struct Posted<J> {
    pub job: J,
    pub tag: TagData,
}

/// A post: the number of the seat that made it, its number among the posts of that seat, counted from 0,
/// and what was posted.
pub struct Post<J> {
    pub poster: u32,
    pub number: u64,
    pub posted: Posted<J>,
}

/// What a pass of the ring is for.
pub enum Role {
    /// It is the ring's first pass, off which those of the job seats are split.
    Opening,
    /// It is a job seat's.
    Working,
}

/// What a pass of the ring knows.
pub struct JobView<J> {
    pub role: Role,
    /// The job seat's number, from 1 on. Of the first pass, how many job seats were split off it.
    pub number: u32,
    /// The slot table that all job seats name.
    pub table: TableName,
    /// What the seat posted, in order.
    pub posted: LinkedList<Posted<J>>,
    /// What the seat took, in order.
    pub took: LinkedList<Post<J>>,
}
