//! What a seat of the table knows. No value of these types but `Opening` is made when a program runs: a
//! view stands in contracts alone.
use clip_decode::Clip;
use std::collections::LinkedList;

/// What the table is told once, when it is made: the clip, and how many of its pages are filled by then.
#[derive(Drop)]
pub struct Opening {
    pub clip: Clip,
    pub filled: u32,
}

/// How far the job of a ticket is.
pub enum Stage {
    /// It found the pointer at its number.
    Ready,
    /// It took the cursor.
    CursorTaken,
    /// It took the page too.
    PageTaken,
    /// It put the page home, filled.
    PageHome,
    /// It put the cursor home too.
    CursorHome,
}

/// Whose seat it is, and how far that is.
pub enum Role {
    /// The first seat of the table, before the reader's is split off.
    Opener,
    /// The drawer's. Its number is the one that is drawn next.
    Drawing,
    /// The drawer's with the ticket of its number, before the ticket's seat is split off.
    Drawn,
    /// A ticket's whose job wasn't run yet.
    Waiting,
    /// A ticket's whose job is being run.
    Working(Stage),
    /// A ticket's whose job is done.
    Ended,
    /// The reader's.
    Reading,
}

/// One step of a seat, with the word that it found.
pub enum Note {
    /// A fetch_add of 1 to the execution counter, and the counter as it was.
    FetchAdd(u64),
    /// A seat was split off.
    Split,
    /// A load of the pointer.
    LoadPointer(u64),
    /// The cursor went out to the ticket, and the pointer by then.
    CursorOut(u64),
    /// The page of this number went out to the seat, and the pointer by then.
    PageOut(u32, u64),
    /// The page of this number came home, and the pointer by then.
    PageIn(u32, u64),
    /// The cursor came home, and the pointer by then.
    CursorIn(u64),
    /// A store of this number to the pointer.
    StorePointer(u64),
}

/// What a seat knows.
pub struct View {
    pub role: Role,
    pub clip: Clip,
    /// The number of a ticket, or the number that a drawer draws next.
    pub number: u32,
    /// As many pages were shown to the seat.
    pub shown: u32,
    /// The numbers of the pages that the reader has.
    pub taken: LinkedList<u32>,
    pub notes: LinkedList<Note>,
}
