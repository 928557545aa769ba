//! What the seats of a board know. But for [`Opening`] and [`Entry`], no value of these is made:
//! contracts alone speak of them.
use scene_model::Reply;
use std::collections::LinkedList;

/// How a board begins.
#[derive(Drop)]
pub struct Opening {
    /// The first word of each dial.
    pub dials: Vec<u64>,
    /// The largest word of each dial.
    pub most: Vec<u64>,
    /// The number of editors.
    pub hands: usize,
}

/// A reading of all dials.
pub struct Reading {
    /// The count that its first step found.
    pub from: u64,
    /// The count that its last step found.
    pub until: u64,
    /// The words between, in the order of dials.
    pub words: LinkedList<u64>,
}

/// What a load of the mixer found.
pub enum Note {
    /// The count.
    Count(u64),
    /// A dial, by its number, and its word.
    Dial(u64, u64),
}

/// An edit in the journal.
#[derive(Debug, Clone, Copy, PartialEq, Eq)]
pub struct Entry {
    /// The number of its editor.
    pub editor: u64,
    /// Its number among the edits of that editor, from 0.
    pub k: u64,
    /// What it was answered.
    pub reply: Reply,
}

/// What the seat knows that stores for whoever holds the lock.
pub struct LockView {
    /// The first word of each dial.
    pub opening: LinkedList<u64>,
    /// The changes so far, each with its dial and the new word.
    pub history: LinkedList<(u64, u64)>,
    /// Whether the last change isn't counted yet.
    pub stored: bool,
    /// The edits that are booked.
    pub journal: LinkedList<Entry>,
    /// The editor whose told word was loaded last.
    pub heard_of: u64,
    /// The replies that this editor had told.
    pub heard: LinkedList<Reply>,
    /// The number of the next hand that is made.
    pub next: u64,
}

/// What the mixer's seat knows.
pub struct MixView {
    /// The largest word of each dial.
    pub most: LinkedList<u64>,
    /// The finished readings.
    pub readings: LinkedList<Reading>,
    /// Whether a reading is open.
    pub reads: bool,
    /// The count at which the open reading began.
    pub from: u64,
    /// The words that it has so far.
    pub words: LinkedList<u64>,
    /// All loads so far.
    pub notes: LinkedList<Note>,
}

/// What the seat of an editor's hand knows.
pub struct HandView {
    /// The number of the editor.
    pub editor: u64,
    /// What its edits were answered.
    pub replies: LinkedList<Reply>,
    /// How many of them it found booked.
    pub found: u64,
}

/// What a seat knows. It has each part for which its flag is set, and no two seats have the same one.
pub struct View {
    /// Whether it stores for whoever holds the lock.
    pub locks: bool,
    /// Whether it reads for the mixer.
    pub mixes: bool,
    /// Whether it is a hand's.
    pub hands: bool,
    /// The part of the lock.
    pub lock: LockView,
    /// The part of the mixer.
    pub mixing: MixView,
    /// The part of a hand.
    pub hand: HandView,
}
