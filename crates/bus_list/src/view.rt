//! What the seats of a list's table know. Contracts read it, and no value of it is made.
//! The number of buses stands for the dummy, for the end of the list, and for "none".
use crate::history::Entry;
use crate::visit::Visit;
use std::collections::LinkedList;

/// How far an edit is, and of which bus. Where a detach, or an attach that has put the feed in,
/// is under way, the feed is told too.
#[derive(Drop)]
pub enum Phase<T> {
    /// No edit is under way.
    Idle,
    /// Attach: the bus's own link is stored.
    Linked(u32),
    /// Attach: the editor has the bus's cell.
    Filling(u32),
    /// Attach: the feed is in the cell.
    Filled(u32, Option<T>),
    /// Attach: the dummy's link leads to the bus.
    Inserted(u32, Option<T>),
    /// Attach: the flag is set.
    FlagSet(u32),
    /// Detach: the flag is cleared.
    FlagCleared(u32, Option<T>),
    /// Detach: the predecessor's link leads past the bus.
    Unlinked(u32, Option<T>),
    /// Detach: the step counter was then found 0.
    Quiescent(u32, Option<T>),
    /// Detach: the reference count was then found 0.
    Unreferenced(u32, Option<T>),
    /// Detach: the editor has the bus's cell.
    Emptying(u32),
    /// Detach: the feed is out of the cell.
    Emptied(u32),
}

/// The editor's part of a view.
#[derive(Drop)]
pub struct EditorState<T> {
    /// All edits so far.
    pub history: LinkedList<Entry<T>>,
    /// The buses along the links, from the dummy on.
    pub chain: LinkedList<u32>,
    pub phase: Phase<T>,
}

/// What the pass knows of the flag of the bus that it holds.
#[derive(Drop)]
pub enum FlagState {
    /// It hasn't loaded the flag.
    NotLoaded,
    /// It found the flag set, and hasn't taken the feed.
    FoundSet,
    /// It has the feed, or found the flag clear, or holds no bus.
    Settled,
}

/// The pass's part of a view.
#[derive(Drop)]
pub struct PassState<T> {
    /// The visits that have ended.
    pub visits: LinkedList<Visit<T>>,
    /// The number of edits when the pass was split off.
    pub start: u64,
    /// The count of edits that it loaded last.
    pub last_count: u64,
    /// Whether a visit is open.
    pub opened: bool,
    /// Whether the visit loaded a link that was the end.
    pub ended: bool,
    /// Whether the pass is in a step, so that the step counter is 1.
    pub stepping: bool,
    /// The bus that it holds.
    pub held: u32,
    /// The bus that it held before, until it has let go of it.
    pub previous: u32,
    /// The bus that it aims at: its link was loaded, and its reference count isn't added to yet.
    pub aim: u32,
    /// The bus whose cell it has, and the feed from that cell.
    pub borrowed: u32,
    pub borrowed_feed: Option<T>,
    pub flag_state: FlagState,
    /// The buses that it held in the open visit, in order.
    pub walked: LinkedList<u32>,
    /// The buses that the open visit gave, with their feeds, in order.
    pub given: LinkedList<(u32, T)>,
}

/// Which step a seat made, on which bus, and which word it found, or stored.
#[derive(Drop)]
pub enum Note {
    /// A load of the count of edits.
    Edits(u64),
    /// An addition, a subtraction or a load of the step counter.
    Steps(u64),
    /// A load of the bus's link, or of the dummy's.
    Link(u32, u64),
    /// A load of the bus's flag.
    Flag(u32, u64),
    /// An addition, a subtraction or a load of the bus's reference count.
    References(u32, u64),
    /// A move of the bus's cell.
    Feed(u32),
    /// A store of the bus's link before it is put in.
    OwnLink(u32, u64),
    /// A store of the dummy's link.
    DummyLink(u64),
    /// A store of the link of this predecessor.
    PredecessorLink(u32, u64),
    /// A store of the bus's flag.
    FlagStored(u32),
    /// A store of the count of edits.
    EditsStored(u64),
    /// The seat was split.
    Split,
    /// Two seats were joined.
    Join,
}

/// What one seat knows.
#[derive(Drop)]
pub struct View<T> {
    /// Whether it has the editor's part.
    pub is_editor: bool,
    /// Whether it has the pass's part.
    pub reads: bool,
    /// The steps that it made.
    pub notes: LinkedList<Note>,
    /// The editor's copy of the links, that of the dummy last.
    pub links: LinkedList<u32>,
    pub editing: EditorState<T>,
    pub reading: PassState<T>,
}
