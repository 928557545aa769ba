use std::collections::LinkedList;

/// A visit that has ended, as contracts see it. No value of it is made.
#[derive(Drop)]
pub struct Visit<T> {
    /// The count of edits that was loaded when it began.
    pub from: u64,
    /// The count of edits that was loaded when it ended.
    pub until: u64,
    /// The buses that it gave, with their feeds, in order.
    pub pairs: LinkedList<(u32, T)>,
    /// Whether it came to the end of the list.
    pub whole: bool,
}

/// The counts of edits that a visit loaded when it began and when it ended.
#[derive(Clone, Copy, Debug, PartialEq, Eq)]
pub struct Window {
    /// What was loaded when the visit began.
    pub from: u64,
    /// What was loaded when it ended.
    pub until: u64,
}
