/// An edit of a list. The history of a list is the list of its edits, the first one first.
#[derive(Drop)]
pub enum Entry<T> {
    /// This bus was attached, with this feed.
    On(u32, T),
    /// This bus was detached.
    Off(u32),
}
