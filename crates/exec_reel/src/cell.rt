use clip_decode::{Cursor, Page};

/// What a slot of the table holds.
#[derive(Drop)]
pub enum Cell {
    /// The cursor with which the pages are decoded, one after the other.
    Decoder(Cursor),
    /// The page with the slot's number.
    Page(Page),
    /// Nothing: what lay here is in the hands of the seat that has the slot.
    Away,
}
