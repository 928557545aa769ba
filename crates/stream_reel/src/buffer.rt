//! What travels through the rings.

use clip_decode::Page;

/// A page, the round in which it was asked for, and its number in the file.
#[derive(Drop)]
pub struct Buffer {
    pub(crate) round: u32,
    pub(crate) number: u32,
    pub(crate) page: Page,
}

/// A buffer that the listener took, and whether it was heard.
#[derive(Drop)]
pub struct Held {
    pub(crate) buffer: Buffer,
    pub(crate) heard: bool,
}

/// A buffer on its way to the filler, as the listener let go of it, with the page that is wanted.
#[derive(Drop)]
pub struct Ask {
    pub(crate) held: Held,
    pub(crate) round: u32,
    pub(crate) number: u32,
}
