/// What a turn of the filler did.
#[derive(Clone, Copy, Debug, PartialEq, Eq)]
pub enum Turned {
    /// It filled a buffer with the page `number`, which was asked for in `round`.
    Filled { round: u32, number: u32 },
    /// No buffer was known to it.
    Idle,
}
