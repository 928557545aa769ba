/// A change of the running scene. `node` is the number of a node, from 0, and `out` of one of its
/// outputs, from 0.
#[derive(Debug, Clone, Copy, PartialEq, Eq)]
pub enum Edit {
    /// Attaches an output bus to the input of the node `to`, or to the endpoint.
    Attach { node: u32, out: u8, to: u32 },
    /// Detaches an output bus from where it is attached.
    Detach { node: u32, out: u8 },
    /// Sets the gain of an output bus, in 1/65536.
    SetGain { node: u32, out: u8, gain: u32 },
    /// Starts a node.
    Start { node: u32 },
    /// Stops a node.
    Stop { node: u32 },
    /// Sets the first frame at which a node may be active, 0 to 16777216.
    From { node: u32, value: u32 },
    /// Sets the frame from which on a node is no longer active, 0 to 16777216.
    Until { node: u32, value: u32 },
    /// Moves a sound to a frame of its clip, counted from 0 at the scene's rate: 0 to
    /// 140737488355327. A place past the clip's end is its end.
    Seek { node: u32, place: u64 },
    /// Sets whether a sound starts again at its end.
    Loop { node: u32, on: bool },
}

/// An edit of the script: when it is made, and by which editor.
#[derive(Debug, Clone, Copy, PartialEq, Eq)]
pub struct EditRow {
    /// The frame before which it is made, 0 to 16777216.
    pub at: u32,
    /// The number of the editor that makes it, 0 to 3.
    pub editor: u8,
    /// The change.
    pub edit: Edit,
}
