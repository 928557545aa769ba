/// A bus as it stands in the list of an input.
#[derive(Debug, Clone, Copy, PartialEq, Eq)]
pub struct Feed {
    /// The number of the bus among those of all nodes, from 0.
    pub bus: u32,
    /// The number of the node whose output it is, from 0.
    pub node: u32,
    /// The number of the output at that node, from 0.
    pub out: u8,
}
