/// An output bus as the script wires it at the start.
#[derive(Debug, Clone, Copy, PartialEq, Eq)]
pub struct BusRow {
    /// The number of the node whose output it is, from 0.
    pub node: u32,
    /// The number of the output at that node, from 0. It need not be an output that the node has.
    pub out: u8,
    /// The number of the node to whose input it is attached, where that is the number of nodes for
    /// the endpoint. `None` where it is attached nowhere.
    pub to: Option<u32>,
    /// The gain of the bus, in 1/65536, any number: one above 1048576 is refused at the start and
    /// changes nothing.
    pub gain: u32,
}
