ghost use Rattle.std.specs.Prelude.{◌≡◌};
ghost use Rattle.scene_model.specs.Wiring as spec;

/// An output bus as it is wired at some moment.
#[derive(Debug, Clone, Copy, PartialEq, Eq)]
pub struct Bus {
    /// The number of the node whose output it is, from 0.
    pub node: u32,
    /// The number of the output at that node, from 0.
    pub out: u8,
    /// The number of the node to whose input it is attached, where that is the number of nodes for
    /// the endpoint. `None` where it is attached nowhere.
    pub to: Option<u32>,
    /// The gain of the bus, in 1/65536, at most 1048576.
    pub gain: u32,
}

impl Bus {
    /// Whether it is this output of this node.
    pub fn is_output(&self, node: u32, out: u8) -> bool
        ensures { result ≡ spec.is_output node out self.now }
    {
        self.node == node && self.out == out
    }
}

/// The node to which an output is attached. `None` where it is attached nowhere, or where the buses
/// have no such output.
pub fn target(buses: &[Bus], node: u32, out: u8) -> Option<u32>
    ensures { result ≡ spec.target buses.now node out }
{
    for bus in buses {
        if bus.is_output(node, out) {
            return bus.to;
        }
    }
    None
}
