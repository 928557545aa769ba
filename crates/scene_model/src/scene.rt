ghost use Rattle.std.specs.Prelude.{◌≡◌, ◌≤◌, length, Option, Some, None, IfOk, if◌then◌else◌};
ghost use Rattle.scene_model.specs.Buses as buses;
ghost use Rattle.scene_model.specs.Limits as limits;
ghost use Rattle.scene_model.specs.Order as order;

use crate::bus_row::BusRow;
use crate::copies::{copied_bus_rows, copied_edits, copied_nodes, copied_resources};
use crate::edit::EditRow;
use crate::node::Node;
use crate::order::{NumberedEdit, edits_of};
use crate::resource::Resource;
use plain_data::{OutOfMemory, Rows};
use std::alloc::Global;
use std::marker::Model;

/// A scene, as a script describes it. It keeps the limits of its fields by its type.
#[derive(Debug, Drop)]
pub struct Scene {
    /// The version of the script's form, 1.
    pub version: u32,
    /// The sample rate in Hz, 1 to 768000.
    pub rate: u32,
    /// The number of channels, 1 or 2.
    pub channels: u8,
    /// The bits of a sample of the output, 16 or 24.
    pub width: u8,
    /// The length in frames, 0 to 16777216.
    pub length: u32,
    /// The sound files, at most 64.
    pub resources: Rows<Resource>,
    /// The nodes without the endpoint, at most 128, with at most 256 output buses in all.
    pub nodes: Rows<Node>,
    /// How the output buses are wired at the start, at most 256 rows.
    pub buses: Rows<BusRow>,
    /// The edits, in the order of the script, at most 4096.
    pub edits: Rows<EditRow>,
}

impl Model for Scene {
    ghost use Rattle.scene_model.specs.SceneData.{SceneData};
    ghost use Rattle.scene_model.specs.IsScene.{IsScene};

    ghost Value = { SceneData };

    ghost view = { λ s. record { version = s.version; rate = s.rate; channels = s.channels; width = s.width; length = s.length; resources = s.resources; nodes = s.nodes; buses = s.buses; edits = s.edits } };

    ghost invariant = { λ s. IsScene (record { version = s.version; rate = s.rate; channels = s.channels; width = s.width; length = s.length; resources = s.resources; nodes = s.nodes; buses = s.buses; edits = s.edits }) };
}

impl Scene {
    /// The number of the endpoint, at most 128: the nodes have the numbers below it.
    pub fn endpoint(&self) -> u32
        ensures value { result ≡ length self.now.nodes }
        ensures most { result ≤ limits.most_nodes }
    {
        self.nodes.as_slice().len() as u32
    }

    /// The number of output buses of all nodes, at most 256.
    pub fn bus_count(&self) -> u32
        ensures value { result ≡ buses.bus_count self.now.nodes }
        ensures most { result ≤ limits.most_buses }
    {
        count_outputs(self.nodes.as_slice())
    }

    /// The number of an output bus among those of all nodes, by its node and the number of the output
    /// there: the buses of the nodes before, and then those of the outputs before. `None` where
    /// there is no such node, or it has no such output.
    pub fn bus_number(&self, node: u32, out: u8) -> Option<u32>
        ensures { result ≡ (if buses.has_bus self.now.nodes node out then Some (buses.bus_number self.now.nodes node out) else None) }
    {
        let nodes = self.nodes.as_slice();
        match nodes.get(node as usize) {
            Some(own) if out < own.kind.outputs() => {
                Some(count_outputs(&nodes[..node as usize]) + u32::from(out))
            }
            _ => None,
        }
    }

    /// The edits of one editor with the numbers of their rows, in the order of rows: the first edit of
    /// that editor, its second, and so on. The list is empty where no row has that editor.
    ///
    /// # Errors
    ///
    /// [`OutOfMemory`] where there is no memory.
    pub fn edits_of(&self, alloc: Global, editor: u8) -> Result<Rows<NumberedEdit>, OutOfMemory>
        ensures { IfOk result (λ edits. edits ≡ order.edits_of editor self.now.edits) }
    {
        edits_of(alloc, self.edits.as_slice(), editor)
    }

    /// A copy with memory of its own.
    ///
    /// # Errors
    ///
    /// [`OutOfMemory`] where there is no memory.
    pub fn try_clone(&self, alloc: Global) -> Result<Scene, OutOfMemory>
        ensures { IfOk result (λ copy. copy ≡ self.now) }
    {
        let resources = copied_resources(alloc, self.resources.as_slice())?;
        let nodes = copied_nodes(alloc, self.nodes.as_slice())?;
        let buses = copied_bus_rows(alloc, self.buses.as_slice())?;
        let edits = copied_edits(alloc, self.edits.as_slice())?;
        Ok(Scene {
            resources,
            nodes,
            buses,
            edits,
            ..*self
        })
    }
}

/// How many output buses these nodes have.
fn count_outputs(nodes: &[Node]) -> u32
    requires { buses.bus_count nodes.now ≤ limits.most_buses }
    ensures { result ≡ buses.bus_count nodes.now }
{
    nodes
        .iter()
        .map(|node| u32::from(node.kind.outputs()))
        .sum()
}
