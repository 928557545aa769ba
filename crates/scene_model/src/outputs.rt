//! The output buses of nodes, as they are before any of them is wired.

ghost use Rattle.std.specs.Prelude.{◌≡◌, ◌≤◌, ◌<◌, ◌++◌, length, IfOk};
ghost use Rattle.scene_model.specs.Limits as limits;
ghost use Rattle.scene_model.specs.Opening as spec;

use crate::bus::Bus;
use crate::node::Node;
use mix_fixed::UNITY_GAIN;
use plain_data::OutOfMemory;
use std::alloc::Global;

/// The output buses of these nodes, node by node, attached nowhere and at gain 1.0.
pub(crate) fn unattached_outputs(alloc: Global, nodes: &[Node]) -> Result<Vec<Bus>, OutOfMemory>
    requires { length nodes.now ≤ limits.most_nodes }
    ensures { IfOk result (λ buses. buses.items ≡ spec.all_outputs 0 nodes.now) }
{
    let mut buses = Vec::new(alloc);
    for (number, node) in nodes.iter().enumerate() {
        push_outputs(&mut buses, number as u32, node.kind.outputs())?;
    }
    Ok(buses)
}

/// Puts that many outputs of a node behind the buses.
fn push_outputs(buses: &mut Vec<Bus>, node: u32, outputs: u8) -> Result<(), OutOfMemory>
    ensures { IfOk result (λ _. buses.new.items ≡ buses.old.items ++ spec.outputs_of node outputs) }
{
    for out in 0..outputs {
        buses.push(Bus {
            node,
            out,
            to: None,
            gain: UNITY_GAIN,
        })?;
    }
    Ok(())
}
