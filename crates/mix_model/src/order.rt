//! A topological order of the buses: each input is whole before it is passed on.

ghost use Rattle.std.specs.Prelude.{◌≡◌, ◌+◌, ◌<◌, ◌≤◌, true, false, ℕ, length, All, IfOk, sum};
ghost use Rattle.std.specs.List.Sorted.{IsPermutation};
ghost use Rattle.scene_model.specs.IsPlan.{IsBusOf};
ghost use Rattle.scene_model.specs.Limits as limits;
ghost use Rattle.scene_model.specs.Reach.{HasNoCycle};
ghost use Rattle.mix_model.specs.OrderedBuses.{IsOrdered};
ghost use Rattle.mix_model.specs.Depths.{depth_at, AreAtMost, AreLeast, AllRise, Rises, StaysBelow, IsDeeper};

use plain_data::OutOfMemory;
use scene_model::{Bus, MAX_NODES};
use std::alloc::Global;

/// The most inputs of a plan: one for each node, and one for the endpoint. Lists by node have as many
/// places, of which that behind the nodes is the endpoint's.
pub const MAX_INPUTS: usize = MAX_NODES + 1;

/// The buses of a plan, at most 256, in a topological order: no bus leads to its own node or to that of
/// a bus before it. It goes by the length of the longest path to their node.
///
/// # Errors
///
/// [`OutOfMemory`] where there is no memory.
pub fn topological_order(alloc: Global, buses: &[Bus]) -> Result<Vec<Bus>, OutOfMemory>
    requires buses { All (IsBusOf limits.most_nodes) buses.now }
    requires no_cycle { HasNoCycle buses.now }
    requires most { length buses.now ≤ limits.most_buses }
    ensures permutation { IfOk result (λ ordered_buses. IsPermutation buses.now ordered_buses.items) }
    ensures ordered { IfOk result (λ ordered_buses. IsOrdered ordered_buses.items) }
{
    let depths = depths(buses);
    let mut ordered_buses = Vec::from_slice(alloc, buses)?;
    ordered_buses.sort_unstable_by_key(|bus| depth(&depths, bus.node));
    Ok(ordered_buses)
}

/// A depth for each node and for the endpoint, by its number: each attached bus leads to a deeper one.
/// The buses are those of a plan. It is the length of the longest path of attached buses to the node.
pub fn depths(buses: &[Bus]) -> [u32; MAX_INPUTS]
    requires buses { All (IsBusOf limits.most_nodes) buses.now }
    requires no_cycle { HasNoCycle buses.now }
    requires most { length buses.now ≤ limits.most_buses }
    ensures rises { AllRise (depth_at result) buses.now }
    ensures least { AreLeast buses.now result }
{
    let mut depths = [0; MAX_INPUTS];
    settle(buses, &mut depths);
    depths
}

/// Sets depths, from 0 on: each attached bus leads to a deeper node.
fn settle(buses: &[Bus], depths: &mut [u32])
    requires buses { All (IsBusOf limits.most_nodes) buses.now }
    requires no_cycle { HasNoCycle buses.now }
    requires most { length buses.now ≤ limits.most_buses }
    requires depths { length depths.old ≡ limits.most_nodes + 1 }
    ensures rises { AllRise (depth_at depths.new) buses.now }
    ensures least { AreLeast buses.now depths.new }
{
    depths.fill(0);
    while deepen(buses, depths) {}
}

/// Brings the target of each bus deeper than its node, where it isn't yet. Answers whether one was
/// changed.
fn deepen(buses: &[Bus], depths: &mut [u32]) -> bool
    requires buses { All (IsBusOf limits.most_nodes) buses.now }
    requires most { length buses.now ≤ limits.most_buses }
    requires depths { length depths.old ≡ limits.most_nodes + 1 }
    requires within { AreAtMost limits.most_buses depths.old }
    ensures kept { StaysBelow buses.now depths.old depths.new }
    ensures deeper { result ≡ true → sum depths.old < sum depths.new }
    ensures settled { result ≡ false → AllRise (depth_at depths.new) buses.now }
{
    let mut is_deeper = false;
    for bus in buses {
        if deepen_target(bus, depths) {
            is_deeper = true;
        }
    }
    is_deeper
}

/// Brings the target of a bus deeper than its node, where it isn't yet. Answers whether it was
/// changed.
fn deepen_target(bus: &Bus, depths: &mut [u32]) -> bool
    requires bus { IsBusOf limits.most_nodes bus.now }
    requires depths { length depths.old ≡ limits.most_nodes + 1 }
    requires within { AreAtMost 65536 depths.old }
    ensures deeper { result ≡ true → IsDeeper bus.now depths.old depths.new }
    ensures settled { result ≡ false → (depths.new ≡ depths.old) × Rises (depth_at depths.old) bus.now }
{
    let Some(to) = bus.to else { return false };
    let least = depths[bus.node as usize] + 1;
    if depths[to as usize] >= least {
        return false;
    }
    depths[to as usize] = least;
    true
}

/// The depth of a node.
fn depth(depths: &[u32], node: u32) -> u32
    ensures { result ≡ depth_at depths.now node }
{
    match depths.get(node as usize) {
        Some(depth) => *depth,
        None => 0,
    }
}
