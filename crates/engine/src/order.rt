//! The order of nodes and buses, by the length of the longest path to them.

ghost use Rattle.std.specs.Prelude.{◌≡◌, ◌≤◌, ◌<◌, ℕ, All, length, slice_index, Contains};
ghost use Rattle.std.specs.List.Sorted.{IsPermutation};
ghost use Rattle.scene_model.specs.IsPlan.{IsPlan};
ghost use Rattle.mix_model.specs.Depths.{AllRise, depth_at};
ghost use Rattle.mix_model.specs.OrderedBuses.{IsOrdered};
ghost use Rattle.engine.specs.Nodes.{IsOrderOf};

use mix_model::depths;
use scene_model::{Bus, Plan};

/// Puts the nodes and the buses of a plan in order: each node behind those that feed it, and the
/// buses in a topological order. `order` has the number of each node, in any order, and there is room
/// for all buses. It takes no memory.
pub(crate) fn put_in_order(plan: &Plan, order: &mut [u32], ordered_buses: &mut [Bus])
    requires numbers { All (λ n. n < length plan.now.nodes) order.old }
    requires whole { (n : ℕ) → n < length plan.now.nodes → Contains order.old n }
    requires room { length ordered_buses.old ≡ length plan.now.buses }
    ensures plan { IsPlan plan.now }
    ensures order { IsOrderOf plan.now order.new }
    ensures permutation { IsPermutation plan.now.buses ordered_buses.new }
    ensures ordered { IsOrdered ordered_buses.new }
{
    let buses = plan.buses();
    let depths = depths(buses);
    ordered_buses.copy_from_slice(buses);
    sort_buses(ordered_buses, &depths);
    sort_by_depth(order, &depths);
}

/// Puts buses in the order of the depths of their nodes.
fn sort_buses(buses: &mut [Bus], depths: &[u32])
    requires { AllRise (depth_at depths.now) buses.old }
    ensures permutation { IsPermutation buses.old buses.new }
    ensures ordered { IsOrdered buses.new }
{
    buses.sort_unstable_by_key(|bus| depth(depths, bus.node));
}

/// Puts nodes in the order of their depths.
fn sort_by_depth(order: &mut [u32], depths: &[u32])
    ensures permutation { IsPermutation order.old order.new }
    ensures behind { (k m : ℕ) → k < length order.new → Contains order.old m → depth_at depths.now m < depth_at depths.now (slice_index order.new k)
        → (i : ℕ) × (i < k) × (slice_index order.new i ≡ m) }
{
    order.sort_unstable_by_key(|n| depth(depths, *n));
}

/// The depth of a node.
fn depth(depths: &[u32], node: u32) -> u32
    ensures { result ≡ depth_at depths.now node }
{
    match depths.get(node as usize) {
        Some(depth) => *depth,
        None => 0,
    }
}
