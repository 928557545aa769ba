//! The input of a node over a span: the sum of what the buses that are attached to it add.

ghost use Rattle.std.specs.Prelude.{◌≡◌, ◌≤◌, ◌<◌, ◌+◌, ◌*◌, ℕ, false, All, length, take, drop, IfOk};
ghost use Rattle.mix_fixed.specs.Kernels.{AreSamples, AreWithin, most_narrow_sum, most_share};
ghost use Rattle.scene_model.specs.IsPlan.{IsPlan};
ghost use Rattle.scene_model.specs.Limits as limits;
ghost use Rattle.scene_model.specs.Plans.{is_sound};
ghost use Rattle.mix_model.specs.OrderedBuses.{plan_of};
ghost use Rattle.engine.specs.FeedRoom.{HasFeedRoom, HasSums, most_narrow_buses};
ghost use Rattle.engine.specs.Span.{Span, AreAdded, AreFeeds, AreInputs, FeedsKept, IsFed, IsFedBy, IsSteadyAt, buses_at, node_places};

use mix_fixed::{Gain, add_scaled, add_scaled_narrow, settle, settle_narrow};
use mix_model::is_active;
use node_graph::Stage;
use plain_data::OutOfMemory;
use scene_model::{Bus, NodeState, Plan};
use std::alloc::Global;

/// The places of a node's samples: 512 frames of two channels.
pub(crate) const NODE_PLACES: usize = 1024;

/// The most buses whose sums fit words of 32 bits, whatever their gains are.
const MOST_NARROW_BUSES: usize = 14;

/// Room for the work on the input of a node.
#[derive(Drop)]
pub(crate) struct FeedRoom {
    /// The numbers of the buses that are attached to the node.
    numbers: Vec<u32>,
    /// The sums of what they add.
    sums: Sums,
}

/// Room for sums: in words of 32 bits, which are added up sooner, for few buses, and in words of 64 bits for any number.
#[derive(Drop)]
struct Sums {
    narrow: Vec<i32>,
    wide: Vec<i64>,
}

impl FeedRoom {
    /// Room for so many buses.
    pub(crate) fn new(alloc: Global, buses: usize) -> Result<FeedRoom, OutOfMemory>
        ensures { IfOk result (λ room. HasFeedRoom buses room) }
    {
        Ok(FeedRoom {
            numbers: vec![in alloc; 0u32; buses]?,
            sums: Sums {
                narrow: vec![in alloc; 0i32; NODE_PLACES]?,
                wide: vec![in alloc; 0i64; NODE_PLACES]?,
            },
        })
    }

    /// Mixes the input of a node over a span into the first `places` of its samples, at most 1024: the
    /// sums of what all buses attached to it add, brought back to 24 bits by saturation, once. `kept`
    /// has the outputs of the nodes that feed it, and `time` is the span's first frame: a bus whose node
    /// isn't active then adds nothing. The node is a group, a splitter or the endpoint.
    pub(crate) fn mix(
        &mut self,
        stage: &mut Stage,
        n: u32,
        time: u32,
        kept: &[i32],
        places: usize,
        samples: &mut [i32],
    )
        requires room { HasFeedRoom (length stage.old.buses) self.old }
        requires node { n ≤ length stage.old.nodes }
        requires input { is_sound stage.old.nodes n ≡ false }
        requires kept { length stage.old.nodes * node_places ≤ length kept.now }
        requires range { AreSamples kept.now }
        requires few { places ≤ node_places }
        requires samples { places ≤ length samples.old }
        requires samples_range { AreSamples samples.old }
        ensures room { HasFeedRoom (length stage.old.buses) self.new }
        ensures plan { stage.new ≡ stage.old }
        ensures inputs { (s : Span) → s.first.plan ≡ stage.old → s.first.time ≡ time → IsSteadyAt s places →
            FeedsKept s places n kept.now → AreInputs s places n samples.new }
        ensures range { AreSamples samples.new }
    {
        let count = stage.visit(n, self.numbers.as_mut_slice());
        let numbers = &self.numbers.as_slice()[..count as usize];
        let plan = stage.plan();
        mix_front(plan, numbers, time, kept, places, &mut self.sums, samples);
    }
}

/// Mixes what the buses of these numbers add into the first `places` samples.
fn mix_front(
    plan: &Plan,
    numbers: &[u32],
    time: u32,
    kept: &[i32],
    places: usize,
    sums: &mut Sums,
    samples: &mut [i32],
)
    requires numbers { All (λ number. number < length plan.now.buses) numbers.now }
    requires kept { length plan.now.nodes * node_places ≤ length kept.now }
    requires range { AreSamples kept.now }
    requires few { places ≤ node_places }
    requires sums { HasSums sums.old }
    requires samples { places ≤ length samples.old }
    requires samples_range { AreSamples samples.old }
    requires count { length numbers.now ≤ length plan.now.buses }
    ensures inputs { (s : Span) (n : ℕ) → s.first.plan ≡ plan.now →
        AreFeeds n plan.now.buses (buses_at plan.now.buses numbers.now) →
        IsFed s n time places plan.now.nodes (buses_at plan.now.buses numbers.now) kept.now →
        AreInputs s places n samples.new }
    ensures range { AreSamples samples.new }
    ensures sums { HasSums sums.new }
{
    let (nodes, buses) = (plan.nodes(), plan.buses());
    let out = &mut samples[..places];
    if numbers.len() <= MOST_NARROW_BUSES {
        let sums = &mut sums.narrow.as_mut_slice()[..places];
        mix_few(nodes, buses, numbers, time, kept, sums, out);
    } else {
        let sums = &mut sums.wide.as_mut_slice()[..places];
        mix_feeds(nodes, buses, numbers, time, kept, sums, out);
    }
}

/// Mixes what the buses of these numbers, at most 14, add.
fn mix_few(
    nodes: &[NodeState],
    buses: &[Bus],
    numbers: &[u32],
    time: u32,
    kept: &[i32],
    sums: &mut [i32],
    out: &mut [i32],
)
    requires plan { IsPlan (plan_of nodes.now buses.now) }
    requires numbers { All (λ number. number < length buses.now) numbers.now }
    requires count { length numbers.now ≤ most_narrow_buses }
    requires kept { length nodes.now * node_places ≤ length kept.now }
    requires samples { AreSamples kept.now }
    requires few { length sums.old ≤ node_places }
    requires same { length out.old ≡ length sums.old }
    ensures inputs { (s : Span) (n : ℕ) → s.first.plan ≡ plan_of nodes.now buses.now →
        AreFeeds n buses.now (buses_at buses.now numbers.now) →
        IsFed s n time (length out.old) nodes.now (buses_at buses.now numbers.now) kept.now →
        AreInputs s (length out.old) n out.new }
    ensures samples { AreSamples out.new }
{
    sums.fill(0);
    for number in numbers {
        add_few(nodes, &buses[*number as usize], time, kept, sums);
    }
    settle_narrow(sums, out);
}

/// Adds what one of few buses adds, where its node is active.
fn add_few(nodes: &[NodeState], bus: &Bus, time: u32, kept: &[i32], sums: &mut [i32])
    requires node { bus.now.node < length nodes.now }
    requires gain { bus.now.gain ≤ limits.most_gain }
    requires kept { length nodes.now * node_places ≤ length kept.now }
    requires samples { AreSamples kept.now }
    requires few { length sums.old ≤ node_places }
    requires sums { AreWithin most_narrow_sum sums.old }
    ensures added { (s : Span) (n : ℕ) →
        IsFedBy s n time (length sums.old) nodes.now bus.now kept.now →
        AreAdded s n bus.now sums.old sums.new }
    ensures within { (most : ℕ) → AreWithin most sums.old → AreWithin (most + most_share limits.most_gain) sums.new }
{
    if !is_active(&nodes[bus.node as usize], time) {
        return;
    }
    let Some(gain) = Gain::new(bus.gain) else {
        return
    };
    add_scaled_narrow(sums, kept_of(kept, bus.node, sums.len()), gain);
}

/// Mixes what the buses of these numbers add.
fn mix_feeds(
    nodes: &[NodeState],
    buses: &[Bus],
    numbers: &[u32],
    time: u32,
    kept: &[i32],
    sums: &mut [i64],
    out: &mut [i32],
)
    requires plan { IsPlan (plan_of nodes.now buses.now) }
    requires numbers { All (λ number. number < length buses.now) numbers.now }
    requires count { length numbers.now ≤ limits.most_buses }
    requires kept { length nodes.now * node_places ≤ length kept.now }
    requires samples { AreSamples kept.now }
    requires few { length sums.old ≤ node_places }
    requires same { length out.old ≡ length sums.old }
    ensures inputs { (s : Span) (n : ℕ) → s.first.plan ≡ plan_of nodes.now buses.now →
        AreFeeds n buses.now (buses_at buses.now numbers.now) →
        IsFed s n time (length out.old) nodes.now (buses_at buses.now numbers.now) kept.now →
        AreInputs s (length out.old) n out.new }
    ensures samples { AreSamples out.new }
{
    sums.fill(0);
    for number in numbers {
        add_feed(nodes, &buses[*number as usize], time, kept, sums);
    }
    settle(sums, out);
}

/// Adds what a bus adds, where its node is active.
fn add_feed(nodes: &[NodeState], bus: &Bus, time: u32, kept: &[i32], sums: &mut [i64])
    requires node { bus.now.node < length nodes.now }
    requires gain { bus.now.gain ≤ limits.most_gain }
    requires kept { length nodes.now * node_places ≤ length kept.now }
    requires samples { AreSamples kept.now }
    requires few { length sums.old ≤ node_places }
    requires sums { AreWithin (limits.most_buses * most_share limits.most_gain) sums.old }
    ensures added { (s : Span) (n : ℕ) →
        IsFedBy s n time (length sums.old) nodes.now bus.now kept.now →
        AreAdded s n bus.now sums.old sums.new }
    ensures within { (most : ℕ) → AreWithin most sums.old → AreWithin (most + most_share limits.most_gain) sums.new }
{
    if !is_active(&nodes[bus.node as usize], time) {
        return;
    }
    let Some(gain) = Gain::new(bus.gain) else {
        return
    };
    add_scaled(sums, kept_of(kept, bus.node, sums.len()), gain);
}

/// The first `count` samples that are kept of a node.
fn kept_of(kept: &[i32], node: u32, count: usize) -> &[i32]
    requires count { count ≤ node_places }
    requires node { (node + 1) * node_places ≤ length kept.now }
    ensures { result.now ≡ take count (drop (node * node_places) kept.now) }
{
    let from = node as usize * NODE_PLACES;
    &kept[from..from + count]
}
