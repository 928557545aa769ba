ghost use Rattle.std.specs.Prelude.{◌≡◌, ◌≢◌, ◌≤◌, ◌↔◌, ℕ, length, IsTrue, IfOk, fold};
ghost use Rattle.scene_model.specs.Buses.{bus_count};
ghost use Rattle.scene_model.specs.IsPlan.{IsPlan, can_apply};
ghost use Rattle.scene_model.specs.IsScene.{is_bus_row};
ghost use Rattle.scene_model.specs.Limits as limits;
ghost use Rattle.scene_model.specs.Opening as spec;
ghost use Rattle.scene_model.specs.Plans.{reply, after};
ghost use Rattle.scene_model.specs.Reach as reach;

use crate::bus::Bus;
use crate::bus_row::BusRow;
use crate::changes::make;
use crate::conditions::can_be_made;
use crate::edit::Edit;
use crate::node::Node;
use crate::node_state::{NodeState, states};
use crate::outputs::unattached_outputs;
use crate::reach::reaches;
use crate::refusals::reply_to;
use crate::reply::Reply;
use crate::scene::Scene;
use plain_data::OutOfMemory;
use std::alloc::Global;
use std::marker::Model;

/// How a scene is wired at some moment: each output bus with its target and gain, and each node
/// with its kind and its settings. It has at most 128 nodes, with at most 256 output buses in all. No
/// node of it is reached from itself along attached buses.
#[derive(Debug, Drop)]
pub struct Plan {
    nodes: Vec<NodeState>,
    buses: Vec<Bus>,
}

impl Model for Plan {
    ghost use Rattle.scene_model.specs.Buses.{bus_count};
    ghost use Rattle.scene_model.specs.IsPlan.{IsPlan};
    ghost use Rattle.scene_model.specs.PlanData.{PlanData};

    ghost Value = { PlanData };

    ghost view = { λ p. record { nodes = p.nodes.items; buses = p.buses.items } };

    ghost invariant = { λ p. IsPlan (record { nodes = p.nodes.items; buses = p.buses.items }) };
}

impl Plan {
    /// The plan with which a scene begins: each node as its row has it, with no seek counted, and
    /// every output bus unattached at gain 1.0. Then the bus rows are applied as edits, in order: a
    /// gain edit and, where the row has a target, an attach edit. A row that is refused changes
    /// nothing.
    ///
    /// # Errors
    ///
    /// [`OutOfMemory`] where there is no memory; nothing has changed then.
    pub fn opening(alloc: Global, scene: &Scene) -> Result<Plan, OutOfMemory>
        ensures { IfOk result (λ p. p ≡ spec.opening scene.now) }
    {
        let mut plan = Plan::unwired(alloc, scene.nodes.as_slice())?;
        for row in scene.buses.as_slice() {
            plan.apply_row(row);
        }
        Ok(plan)
    }

    /// The nodes, in the order of their numbers.
    pub fn nodes(&self) -> &[NodeState]
        ensures value { result.now ≡ self.now.nodes }
        ensures plan { IsPlan self.now }
    {
        self.nodes.as_slice()
    }

    /// The output buses, in the order of their numbers: node by node, and for each node from output
    /// 0 on.
    pub fn buses(&self) -> &[Bus]
        ensures value { result.now ≡ self.now.buses }
        ensures plan { IsPlan self.now }
    {
        self.buses.as_slice()
    }

    /// Whether an edit may be applied, be it done or refused: its node is one of the plan's, and its
    /// target one of these or the endpoint; the place of a seek is at most 140737488355327, and the
    /// node that is sought had fewer than 131071 seeks so far.
    pub fn can_apply(&self, edit: &Edit) -> bool
        ensures { result ≡ can_apply self.now edit.now }
    {
        can_be_made(self.nodes.as_slice(), edit)
    }

    /// Whether some path of attached buses leads from one node to another, one of which may be the
    /// endpoint. A node reaches itself, by the empty path. The work grows with the number of buses
    /// times the number of nodes, and not with the number of paths.
    pub fn reaches(&self, from: u32, to: u32) -> bool
        requires from { from ≤ length self.now.nodes }
        requires to { to ≤ length self.now.nodes }
        ensures value { result ≡ reach.reaches self.now.buses from to }
        ensures law { IsTrue result ↔ reach.Reaches self.now.buses from to }
    {
        reaches(self.buses.as_slice(), from, to)
    }

    /// A plan of nodes alone, at most 128 with at most 256 outputs in all: each node as its row has
    /// it, with no seek counted, and every output bus unattached at gain 1.0.
    ///
    /// # Errors
    ///
    /// [`OutOfMemory`] where there is no memory; nothing has changed then.
    pub fn unwired(alloc: Global, nodes: &[Node]) -> Result<Plan, OutOfMemory>
        requires nodes { length nodes.now ≤ limits.most_nodes }
        requires outputs { bus_count nodes.now ≤ limits.most_buses }
        ensures { IfOk result (λ p. p ≡ spec.unwired nodes.now) }
    {
        let buses = unattached_outputs(alloc, nodes)?;
        let nodes = states(alloc, nodes)?;
        Ok(Plan { nodes, buses })
    }

    fn apply_row(&mut self, row: &BusRow)
        requires { IsTrue (is_bus_row (length self.old.nodes) row.now) }
        ensures { self.new ≡ spec.after_row self.old row.now }
    {
        let (node, out) = (row.node, row.out);
        apply(
            self,
            &Edit::SetGain {
                node,
                out,
                gain: row.gain,
            },
        );
        if let Some(to) = row.to {
            apply(self, &Edit::Attach { node, out, to });
        }
    }
}

/// Makes an edit, or refuses it and leaves the plan as it was. It takes no memory. The edit's node
/// is one of the plan's and its target one of these or the endpoint. The place of a seek is at most
/// 140737488355327, and a node that is sought had fewer than 131071 seeks so far.
pub fn apply(plan: &mut Plan, edit: &Edit) -> Reply
    requires { IsTrue (can_apply plan.old edit.now) }
    ensures reply { result ≡ reply plan.old edit.now }
    ensures after { plan.new ≡ after plan.old edit.now }
    ensures refused { result ≢ Reply.Done → plan.new ≡ plan.old }
{
    let reply = reply_to(plan.nodes.as_slice(), plan.buses.as_slice(), edit);
    if reply.is_done() {
        make(plan.nodes.as_mut_slice(), plan.buses.as_mut_slice(), edit);
    }
    reply
}
