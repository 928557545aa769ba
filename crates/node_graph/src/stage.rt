ghost use Rattle.std.specs.Prelude.{◌≡◌, ◌≢◌, ◌+◌, ◌*◌, ◌≤◌, ◌<◌, IsTrue, IfOk, Some, false, drop, length, slice_get, take, IsPermutation};
ghost use Rattle.scene_model.specs.IsPlan.{can_apply};
ghost use Rattle.scene_model.specs.Opening.{opening};
ghost use Rattle.scene_model.specs.Plans.{after, is_sound, reply};
ghost use Rattle.node_graph.specs.Attached.{attached};
ghost use Rattle.mix_model.specs.Board.{board};

use crate::attached::write_attached;
use crate::board::board_word;
use crate::input_list::InputList;
use crate::inputs::{change, inputs_of};
use crate::list_changes::list_change;
use plain_data::OutOfMemory;
use scene_model::{Edit, Plan, Reply, Scene, apply};
use std::alloc::Global;
use std::fmt;
use std::fmt::{Debug, Formatter};
use std::marker::Model;

/// A plan with a linked list for each input of the buses that are attached to it. Contracts see the
/// plan.
#[derive(Drop)]
pub struct Stage {
    plan: Plan,
    inputs: Vec<InputList>,
}

impl Model for Stage {
    ghost use Rattle.scene_model.specs.PlanData.{PlanData};
    ghost use Rattle.node_graph.specs.ListData.{AreInputsOf};

    ghost Value = { PlanData };

    ghost view = { λ s. s.plan };

    ghost invariant = { λ s. AreInputsOf s.plan s.inputs.items };
}

impl Stage {
    /// The stage with which a scene begins: its opening plan and the lists of that.
    ///
    /// # Errors
    ///
    /// [`OutOfMemory`] where there is no memory; nothing has changed then.
    pub fn open(alloc: Global, scene: &Scene) -> Result<Stage, OutOfMemory>
        ensures { IfOk result (λ stage. stage ≡ opening scene.now) }
    {
        let plan = Plan::opening(alloc, scene)?;
        let inputs = inputs_of(alloc, &plan)?;
        Ok(Stage { plan, inputs })
    }

    /// The plan that the stage means.
    pub fn plan(&self) -> &Plan
        ensures { result.now ≡ self.now }
    {
        &self.plan
    }

    /// Makes an edit, or refuses it and leaves the stage as it was. It takes no memory. The edit's
    /// node is one of the plan's and its target one of these or the endpoint. The place of a seek is
    /// at most 140737488355327, and a node that is sought had fewer than 131071 seeks so far.
    pub fn edit(&mut self, edit: &Edit) -> Reply
        requires { IsTrue (can_apply self.old edit.now) }
        ensures reply { result ≡ reply self.old edit.now }
        ensures after { self.new ≡ after self.old edit.now }
        ensures refused { result ≢ Reply.Done → self.new ≡ self.old }
    {
        let list_change = list_change(self.plan.buses(), edit);
        let reply = apply(&mut self.plan, edit);
        if reply.is_done() {
            change(self.inputs.as_mut_slice(), list_change);
        }
        reply
    }

    /// The word at a place of the board. The board has five words for each node, without the
    /// endpoint, in the order of nodes: whether it is started (0 or 1), its first frame, the frame
    /// from which on it is no longer active, its seeks, and whether it is looped (0 or 1). Then it has
    /// one word for each bus, its gain. The word of seeks is 140737488355328 times the number of
    /// seeks of that node so far, and the place of the last one; it is 0 before the first, and for a
    /// group or a splitter. It takes no memory. The place is one of the board.
    pub fn dial(&self, place: u32) -> u64
        requires { place < 5 * length self.now.nodes + length self.now.buses }
        ensures { slice_get (board self.now) place ≡ Some result }
    {
        board_word(&self.plan, place)
    }

    /// Writes the numbers of the buses that are attached to a node, each once and in any order, to
    /// the front of a slice, and answers how many they are. The rest of the slice stays as it was,
    /// and so does the plan. It takes no memory. The node has an input: it is a group, a splitter or
    /// the endpoint, whose number is that of the nodes. The slice has room for one number per bus of
    /// the scene.
    pub fn visit(&mut self, node: u32, into: &mut [u32]) -> u32
        requires node { node ≤ length self.old.nodes }
        requires input { is_sound self.old.nodes node ≡ false }
        requires room { length self.old.buses ≤ length into.old }
        ensures count { result ≡ length (attached self.old.buses node) }
        ensures written { IsPermutation (attached self.old.buses node) (take result into.new) }
        ensures rest { drop result into.new ≡ drop result into.old }
        ensures plan { self.new ≡ self.old }
    {
        let buses = self.plan.buses();
        let input = &mut self.inputs[node as usize];
        if buses.is_empty() || !input.is_kept() {
            return write_attached(buses, node, into) as u32;
        }
        input.visit(into) as u32
    }
}

impl Debug for Stage {
    fn fmt<W: fmt::Write>(&self, f: &mut Formatter<W>) -> fmt::Result {
        f.debug_struct("Stage")
            .field("plan", &self.plan)
            .finish_non_exhaustive()
    }
}
