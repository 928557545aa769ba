//! Laws of scenes and plans. The functions do nothing.

ghost use Rattle.std.specs.Prelude.{◌≡◌, ◌<◌, ◌==◌, ℕ, Bool, List, Some, IsTrue, filter, fold, length, map, nat_le, nat_lt, slice_get};
ghost use Rattle.std.specs.List.{list_all};
ghost use Rattle.std.specs.List.Sorted.{IsNonDecreasingBy};
ghost use Rattle.scene_model.specs.declared.edit.Edit.{Edit};
ghost use Rattle.scene_model.specs.declared.edit.EditRow.{EditRow};
ghost use Rattle.scene_model.specs.declared.order.NumberedEdit.{NumberedEdit};
ghost use Rattle.scene_model.specs.Buses.{bus_number, has_bus};
ghost use Rattle.scene_model.specs.IsPlan.{AreTimesInRange, TakesEdits, kinds, output_of};
ghost use Rattle.scene_model.specs.IsScene.{IsScene, is_edit};
ghost use Rattle.scene_model.specs.Limits as limits;
ghost use Rattle.scene_model.specs.Opening.{opening};
ghost use Rattle.scene_model.specs.Order.{in_order, numbered};
ghost use Rattle.scene_model.specs.PlanData.{PlanData};
ghost use Rattle.scene_model.specs.Plans.{after};
ghost use Rattle.scene_model.specs.Reach.{HasNoCycle};
ghost use Rattle.scene_model.specs.SceneData.{SceneData};
ghost use Rattle.scene_model.specs.Times.{edits_at, plan};

use crate::edit::{Edit, EditRow};
use crate::plan::Plan;
use crate::scene::Scene;

/// A law: whatever edits are made from the plan with which a scene begins, no node is reached from
/// itself along one or more attached buses. So it is with the scene's own edits, at each frame.
pub fn no_plan_has_a_cycle(scene: &Scene, edits: &[Edit])
    ensures after_edits { HasNoCycle (fold after (opening scene.now) edits.now).buses }
    ensures at_frame { (t : ℕ) → HasNoCycle (plan scene.now t).buses }
{}

/// A law: no edit changes the kind of a node, nor which outputs there are and in which order.
pub fn edits_keep_kinds_and_outputs(plan: &Plan, edit: &Edit)
    ensures kinds { kinds (after plan.now edit.now).nodes ≡ kinds plan.now.nodes }
    ensures outputs { map output_of (after plan.now edit.now).buses ≡ map output_of plan.now.buses }
{}

/// A law: in the plan with which a scene begins, after any edits, and at each frame, the bus of a
/// number is the output that has that number.
pub fn buses_have_their_numbers(scene: &Scene, edits: &[Edit])
    ensures after_edits { (node out : ℕ) → IsTrue (has_bus scene.now.nodes node out) →
        slice_get (map output_of (fold after (opening scene.now) edits.now).buses) (bus_number scene.now.nodes node out) ≡ Some (node, out) }
    ensures at_frame { (t node out : ℕ) → IsTrue (has_bus scene.now.nodes node out) →
        slice_get (map output_of (plan scene.now t).buses) (bus_number scene.now.nodes node out) ≡ Some (node, out) }
{}

/// A law: in the plan with which a scene begins each node's times are frames that a row may name, 0
/// to 16777216. So they are after each edit that a scene may have, in whatever order these are made,
/// and at each frame.
pub fn times_stay_in_range()
    ensures after_edit { (nodes : ℕ) (p : PlanData) (e : Edit) → IsTrue (is_edit nodes e) → AreTimesInRange p →
        AreTimesInRange (after p e) }
    ensures after_edits { (s : SceneData) (edits : List Edit) → IsScene s → IsTrue (list_all (is_edit (length s.nodes)) edits) →
        AreTimesInRange (fold after (opening s) edits) }
    ensures at_frame { (s : SceneData) (t : ℕ) → IsScene s → AreTimesInRange (plan s t) }
{}

/// A law: after fewer than 131071 edits from the plan with which a scene begins, each edit that a
/// scene of these nodes may have may be applied.
pub fn a_plan_takes_the_edits_of_a_scene(scene: &Scene, edits: &[Edit])
    requires { length edits.now < limits.most_seeks }
    ensures { TakesEdits (length scene.now.nodes) (fold after (opening scene.now) edits.now) }
{}

/// A law: the edits in order are those of the script, each with the number of its row: as many,
/// none before one of an earlier frame, and at each frame the same ones, in the order of their rows.
/// What holds of every row holds of each of them.
pub fn edits_are_ordered_by_frames(rows: &[EditRow])
    ensures length { length (in_order rows.now) ≡ length rows.now }
    ensures numbers { IsTrue (list_all (λ (e : NumberedEdit). nat_lt e.number (length rows.now)) (in_order rows.now)) }
    ensures sorted { IsNonDecreasingBy (λ (e : NumberedEdit). e.row.at) (in_order rows.now) }
    ensures frames { (t : ℕ) → filter (λ (e : NumberedEdit). e.row.at == t) (in_order rows.now) ≡ filter (λ (e : NumberedEdit). e.row.at == t) (numbered 0 rows.now) }
    ensures edits { (t : ℕ) → edits_at (map (λ (e : NumberedEdit). e.row) (in_order rows.now)) t ≡ edits_at rows.now t }
    ensures kept { (p : EditRow → Bool) → IsTrue (list_all p rows.now) → IsTrue (list_all p (map (λ (e : NumberedEdit). e.row) (in_order rows.now))) }
{}

/// A law: the plan at a frame is the plan with which the scene begins after all edits of that frame
/// and of those before it, in the order of their frames and then of their rows.
pub fn plan_is_all_edits_so_far(scene: &Scene)
    ensures { (t : ℕ) → plan scene.now t ≡ fold after (opening scene.now)
        (map (λ (e : NumberedEdit). e.row.edit) (filter (λ (e : NumberedEdit). nat_le e.row.at t) (in_order scene.now.edits))) }
{}
