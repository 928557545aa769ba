ghost use Rattle.std.specs.Prelude.{◌≡◌, ◌≤◌, ◌++◌, map, IfOk, IsTrue, length};
ghost use Rattle.std.specs.List.{list_all};
ghost use Rattle.scene_model.specs.Buses.{bus_count};
ghost use Rattle.scene_model.specs.IsPlan.{can_apply};
ghost use Rattle.scene_model.specs.IsScene.{is_bus_row, is_edit, is_edit_row};
ghost use Rattle.scene_model.specs.Limits as limits;
ghost use Rattle.scene_model.specs.Opening.{row_edits, unwired};
ghost use Rattle.scene_model.specs.Plans.{after};
ghost use Rattle.scene_script.specs.Checked.{Gives};
ghost use Rattle.scene_script.specs.Limits as script_limits;
ghost use Rattle.scene_script.specs.Wiring as spec;

use crate::fault::{SceneFault, TableKind};
use crate::place::Place;
use crate::script_error::ScriptError;
use plain_data::OutOfMemory;
use scene_model::{BusRow, Edit, EditRow, Node, Plan, apply, edits_in_order};
use std::alloc::Global;

/// An edit that a row of the script stands for.
#[derive(Clone, Copy)]
pub(crate) struct PlacedEdit {
    pub(crate) place: Place,
    pub(crate) edit: Edit,
}

impl PlacedEdit {
    /// Makes the edit, which needs to be done.
    fn make(&self, plan: &mut Plan) -> Result<(), SceneFault>
        requires { IsTrue (can_apply plan.old self.now.edit) }
        ensures value { result ≡ spec.done plan.old self.now }
        ensures after { plan.new ≡ after plan.old self.now.edit }
    {
        let reply = apply(plan, &self.edit);
        if reply.is_done() {
            return Ok(());
        }
        Err(SceneFault::EditRefused {
            table: self.place.table,
            row: self.place.row,
            reply,
        })
    }
}

/// Tests that each edit of the script is done: the bus rows in order, and then the edits in the
/// order of their frames and rows, in a plan of the nodes alone.
#[tactic(auto, unfolding(crate::specs::Wiring::wired))]
pub(crate) fn check_edits(
    alloc: Global,
    nodes: &[Node],
    buses: &[BusRow],
    edits: &[EditRow],
) -> Result<(), ScriptError>
    requires nodes { length nodes.now ≤ limits.most_nodes }
    requires outputs { bus_count nodes.now ≤ limits.most_buses }
    requires buses { length buses.now ≤ limits.most_bus_rows }
    requires edits { length edits.now ≤ limits.most_edits }
    requires bus_rows { IsTrue (list_all (is_bus_row (length nodes.now)) buses.now) }
    requires edit_rows { IsTrue (list_all (is_edit_row (length nodes.now)) edits.now) }
    ensures { Gives result (spec.wired nodes.now buses.now edits.now) }
{
    let made = all_edits(alloc, buses, edits)?;
    make_all(alloc, nodes, made.as_slice())
}

/// Makes edits one after the other in a plan of the nodes alone, up to the first that isn't done.
fn make_all(alloc: Global, nodes: &[Node], edits: &[PlacedEdit]) -> Result<(), ScriptError>
    requires nodes { length nodes.now ≤ limits.most_nodes }
    requires outputs { bus_count nodes.now ≤ limits.most_buses }
    requires few { length edits.now ≤ script_limits.most_made }
    requires are { IsTrue (list_all (λ e. is_edit (length nodes.now) e.edit) edits.now) }
    ensures { Gives result (spec.all_done (unwired nodes.now) edits.now) }
{
    let mut plan = Plan::unwired(alloc, nodes)?;
    for edit in edits {
        edit.make(&mut plan)?;
    }
    Ok(())
}

/// The edits that the rows stand for, in the order in which they are made.
fn all_edits(
    alloc: Global,
    buses: &[BusRow],
    edits: &[EditRow],
) -> Result<Vec<PlacedEdit>, OutOfMemory>
    requires buses { length buses.now ≤ limits.most_bus_rows }
    requires edits { length edits.now ≤ limits.most_edits }
    ensures { IfOk result (λ v. v.items ≡ spec.all_edits buses.now edits.now) }
{
    let mut all = Vec::new(alloc);
    push_buses(&mut all, buses)?;
    let ordered = edits_in_order(alloc, edits)?;
    for edit in ordered.as_slice() {
        let place = Place {
            table: TableKind::Edit,
            row: edit.number + 1,
        };
        let edit = edit.row.edit;
        all.push(PlacedEdit { place, edit })?;
    }
    Ok(all)
}

/// Appends the edits of bus rows.
fn push_buses(all: &mut Vec<PlacedEdit>, buses: &[BusRow]) -> Result<(), OutOfMemory>
    requires { length buses.now ≤ limits.most_bus_rows }
    ensures { IfOk result (λ _. all.new.items ≡ all.old.items ++ spec.bus_edits 1 buses.now) }
{
    for (number, bus) in buses.iter().enumerate() {
        let place = Place {
            table: TableKind::Bus,
            row: number as u32 + 1,
        };
        push_bus(all, place, bus)?;
    }
    Ok(())
}

/// Appends the edits of a bus row: a gain edit and, where the row has a target, an attach edit.
fn push_bus(all: &mut Vec<PlacedEdit>, place: Place, bus: &BusRow) -> Result<(), OutOfMemory>
    ensures { IfOk result (λ _. all.new.items ≡ all.old.items ++ map (spec.placed place) (row_edits bus.now)) }
{
    let (node, out, gain) = (bus.node, bus.out, bus.gain);
    let edit = Edit::SetGain { node, out, gain };
    all.push(PlacedEdit { place, edit })?;
    if let Some(to) = bus.to {
        let edit = Edit::Attach { node, out, to };
        all.push(PlacedEdit { place, edit })?;
    }
    Ok(())
}
