ghost use Rattle.std.specs.Prelude.{◌≡◌, ◌≤◌, ◌<◌, map, IfOk, IsTrue, length, vec_len};
ghost use Rattle.std.specs.List.{list_all};
ghost use Rattle.toml.specs.View.{table_view};
ghost use Rattle.scene_model.specs.IsScene.{is_edit_row};
ghost use Rattle.scene_model.specs.Limits as limits;
ghost use Rattle.scene_script.specs.Checked.{Gives, GivesAs};
ghost use Rattle.scene_script.specs.EditRows as spec;

use crate::edit_keys::EditKeys;
use crate::fault::{SceneFault, TableKind, Which};
use crate::limits::MAX_EDITS;
use crate::op_word::OpWord;
use crate::place::Place;
use crate::script_error::ScriptError;
use crate::table_rows::table_rows;
use plain_data::Rows;
use scene_model::{EditRow, Node};
use std::alloc::Global;
use toml::Table;

/// The edits of a script, in the order of their rows.
#[tactic(auto, unfolding(crate::specs::EditRows::edits))]
pub(crate) fn read_edits(
    alloc: Global,
    script: &Table,
    nodes: &[Node],
) -> Result<Rows<EditRow>, ScriptError>
    requires { length nodes.now ≤ limits.most_nodes }
    ensures value { Gives result (spec.edits nodes.now (table_view script.now)) }
    ensures few { IfOk result (λ edits. length edits ≤ limits.most_edits) }
    ensures are { IfOk result (λ edits. IsTrue (list_all (is_edit_row (length nodes.now)) edits)) }
{
    let rows = table_rows(
        alloc,
        script,
        TableKind::Edit,
        "edit",
        Which::Edits,
        MAX_EDITS,
    )?;
    let edits = edit_rows(alloc, rows.as_slice(), nodes)?;
    Ok(Rows::new(edits))
}

fn edit_rows(alloc: Global, rows: &[&Table], nodes: &[Node]) -> Result<Vec<EditRow>, ScriptError>
    requires rows { length rows.now ≤ limits.most_edits }
    requires nodes { length nodes.now ≤ limits.most_nodes }
    ensures value { GivesAs (λ v. v.items) result (spec.edit_rows nodes.now (map (λ t. table_view t.now) rows.now)) }
    ensures few { IfOk result (λ v. vec_len v ≤ length rows.now) }
    ensures are { IfOk result (λ v. IsTrue (list_all (is_edit_row (length nodes.now)) v.items)) }
{
    let mut edits = Vec::new(alloc);
    for row in rows {
        let edit = edit_row(row, nodes, edits.as_slice())?;
        edits.push(edit)?;
    }
    Ok(edits)
}

/// A row, by those before it.
#[tactic(auto, unfolding(crate::specs::EditRows::edit_row))]
fn edit_row(row: &Table, nodes: &[Node], before: &[EditRow]) -> Result<EditRow, SceneFault>
    requires nodes { length nodes.now ≤ limits.most_nodes }
    requires before { length before.now < limits.most_edits }
    ensures value { result ≡ spec.edit_row nodes.now before.now (table_view row.now) }
    ensures is_row { IfOk result (λ e. IsTrue (is_edit_row (length nodes.now) e)) }
{
    let place = Place {
        table: TableKind::Edit,
        row: before.len() as u32 + 1,
    };
    let op = OpWord::read(row, place)?;
    let keys = EditKeys::read(row, place, nodes, op)?;
    keys.known(place, op, nodes.len())
}
