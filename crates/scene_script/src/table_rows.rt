ghost use Rattle.std.specs.Prelude.{◌≤◌, map, IfOk, vec_len};
ghost use Rattle.toml.specs.View.{table_view, view};
ghost use Rattle.scene_script.specs.Checked.{GivesAs};
ghost use Rattle.scene_script.specs.Reads.{ReadsTable};
ghost use Rattle.scene_script.specs.TableRows as spec;

use crate::bounds::Bounds;
use crate::fault::{SceneFault, TableKind, Which};
use crate::fields::member;
use crate::place::Place;
use crate::script_error::ScriptError;
use std::alloc::Global;
use toml::{Table, Value};

/// The rows at a key of the top level, which is an array of tables of at most that many. There are
/// none where the key is absent.
#[tactic(auto, unfolding(crate::specs::TableRows::rows_at))]
pub(crate) fn table_rows<'a>(
    alloc: Global,
    script: &'a Table,
    kind: TableKind,
    key: &str,
    which: Which,
    most: u32,
) -> Result<Vec<&'a Table>, ScriptError>
    ensures value { GivesAs (λ v. map (λ t. table_view t.now) v.items) result (spec.rows_at kind key.now which most (table_view script.now)) }
    ensures few { IfOk result (λ v. vec_len v ≤ most) }
{
    match member(script, key) {
        Some(value) => {
            let rows = tables(
                alloc,
                value,
                Place {
                    table: kind,
                    row: 0,
                },
            )?;
            let bounds = Bounds {
                which,
                least: 0,
                most: u64::from(most),
            };
            bounds.checked(rows.len() as i64)?;
            Ok(rows)
        }
        None => Ok(Vec::new(alloc)),
    }
}

/// The tables of an array of tables.
#[tactic(auto, using(crate::proofs::Rows::item_list_of))]
fn tables(alloc: Global, value: &Value, place: Place) -> Result<Vec<&Table>, ScriptError>
    ensures { GivesAs (λ v. map (λ t. table_view t.now) v.items) result (spec.tables_of place (view value.now)) }
{
    match value.as_array() {
        Some(items) => all_tables(alloc, items.as_slice(), place),
        None => Err(place.wrong_kind().into()),
    }
}

/// The values, each of which is a table.
fn all_tables(alloc: Global, items: &[Value], place: Place) -> Result<Vec<&Table>, ScriptError>
    ensures { GivesAs (λ v. map (λ t. table_view t.now) v.items) result (spec.all_tables place (map view items.now)) }
{
    let mut tables = Vec::new(alloc);
    for item in items {
        let table = table_of(item, place)?;
        tables.push(table)?;
    }
    Ok(tables)
}

/// The table that a value is.
fn table_of(value: &Value, place: Place) -> Result<&Table, SceneFault>
    ensures { ReadsTable result (spec.table_of place (view value.now)) }
{
    value.as_table().ok_or(place.wrong_kind())
}
