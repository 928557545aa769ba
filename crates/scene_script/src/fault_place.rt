ghost use Rattle.std.specs.Prelude.{◌≡◌, IfOk, codes, map, option_map};
ghost use Rattle.std.specs.List.{list_any};
ghost use Rattle.toml.specs.View.{table_view, view};
ghost use Rattle.scene_script.specs.FaultKeys.{is_text_of, unknown_key};
ghost use Rattle.scene_script.specs.FaultPlaces as spec;

use crate::fault::{SceneFault, TableKind, Which};
use crate::fault_keys::{RowForm, missing_key, unfit_key, unknown_key};
use crate::fault_rows::{RowPlace, items, row_at, text_in};
use crate::lines::row_line;
use crate::read::document;
use crate::script_error::ScriptError;
use plain_data::{OutOfMemory, Text};
use std::alloc::Global;
use toml::{Table, Value};

/// Where a fault stands in the text of a script.
#[derive(Debug, PartialEq, Eq, Drop)]
pub struct FaultPlace {
    /// The table.
    pub table: TableKind,
    /// The number of the row, from 1; the number 0 stands for the table as a whole.
    pub row: usize,
    /// The form of the row, by which it has its keys.
    pub form: RowForm,
    /// The key, where the fault is one of a key.
    pub key: Option<Text>,
    /// The number of the line with the row's header, from 1, where each row of the table has one.
    pub line: Option<usize>,
}

/// Where the fault of a script stands in its text: the fault is the one that
/// [`read_scene`](crate::read_scene) answers for this text. It is nowhere in a text that isn't TOML.
///
/// The key is the first one that a fault of this kind may be at: of those that a row lacks, of those
/// with a value of another form, or of those that it may not have, which come in the order of their bytes. A
/// line is told where the text has no string of several lines, and the lines that begin with the
/// header `[[..]]` are as many as the rows of the table.
///
/// # Errors
///
/// Want of memory.
#[tactic(auto, unfolding(crate::specs::FaultPlaces::fault_place))]
pub fn locate(
    alloc: Global,
    text: &[u8],
    fault: SceneFault,
) -> Result<Option<FaultPlace>, OutOfMemory>
    ensures { IfOk result (λ place. place ≡ spec.fault_place text.now fault) }
{
    match document(alloc, text) {
        Ok(script) => {
            let place = place_in(alloc, text, fault, &script)?;
            Ok(Some(place))
        }
        Err(ScriptError::Fault(_)) => Ok(None),
        Err(ScriptError::OutOfMemory) => Err(OutOfMemory),
    }
}

/// Where a fault stands in a document.
#[tactic(auto, unfolding(crate::specs::FaultPlaces::place_in))]
fn place_in(
    alloc: Global,
    text: &[u8],
    fault: SceneFault,
    script: &Table,
) -> Result<FaultPlace, OutOfMemory>
    ensures { IfOk result (λ place. place ≡ spec.place_in text.now fault (table_view script.now)) }
{
    let place = RowPlace::of(fault, script);
    let row = row_at(script, place);
    place_with(alloc, text, fault, script, place, row)
}

#[tactic(auto, unfolding(crate::specs::FaultPlaces::place_with))]
fn place_with(
    alloc: Global,
    text: &[u8],
    fault: SceneFault,
    script: &Table,
    place: RowPlace,
    row: Option<&Table>,
) -> Result<FaultPlace, OutOfMemory>
    ensures { IfOk result (λ found. found ≡ spec.place_with text.now fault (table_view script.now) place (option_map (λ t. table_view t.now) row.entry)) }
{
    let RowPlace { table, row: number } = place;
    let line = row_line(alloc, text, table, items(script, table).len(), number)?;
    match row {
        Some(row) => {
            let key = key_text(alloc, fault, items(script, TableKind::Node), table, row)?;
            Ok(FaultPlace {
                table,
                row: number,
                form: RowForm::of(table, row),
                key,
                line,
            })
        }
        None => Ok(FaultPlace {
            table,
            row: number,
            form: table_form(table),
            key: None,
            line,
        }),
    }
}

fn table_form(table: TableKind) -> RowForm
    ensures { result ≡ spec.table_form table }
{
    match table {
        TableKind::Scene => RowForm::Scene,
        TableKind::Resource => RowForm::Resource,
        TableKind::Node => RowForm::Node,
        TableKind::Bus => RowForm::Bus,
        TableKind::Edit => RowForm::Edit,
    }
}

/// The key of a fault in its row, as a text.
fn key_text(
    alloc: Global,
    fault: SceneFault,
    nodes: &[Value],
    table: TableKind,
    row: &Table,
) -> Result<Option<Text>, OutOfMemory>
    ensures { IfOk result (λ key. key ≡ spec.key_in fault (map view nodes.now) table (table_view row.now)) }
{
    match key_in(fault, nodes, table, row) {
        Some(key) => {
            let key = String::from_str(alloc, key)?;
            Ok(Some(Text::new(key)))
        }
        None => Ok(None),
    }
}

/// The key of a fault in its row.
#[tactic(auto, unfolding(crate::specs::FaultPlaces::key_in))]
fn key_in<'a>(
    fault: SceneFault,
    nodes: &[Value],
    table: TableKind,
    row: &'a Table,
) -> Option<&'a str>
    ensures { option_map (λ k. k.now) result ≡ spec.key_in fault (map view nodes.now) table (table_view row.now) }
{
    match fault {
        SceneFault::NotToml | SceneFault::EditRefused { .. } => None,
        SceneFault::Version { .. } => Some("version"),
        SceneFault::MissingKey { .. } => missing_key(table, row),
        SceneFault::WrongKind { .. } => unfit_key(table, row),
        SceneFault::UnknownKey { .. } => unknown_text(table, row),
        SceneFault::UnknownName { .. } => nameless_key(nodes, table, row),
        SceneFault::DoubleName { .. } => Some("name"),
        SceneFault::Limit { which, .. } => limit_key(which),
    }
}

fn unknown_text(table: TableKind, row: &Table) -> Option<&str>
    ensures { option_map (λ k. k.now) result ≡ unknown_key table (table_view row.now) }
{
    match unknown_key(table, row) {
        Some(key) => Some(key.as_str()),
        None => None,
    }
}

/// The key of the name that no row has.
#[tactic(auto, unfolding(crate::specs::FaultPlaces::nameless_key))]
fn nameless_key(nodes: &[Value], table: TableKind, row: &Table) -> Option<&'static str>
    ensures { option_map (λ k. k.now) result ≡ spec.nameless_key (map view nodes.now) table (table_view row.now) }
{
    match table {
        TableKind::Scene | TableKind::Resource => None,
        TableKind::Node => Some("resource"),
        TableKind::Bus | TableKind::Edit => {
            if has_node(nodes, row) {
                Some("to")
            } else {
                Some("node")
            }
        }
    }
}

/// Whether some node row has the name that a row has at `node`.
fn has_node(nodes: &[Value], row: &Table) -> bool
    ensures { result ≡ is_text_of (spec.is_node_name (map view nodes.now)) (spec.text_in (codes "node") (table_view row.now)) }
{
    match text_in(row, "node") {
        Some(name) => is_node_name(nodes, name),
        None => false,
    }
}

fn is_node_name(nodes: &[Value], name: &str) -> bool
    ensures { result ≡ spec.is_node_name (map view nodes.now) name.now }
{
    has_named(nodes, name)
}

fn has_named(nodes: &[Value], name: &str) -> bool
    ensures { result ≡ list_any (λ item. spec.is_row (spec.has_name name.now) (view item)) nodes.now }
{
    nodes.iter().any(|node| item_has_name(node, name))
}

fn item_has_name(item: &Value, name: &str) -> bool
    ensures { result ≡ spec.is_row (spec.has_name name.now) (view item.now) }
{
    match item.as_table() {
        Some(row) => has_name(row, name),
        None => false,
    }
}

fn has_name(row: &Table, name: &str) -> bool
    ensures { result ≡ spec.has_name name.now (table_view row.now) }
{
    match text_in(row, "name") {
        Some(text) => text == name,
        None => false,
    }
}

/// The key of a number that has a limit.
#[tactic(auto, unfolding(crate::specs::FaultPlaces::limit_key))]
fn limit_key(which: Which) -> Option<&'static str>
    ensures { option_map (λ k. k.now) result ≡ spec.limit_key which }
{
    match which {
        Which::Rate => Some("rate"),
        Which::Channels => Some("channels"),
        Which::Width => Some("width"),
        Which::Length | Which::LiveLength => Some("length"),
        Which::FileName => Some("file"),
        Which::Outputs => Some("outputs"),
        Which::From => Some("from"),
        Which::Until => Some("until"),
        Which::Out => Some("out"),
        Which::Gain => Some("gain"),
        Which::At => Some("at"),
        Which::Value => Some("value"),
        Which::Editor => Some("editor"),
        Which::Resources | Which::Nodes | Which::Buses | Which::BusRows | Which::Edits => None,
    }
}
