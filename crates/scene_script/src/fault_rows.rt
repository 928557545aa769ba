//! The rows in which the faults of scripts stand.
ghost use Rattle.std.specs.Prelude.{◌≡◌, ◌<◌, ◌^◌, Some, IfSome, map, option_map, length, position};
ghost use Rattle.toml.specs.View.{table_view, view};
ghost use Rattle.scene_script.specs.EditRows.{op_at};
ghost use Rattle.scene_script.specs.Fields.{place};
ghost use Rattle.scene_script.specs.FaultPlaces as spec;

use crate::fault::{SceneFault, TableKind, Which};
use crate::fields::member;
use crate::op_word::OpWord;
use crate::place::Place;
use toml::{Table, Value};

/// A row of a script, by its table and its number there, from 1; the number 0 stands for the table
/// as a whole.
#[derive(Clone, Copy)]
pub(crate) struct RowPlace {
    pub(crate) table: TableKind,
    pub(crate) row: usize,
}

impl RowPlace {
    /// The row of a fault.
    #[tactic(auto, unfolding(crate::specs::FaultPlaces::place_of))]
    pub(crate) fn of(fault: SceneFault, script: &Table) -> RowPlace
        ensures { result ≡ spec.place_of fault (table_view script.now) }
    {
        match fault {
            SceneFault::NotToml | SceneFault::Version { .. } => RowPlace::new(TableKind::Scene, 0),
            SceneFault::MissingKey { table, row }
            | SceneFault::WrongKind { table, row }
            | SceneFault::UnknownKey { table, row }
            | SceneFault::UnknownName { table, row }
            | SceneFault::DoubleName { table, row }
            | SceneFault::EditRefused { table, row, .. } => RowPlace::new(table, row as usize),
            SceneFault::Limit { which, found, .. } => RowPlace::of_limit(which, found, script),
        }
    }

    fn new(table: TableKind, row: usize) -> RowPlace
        ensures { result ≡ spec.row_place table row }
    {
        RowPlace { table, row }
    }

    /// Where a number that is out of its limits stands.
    #[tactic(auto, unfolding(crate::specs::FaultPlaces::limit_place))]
    fn of_limit(which: Which, found: i64, script: &Table) -> RowPlace
        ensures { result ≡ spec.limit_place which found (table_view script.now) }
    {
        match which {
            Which::Rate | Which::Channels | Which::Width | Which::Length | Which::LiveLength => {
                RowPlace::new(TableKind::Scene, 0)
            }
            Which::Resources => RowPlace::new(TableKind::Resource, 0),
            Which::FileName => RowPlace::first(TableKind::Resource, which, found, script),
            Which::Nodes | Which::Buses => RowPlace::new(TableKind::Node, 0),
            Which::Outputs | Which::From | Which::Until => {
                RowPlace::first(TableKind::Node, which, found, script)
            }
            Which::BusRows => RowPlace::new(TableKind::Bus, 0),
            Which::Edits => RowPlace::new(TableKind::Edit, 0),
            Which::Out => {
                let place = RowPlace::first(TableKind::Bus, which, found, script);
                place.or_of_edit(found, script)
            }
            Which::Gain => RowPlace::first(TableKind::Bus, which, found, script),
            Which::At | Which::Value | Which::Editor => {
                RowPlace::first(TableKind::Edit, which, found, script)
            }
        }
    }

    /// The row, or else the first edit row with that output.
    #[tactic(auto, unfolding(crate::specs::FaultPlaces::out_place))]
    fn or_of_edit(self, found: i64, script: &Table) -> RowPlace
        ensures { result ≡ spec.out_place found (table_view script.now) self }
    {
        if self.row == 0 {
            RowPlace::first(TableKind::Edit, Which::Out, found, script)
        } else {
            self
        }
    }

    /// The first row of a table that has the number that was found.
    #[tactic(auto, unfolding(crate::specs::FaultPlaces::first_place))]
    fn first(table: TableKind, which: Which, found: i64, script: &Table) -> RowPlace
        ensures { result ≡ spec.first_place table which found (table_view script.now) }
    {
        let number = FoundNumber { which, found };
        RowPlace::new(table, first_row(number, items(script, table)))
    }
}

/// The rows of a table.
#[tactic(auto, using(crate::proofs::Rows::item_list_of))]
pub(crate) fn items(script: &Table, table: TableKind) -> &[Value]
    ensures { map view result.now ≡ spec.items_at table (table_view script.now) }
{
    match member(script, table.name()) {
        Some(value) => items_in(value),
        None => &[],
    }
}

#[tactic(auto, using(crate::proofs::Rows::item_list_of))]
fn items_in(value: &Value) -> &[Value]
    ensures { map view result.now ≡ spec.items_in (Some (view value.now)) }
{
    match value.as_array() {
        Some(items) => items.as_slice(),
        None => &[],
    }
}

/// The row of that number of a table, and the top level for the scene.
#[tactic(auto, unfolding(crate::specs::FaultPlaces::row_at))]
pub(crate) fn row_at(script: &Table, place: RowPlace) -> Option<&Table>
    ensures { option_map (λ t. table_view t.now) result ≡ spec.row_at place.table place.row (table_view script.now) }
{
    match place.table {
        TableKind::Scene => Some(script),
        TableKind::Resource => numbered(items(script, TableKind::Resource), place.row),
        TableKind::Node => numbered(items(script, TableKind::Node), place.row),
        TableKind::Bus => numbered(items(script, TableKind::Bus), place.row),
        TableKind::Edit => numbered(items(script, TableKind::Edit), place.row),
    }
}

/// The row of that number, from 1.
fn numbered(items: &[Value], row: usize) -> Option<&Table>
    ensures { option_map (λ t. table_view t.now) result ≡ spec.numbered row (map view items.now) }
{
    if row == 0 {
        return None;
    }
    match items.get(row - 1) {
        Some(value) => value.as_table(),
        None => None,
    }
}

/// A number that is out of its limits.
#[derive(Clone, Copy)]
struct FoundNumber {
    which: Which,
    found: i64,
}

/// The number of the first row that has the number that was found, from 1, or 0.
#[tactic(auto, using(crate::proofs::Rows::first_place_of))]
fn first_row(number: FoundNumber, items: &[Value]) -> usize
    ensures { result ≡ spec.first_row number.which number.found (map view items.now) }
{
    number_behind(first_index(number, items))
}

fn first_index(number: FoundNumber, items: &[Value]) -> Option<usize>
    ensures value { result ≡ position (λ item. spec.is_row (spec.row_has number.which number.found) (view item)) items.now }
    ensures below { IfSome result (λ n. n < length items.now) }
{
    items.iter().position(|item| item_has(number, item))
}

fn item_has(number: FoundNumber, item: &Value) -> bool
    ensures { result ≡ spec.is_row (spec.row_has number.which number.found) (view item.now) }
{
    match item.as_table() {
        Some(row) => row_has(number.which, number.found, row),
        None => false,
    }
}

/// Whether a row has the number that was found.
#[tactic(auto, unfolding(crate::specs::FaultPlaces::row_has))]
fn row_has(which: Which, found: i64, row: &Table) -> bool
    ensures { result ≡ spec.row_has which found (table_view row.now) }
{
    match which {
        Which::FileName => has_file(row, found),
        Which::Outputs => has_number(row, "outputs", found),
        Which::From => has_number(row, "from", found),
        Which::Until => has_number(row, "until", found),
        Which::Out => has_number(row, "out", found),
        Which::Gain => has_number(row, "gain", found),
        Which::At => has_number(row, "at", found),
        Which::Value => has_value(row, found),
        Which::Editor => has_number(row, "editor", found),
        Which::Rate
        | Which::Channels
        | Which::Width
        | Which::Length
        | Which::Resources
        | Which::Nodes
        | Which::Buses
        | Which::BusRows
        | Which::Edits
        | Which::LiveLength => false,
    }
}

fn has_number(row: &Table, key: &str, found: i64) -> bool
    ensures { result ≡ spec.has_number key.now found (table_view row.now) }
{
    match integer_in(row, key) {
        Some(number) => number == found,
        None => false,
    }
}

fn integer_in(row: &Table, key: &str) -> Option<i64>
    ensures { result ≡ spec.integer_in key.now (table_view row.now) }
{
    match member(row, key) {
        Some(value) => value.as_integer(),
        None => None,
    }
}

fn has_file(row: &Table, found: i64) -> bool
    ensures { result ≡ spec.has_file_of found (table_view row.now) }
{
    match text_in(row, "file") {
        Some(name) => name.len() as i64 == found,
        None => false,
    }
}

/// The text at a key.
pub(crate) fn text_in<'a>(row: &'a Table, key: &str) -> Option<&'a str>
    ensures { option_map (λ t. t.now) result ≡ spec.text_in key.now (table_view row.now) }
{
    match member(row, key) {
        Some(value) => value.as_str(),
        None => None,
    }
}

/// Whether a row has that value, which its op doesn't allow.
#[tactic(auto, unfolding(crate::specs::FaultPlaces::has_value))]
fn has_value(row: &Table, found: i64) -> bool
    ensures { result ≡ spec.has_value found (table_view row.now) }
{
    has_number(row, "value", found) && is_beyond(found, most_of(row))
}

fn most_of(row: &Table) -> Option<u64>
    ensures { result ≡ spec.most_of (op_at (place TableKind.Edit 0) (table_view row.now)) }
{
    match OpWord::at(
        row,
        Place {
            table: TableKind::Edit,
            row: 0,
        },
    ) {
        Ok(word) => word.most_value(),
        Err(_) => None,
    }
}

/// Whether a number is below 0 or above a limit.
fn is_beyond(found: i64, most: Option<u64>) -> bool
    ensures { result ≡ spec.is_beyond found most }
{
    match most {
        Some(most) => found < 0 || most < found as u64,
        None => false,
    }
}

/// The number of the row at a place, from 1, or 0.
fn number_behind(place: Option<usize>) -> usize
    requires { IfSome place (λ n. n < 2 ^ 63) }
    ensures { result ≡ spec.number_behind place }
{
    match place {
        Some(place) => place + 1,
        None => 0,
    }
}
