ghost use Rattle.std.specs.Prelude.{◌≡◌, ◌≤◌, ◌<◌, map, IfOk, IsTrue, length, vec_len};
ghost use Rattle.std.specs.List.{list_all};
ghost use Rattle.toml.specs.View.{table_view};
ghost use Rattle.scene_model.specs.IsScene.{is_bus_row, is_target};
ghost use Rattle.scene_model.specs.Limits as limits;
ghost use Rattle.scene_script.specs.BusRows as spec;
ghost use Rattle.scene_script.specs.Checked.{Gives, GivesAs};
ghost use Rattle.scene_script.specs.KeysRead.{IsBusKeys, IsTo};

use crate::bounds::Bounds;
use crate::fault::{SceneFault, TableKind, Which};
use crate::fields::{known_keys, member, number_or, output};
use crate::limits::{MAX_BUS_ROWS, MAX_NAMED_GAIN};
use crate::names::{known_name, node_at, target_at};
use crate::place::Place;
use crate::script_error::ScriptError;
use crate::table_rows::table_rows;
use plain_data::Rows;
use scene_model::{BusRow, Node, UNITY_GAIN};
use std::alloc::Global;
use toml::Table;

const GAIN: Bounds = Bounds {
    which: Which::Gain,
    least: 0,
    most: MAX_NAMED_GAIN,
};

/// The bus rows of a script.
#[tactic(auto, unfolding(crate::specs::BusRows::buses))]
pub(crate) fn read_buses(
    alloc: Global,
    script: &Table,
    nodes: &[Node],
) -> Result<Rows<BusRow>, ScriptError>
    requires { length nodes.now ≤ limits.most_nodes }
    ensures value { Gives result (spec.buses nodes.now (table_view script.now)) }
    ensures few { IfOk result (λ buses. length buses ≤ limits.most_bus_rows) }
    ensures are { IfOk result (λ buses. IsTrue (list_all (is_bus_row (length nodes.now)) buses)) }
{
    let rows = table_rows(
        alloc,
        script,
        TableKind::Bus,
        "bus",
        Which::BusRows,
        MAX_BUS_ROWS,
    )?;
    let buses = bus_rows(alloc, rows.as_slice(), nodes)?;
    Ok(Rows::new(buses))
}

fn bus_rows(alloc: Global, rows: &[&Table], nodes: &[Node]) -> Result<Vec<BusRow>, ScriptError>
    requires rows { length rows.now ≤ limits.most_bus_rows }
    requires nodes { length nodes.now ≤ limits.most_nodes }
    ensures value { GivesAs (λ v. v.items) result (spec.bus_rows nodes.now (map (λ t. table_view t.now) rows.now)) }
    ensures few { IfOk result (λ v. vec_len v ≤ length rows.now) }
    ensures are { IfOk result (λ v. IsTrue (list_all (is_bus_row (length nodes.now)) v.items)) }
{
    let mut buses = Vec::new(alloc);
    for row in rows {
        let bus = bus_row(row, nodes, buses.as_slice())?;
        buses.push(bus)?;
    }
    Ok(buses)
}

/// A row, by those before it.
#[tactic(auto, unfolding(crate::specs::BusRows::bus_row))]
fn bus_row(row: &Table, nodes: &[Node], before: &[BusRow]) -> Result<BusRow, SceneFault>
    requires nodes { length nodes.now ≤ limits.most_nodes }
    requires before { length before.now < limits.most_bus_rows }
    ensures value { result ≡ spec.bus_row nodes.now before.now (table_view row.now) }
    ensures is_row { IfOk result (λ b. IsTrue (is_bus_row (length nodes.now) b)) }
{
    let place = Place {
        table: TableKind::Bus,
        row: before.len() as u32 + 1,
    };
    check_keys(row, place)?;
    let keys = BusKeys::read(row, place, nodes)?;
    keys.known(place, nodes.len())
}

#[tactic(auto, unfolding(crate::specs::BusRows::known_bus_keys))]
fn check_keys(row: &Table, place: Place) -> Result<(), SceneFault>
    ensures { result ≡ spec.known_bus_keys place (table_view row.now) }
{
    known_keys(row, place, &["node", "out", "to", "gain"])
}

/// Where a row attaches its bus: nowhere, or to the node or endpoint of a name, by its number where
/// a row has the name.
#[derive(Clone, Copy)]
pub(crate) enum To {
    Nowhere,
    Named(Option<u32>),
}

impl To {
    #[tactic(auto, unfolding(crate::specs::BusRows::to_at))]
    fn read(row: &Table, place: Place, nodes: &[Node]) -> Result<To, SceneFault>
        requires { length nodes.now ≤ limits.most_nodes }
        ensures value { result ≡ spec.to_at place nodes.now (table_view row.now) }
        ensures is_to { IfOk result (λ to. IsTo (length nodes.now) to) }
    {
        match member(row, "to") {
            Some(_) => {
                let to = target_at(row, place, nodes, "to")?;
                Ok(To::Named(to))
            }
            None => Ok(To::Nowhere),
        }
    }

    fn known(self, place: Place, nodes: usize) -> Result<Option<u32>, SceneFault>
        requires { IsTo nodes self }
        ensures value { result ≡ spec.known_to place self }
        ensures is_target { IfOk result (λ to. IsTrue (is_target nodes to)) }
    {
        match self {
            To::Nowhere => Ok(None),
            To::Named(to) => {
                let to = known_name(place, to)?;
                Ok(Some(to))
            }
        }
    }
}

/// The keys of a row. The node is the number of the one that is named, where there is one.
#[derive(Clone, Copy)]
pub(crate) struct BusKeys {
    pub(crate) node: Option<u32>,
    pub(crate) out: u8,
    pub(crate) to: To,
    pub(crate) gain: u32,
}

impl BusKeys {
    #[tactic(auto, unfolding(crate::specs::BusRows::bus_keys))]
    fn read(row: &Table, place: Place, nodes: &[Node]) -> Result<BusKeys, SceneFault>
        requires { length nodes.now ≤ limits.most_nodes }
        ensures value { result ≡ spec.bus_keys place nodes.now (table_view row.now) }
        ensures are { IfOk result (λ b. IsBusKeys (length nodes.now) b) }
    {
        let node = node_at(row, place, nodes, "node")?;
        let out = output(row, place)?;
        let to = To::read(row, place, nodes)?;
        let gain = number_or(row, place, "gain", GAIN, UNITY_GAIN)?;
        Ok(BusKeys {
            node,
            out,
            to,
            gain: gain as u32,
        })
    }

    /// The row, where its names are those of rows.
    #[tactic(auto, unfolding(crate::specs::BusRows::known_bus))]
    fn known(self, place: Place, nodes: usize) -> Result<BusRow, SceneFault>
        requires { IsBusKeys nodes self }
        ensures value { result ≡ spec.known_bus place self }
        ensures is_row { IfOk result (λ b. IsTrue (is_bus_row nodes b)) }
    {
        let node = known_name(place, self.node)?;
        let to = self.to.known(place, nodes)?;
        Ok(BusRow {
            node,
            out: self.out,
            to,
            gain: self.gain,
        })
    }
}
