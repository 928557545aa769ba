ghost use Rattle.std.specs.Prelude.{◌≡◌, ◌≤◌, ◌<◌, map, IfOk, IsTrue, length, vec_len};
ghost use Rattle.std.specs.List.{list_all, list_any};
ghost use Rattle.std.specs.Str.{bytes_eq};
ghost use Rattle.toml.specs.View.{table_view};
ghost use Rattle.scene_model.specs.Buses.{bus_count};
ghost use Rattle.scene_model.specs.IsScene.{is_node};
ghost use Rattle.scene_model.specs.Limits as limits;
ghost use Rattle.scene_script.specs.Checked.{Gives, GivesAs};
ghost use Rattle.scene_script.specs.NodeRows as spec;

use crate::bounds::Bounds;
use crate::fault::{SceneFault, TableKind, Which};
use crate::fields::name;
use crate::limits::{MAX_BUSES, MAX_NODES};
use crate::names::ENDPOINT;
use crate::node_keys::{Activity, KindWord, OwnKeys};
use crate::place::Place;
use crate::script_error::ScriptError;
use crate::table_rows::table_rows;
use plain_data::{OutOfMemory, Rows, Text};
use scene_model::{Node, NodeKind, Resource};
use std::alloc::Global;
use std::marker::Model;
use toml::Table;

/// The output buses of all nodes.
const BUSES: Bounds = Bounds {
    which: Which::Buses,
    least: 0,
    most: MAX_BUSES as u64,
};

/// The nodes of a script.
#[tactic(auto, unfolding(crate::specs::NodeRows::nodes))]
pub(crate) fn read_nodes(
    alloc: Global,
    script: &Table,
    resources: &[Resource],
) -> Result<Rows<Node>, ScriptError>
    requires { length resources.now ≤ limits.most_resources }
    ensures value { Gives result (spec.nodes resources.now (table_view script.now)) }
    ensures few { IfOk result (λ nodes. length nodes ≤ limits.most_nodes) }
    ensures buses { IfOk result (λ nodes. bus_count nodes ≤ limits.most_buses) }
    ensures are { IfOk result (λ nodes. IsTrue (list_all (is_node (length resources.now)) nodes)) }
{
    let rows = table_rows(
        alloc,
        script,
        TableKind::Node,
        "node",
        Which::Nodes,
        MAX_NODES,
    )?;
    let nodes = node_rows(alloc, rows.as_slice(), resources)?;
    check_buses(nodes.as_slice())?;
    Ok(Rows::new(nodes))
}

/// Tests that the nodes have no more output buses than allowed.
fn check_buses(nodes: &[Node]) -> Result<(), SceneFault>
    requires { length nodes.now ≤ limits.most_nodes }
    ensures value { result ≡ spec.few_buses nodes.now }
    ensures few { IfOk result (λ _. bus_count nodes.now ≤ limits.most_buses) }
{
    BUSES.checked(i64::from(bus_count(nodes)))?;
    Ok(())
}

fn bus_count(nodes: &[Node]) -> u32
    requires { length nodes.now ≤ limits.most_nodes }
    ensures { result ≡ bus_count nodes.now }
{
    nodes
        .iter()
        .map(|node| u32::from(node.kind.outputs()))
        .sum()
}

fn node_rows(
    alloc: Global,
    rows: &[&Table],
    resources: &[Resource],
) -> Result<Vec<Node>, ScriptError>
    requires rows { length rows.now ≤ limits.most_nodes }
    requires resources { length resources.now ≤ limits.most_resources }
    ensures value { GivesAs (λ v. v.items) result (spec.node_rows resources.now (map (λ t. table_view t.now) rows.now)) }
    ensures few { IfOk result (λ v. vec_len v ≤ length rows.now) }
    ensures are { IfOk result (λ v. IsTrue (list_all (is_node (length resources.now)) v.items)) }
{
    let mut nodes = Vec::new(alloc);
    for row in rows {
        let read = NodeRow::read(row, resources, nodes.as_slice())?;
        nodes.push(read.node(alloc)?)?;
    }
    Ok(nodes)
}

/// A row of `node`, as it stands in the script.
#[derive(Drop)]
struct NodeRow<'a> {
    name: &'a str,
    kind: NodeKind,
    activity: Activity,
}

impl<'a> Model for NodeRow<'a> {
    ghost use Rattle.scene_model.specs.declared.node.Node.{Node};

    ghost Value = { Node };

    ghost view = { λ r. record { name = r.name.now; kind = r.kind; started = r.activity.started; from = r.activity.from; until = r.activity.until } };
}

impl<'a> NodeRow<'a> {
    /// Reads a row, by the resources and the nodes of the rows before it.
    #[tactic(auto, unfolding(crate::specs::NodeRows::node_row))]
    fn read(
        row: &'a Table,
        resources: &[Resource],
        before: &[Node],
    ) -> Result<NodeRow<'a>, SceneFault>
        requires resources { length resources.now ≤ limits.most_resources }
        requires before { length before.now < limits.most_nodes }
        ensures value { result ≡ spec.node_row resources.now before.now (table_view row.now) }
        ensures is_node { IfOk result (λ n. IsTrue (is_node (length resources.now) n)) }
    {
        let place = Place {
            table: TableKind::Node,
            row: before.len() as u32 + 1,
        };
        let word = KindWord::read(row, place)?;
        let name = name(row, place, "name")?;
        let own = OwnKeys::read(row, place, resources, word)?;
        let activity = Activity::read(row, place)?;
        check_new(place, before, name)?;
        let kind = own.kind(place, resources.len())?;
        Ok(NodeRow {
            name,
            kind,
            activity,
        })
    }

    fn node(&self, alloc: Global) -> Result<Node, OutOfMemory>
        ensures { IfOk result (λ node. node ≡ self.now) }
    {
        Ok(Node {
            name: Text::new(String::from_str(alloc, self.name)?),
            kind: self.kind,
            started: self.activity.started,
            from: self.activity.from,
            until: self.activity.until,
        })
    }
}

/// Tests that the name isn't that of the endpoint, and that no earlier node has it.
#[tactic(auto, unfolding(crate::specs::NodeRows::new_node))]
fn check_new(place: Place, before: &[Node], name: &str) -> Result<(), SceneFault>
    ensures { result ≡ spec.new_node place before.now name.now }
{
    if name == ENDPOINT || is_taken(before, name) {
        Err(place.double_name())
    } else {
        Ok(())
    }
}

fn is_taken(before: &[Node], name: &str) -> bool
    ensures { result ≡ list_any (λ n. bytes_eq n.name name.now) before.now }
{
    before.iter().any(|node| node.name.as_str() == name)
}
