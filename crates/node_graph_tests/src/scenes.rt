//! Small scenes.

ghost use Rattle.std.specs.Prelude.{◌≡◌, ◌≤◌, ◌*◌, true, IfOk, [], ◌∷◌, vec_len};
ghost use Rattle.std.specs.List.{list_all};
ghost use Rattle.scene_model.specs.Buses.{bus_count};
ghost use Rattle.scene_model.specs.IsScene.{is_kind, is_node, is_bus_row};

use plain_data::{OutOfMemory, Rows, Text};
use scene_model::{BusRow, MAX_LENGTH, Node, NodeKind, Resource, Scene};
use std::alloc::Global;

pub(crate) const SOUND: NodeKind = NodeKind::Sound {
    resource: 0,
    looped: false,
};

pub(crate) const SPLITTER: NodeKind = NodeKind::Splitter { outputs: 2 };

fn name(alloc: Global) -> Result<Text, OutOfMemory>
    ensures { IfOk result (λ name. name ≡ 110 ∷ []) }
{
    Ok(Text::new(String::from_str(alloc, "n")?))
}

fn is_kind(kind: NodeKind) -> bool
    ensures { result ≡ is_kind 1 kind }
{
    match kind {
        NodeKind::Sound { resource, .. } => resource < 1,
        NodeKind::Group => true,
        NodeKind::Splitter { outputs } => 2 <= outputs && outputs <= 4,
    }
}

/// Nodes of these kinds, as far as a scene can have them, of which there are at most 64 here.
fn nodes(alloc: Global, kinds: &[NodeKind]) -> Result<Vec<Node>, OutOfMemory>
    ensures nodes { IfOk result (λ nodes. list_all (is_node 1) nodes.items ≡ true) }
    ensures few { IfOk result (λ nodes. vec_len nodes ≤ 64) }
    ensures buses { IfOk result (λ nodes. bus_count nodes.items ≤ 4 * vec_len nodes) }
{
    let mut nodes = Vec::new(alloc);
    for kind in kinds {
        if is_kind(*kind) && nodes.len() < 64 {
            nodes.push(Node {
                name: name(alloc)?,
                kind: *kind,
                started: true,
                from: 0,
                until: MAX_LENGTH,
            })?;
        }
    }
    Ok(nodes)
}

fn is_row(nodes: usize, row: &BusRow) -> bool
    ensures { result ≡ is_bus_row nodes row.now }
{
    let is_target = match row.to {
        Some(to) => to as usize <= nodes,
        None => true,
    };
    (row.node as usize) < nodes && is_target
}

/// These bus rows, as far as a scene of that many nodes can have them, of which there are at most
/// 256.
fn rows(alloc: Global, nodes: usize, all: &[BusRow]) -> Result<Vec<BusRow>, OutOfMemory>
    ensures rows { IfOk result (λ rows. list_all (is_bus_row nodes) rows.items ≡ true) }
    ensures few { IfOk result (λ rows. vec_len rows ≤ 256) }
{
    let mut rows = Vec::new(alloc);
    for row in all {
        if is_row(nodes, row) && rows.len() < 256 {
            rows.push(*row)?;
        }
    }
    Ok(rows)
}

/// A scene of nodes of these kinds, wired by these rows, with no edits.
pub(crate) fn scene(
    alloc: Global,
    kinds: &[NodeKind],
    all: &[BusRow],
) -> Result<Scene, OutOfMemory> {
    let mut resources = Vec::new(alloc);
    resources.push(Resource {
        name: name(alloc)?,
        file: name(alloc)?,
    })?;
    let nodes = nodes(alloc, kinds)?;
    let buses = rows(alloc, nodes.len(), all)?;
    Ok(Scene {
        version: 1,
        rate: 8000,
        channels: 1,
        width: 16,
        length: 0,
        resources: Rows::new(resources),
        nodes: Rows::new(nodes),
        buses: Rows::new(buses),
        edits: Rows::new(Vec::new(alloc)),
    })
}
