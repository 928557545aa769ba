//! Random rows of a scene of 8 nodes and 3 resources.

ghost use Rattle.std.specs.Prelude.{◌≡◌, ◌≤◌, ◌*◌, true, IfOk, [], ◌∷◌, vec_len};
ghost use Rattle.std.specs.List.{list_all};
ghost use Rattle.scene_model.specs.Buses.{bus_count};
ghost use Rattle.scene_model.specs.IsScene.{is_kind, is_resource, is_node, is_bus_row, is_edit, is_edit_row};

use crate::noise::bits;
use plain_data::{OutOfMemory, Text};
use scene_model::{
    BusRow, Edit, EditRow, LAST_EDITOR, MAX_GAIN, MAX_LENGTH, MAX_PLACE, Node, NodeKind, Resource,
    UNITY_GAIN,
};
use std::alloc::Global;

/// The number of the nodes.
const NODES: u32 = 8;

/// A name, which all rows share: a scene doesn't look at it.
fn name(alloc: Global) -> Result<Text, OutOfMemory>
    ensures { IfOk result (λ name. name ≡ 110 ∷ []) }
{
    Ok(Text::new(String::from_str(alloc, "n")?))
}

fn resource(alloc: Global) -> Result<Resource, OutOfMemory>
    ensures { IfOk result (λ resource. is_resource resource ≡ true) }
{
    Ok(Resource {
        name: name(alloc)?,
        file: name(alloc)?,
    })
}

/// Three resources.
pub fn resources(alloc: Global) -> Result<Vec<Resource>, OutOfMemory>
    ensures all { IfOk result (λ resources. list_all is_resource resources.items ≡ true) }
    ensures count { IfOk result (λ resources. vec_len resources ≡ 3) }
{
    let mut resources = Vec::new(alloc);
    for _ in 0..3u32 {
        resources.push(resource(alloc)?)?;
    }
    Ok(resources)
}

fn kind(bits: u64) -> NodeKind
    ensures { is_kind 3 result ≡ true }
{
    match bits % 8 {
        0..=3 => NodeKind::Sound {
            resource: ((bits >> 8) % 3) as u32,
            looped: (bits >> 16) % 2 == 0,
        },
        4..=5 => NodeKind::Group,
        _ => NodeKind::Splitter {
            outputs: 2 + ((bits >> 8) % 3) as u8,
        },
    }
}

/// Most often the usual time.
fn time(bits: u64, usual: u32) -> u32
    requires { usual ≤ 16777216 }
    ensures { result ≤ 16777216 }
{
    if bits % 4 > 0 {
        usual
    } else {
        ((bits >> 2) % 1600) as u32
    }
}

fn node(alloc: Global, bits: u64) -> Result<Node, OutOfMemory>
    ensures { IfOk result (λ node. is_node 3 node ≡ true) }
{
    Ok(Node {
        name: name(alloc)?,
        kind: kind(bits),
        started: (bits >> 24) % 8 > 0,
        from: time(bits >> 32, 0),
        until: time(bits >> 48, MAX_LENGTH),
    })
}

/// The nodes.
pub fn nodes(alloc: Global, seed: u64) -> Result<Vec<Node>, OutOfMemory>
    ensures nodes { IfOk result (λ nodes. list_all (is_node 3) nodes.items ≡ true) }
    ensures few { IfOk result (λ nodes. vec_len nodes ≤ 8) }
    ensures buses { IfOk result (λ nodes. bus_count nodes.items ≤ 4 * vec_len nodes) }
{
    let mut nodes = Vec::new(alloc);
    for number in 0..8u32 {
        nodes.push(node(alloc, bits(seed, number))?)?;
    }
    Ok(nodes)
}

/// A gain, now and then too large.
fn gain(bits: u64) -> u32 {
    match bits % 8 {
        0 => MAX_GAIN + 1,
        1 => MAX_GAIN,
        2 => UNITY_GAIN,
        _ => ((bits >> 3) % 65536) as u32,
    }
}

/// The number of a node, or that of the endpoint, which it is more often than any node's.
fn target(bits: u64) -> u32 {
    ((bits % 16) as u32).min(NODES)
}

fn row(bits: u64) -> BusRow {
    let to = target(bits >> 16);
    BusRow {
        node: ((bits >> 24) % 8) as u32,
        out: ((bits >> 32) % 3) as u8,
        to: if bits % 8 > 0 { Some(to) } else { None },
        gain: gain(bits >> 40),
    }
}

fn is_row(nodes: usize, row: &BusRow) -> bool
    ensures { result ≡ is_bus_row nodes row.now }
{
    let is_target = match row.to {
        Some(to) => to as usize <= nodes,
        None => true,
    };
    (row.node as usize) < nodes && is_target
}

/// 24 bus rows of a scene of that many nodes, of which some are refused.
pub fn rows(alloc: Global, nodes: usize, seed: u64) -> Result<Vec<BusRow>, OutOfMemory>
    ensures rows { IfOk result (λ rows. list_all (is_bus_row nodes) rows.items ≡ true) }
    ensures few { IfOk result (λ rows. vec_len rows ≤ 24) }
{
    let mut rows = Vec::new(alloc);
    for number in 0..24u32 {
        let row = row(bits(seed, number));
        if is_row(nodes, &row) {
            rows.push(row)?;
        }
    }
    Ok(rows)
}

fn edit(bits: u64) -> Edit {
    let node = ((bits >> 8) % 8) as u32;
    let out = ((bits >> 16) % 3) as u8;
    let value = ((bits >> 24) % 1600) as u32;
    match bits % 16 {
        0 => Edit::SetGain {
            node,
            out,
            gain: gain(bits >> 40),
        },
        1 => Edit::Start { node },
        2 => Edit::Stop { node },
        3 => Edit::From { node, value },
        4 => Edit::Until { node, value },
        5..=6 => Edit::Seek {
            node,
            place: u64::from(value),
        },
        7 => Edit::Loop { node, on: out == 0 },
        8..=11 => Edit::Detach { node, out },
        _ => Edit::Attach {
            node,
            out,
            to: target(bits >> 40),
        },
    }
}

/// A frame, often one of a few.
fn frame(bits: u64) -> u32 {
    let number = bits >> 2;
    match bits % 4 {
        0 => 511 + (number % 3) as u32,
        1 => (number % 4) as u32 * 300,
        _ => (number % 1500) as u32,
    }
}

fn is_edit(nodes: usize, edit: &Edit) -> bool
    ensures { result ≡ is_edit nodes edit.now }
{
    match *edit {
        Edit::Attach { node, to, .. } => (node as usize) < nodes && to as usize <= nodes,
        Edit::Detach { node, .. } => (node as usize) < nodes,
        Edit::SetGain { node, .. } => (node as usize) < nodes,
        Edit::Start { node } => (node as usize) < nodes,
        Edit::Stop { node } => (node as usize) < nodes,
        Edit::From { node, value } => (node as usize) < nodes && value <= MAX_LENGTH,
        Edit::Until { node, value } => (node as usize) < nodes && value <= MAX_LENGTH,
        Edit::Seek { node, place } => (node as usize) < nodes && place <= MAX_PLACE,
        Edit::Loop { node, .. } => (node as usize) < nodes,
    }
}

fn edit_row(bits: u64) -> EditRow {
    EditRow {
        at: frame(bits >> 48),
        editor: 0,
        edit: edit(bits),
    }
}

fn is_edit_row(nodes: usize, row: &EditRow) -> bool
    ensures { result ≡ is_edit_row nodes row.now }
{
    row.at <= MAX_LENGTH && row.editor <= LAST_EDITOR && is_edit(nodes, &row.edit)
}

/// 16 edits of a scene of that many nodes, of which some are refused.
pub fn edits(alloc: Global, nodes: usize, seed: u64) -> Result<Vec<EditRow>, OutOfMemory>
    ensures edits { IfOk result (λ edits. list_all (is_edit_row nodes) edits.items ≡ true) }
    ensures few { IfOk result (λ edits. vec_len edits ≤ 16) }
{
    let mut edits = Vec::new(alloc);
    for number in 0..16u32 {
        let row = edit_row(bits(seed, number));
        if is_edit_row(nodes, &row) {
            edits.push(row)?;
        }
    }
    Ok(edits)
}
