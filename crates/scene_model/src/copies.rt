//! Copies of the lists of a scene, with memory of their own.

ghost use Rattle.std.specs.Prelude.{◌≡◌, IfOk};

use crate::bus_row::BusRow;
use crate::edit::EditRow;
use crate::node::Node;
use crate::resource::Resource;
use plain_data::{OutOfMemory, Rows, Text};
use std::alloc::Global;

pub(crate) fn copied_resources(
    alloc: Global,
    resources: &[Resource],
) -> Result<Rows<Resource>, OutOfMemory>
    ensures { IfOk result (λ copy. copy ≡ resources.now) }
{
    let mut copies = Vec::new(alloc);
    for resource in resources {
        copies.push(resource.try_clone(alloc)?)?;
    }
    Ok(Rows::new(copies))
}

pub(crate) fn copied_nodes(alloc: Global, nodes: &[Node]) -> Result<Rows<Node>, OutOfMemory>
    ensures { IfOk result (λ copy. copy ≡ nodes.now) }
{
    let mut copies = Vec::new(alloc);
    for node in nodes {
        copies.push(node.try_clone(alloc)?)?;
    }
    Ok(Rows::new(copies))
}

pub(crate) fn copied_bus_rows(alloc: Global, rows: &[BusRow]) -> Result<Rows<BusRow>, OutOfMemory>
    ensures { IfOk result (λ copy. copy ≡ rows.now) }
{
    Ok(Rows::new(rows.to_vec(alloc)?))
}

pub(crate) fn copied_edits(alloc: Global, rows: &[EditRow]) -> Result<Rows<EditRow>, OutOfMemory>
    ensures { IfOk result (λ copy. copy ≡ rows.now) }
{
    Ok(Rows::new(rows.to_vec(alloc)?))
}

pub(crate) fn copied_text(alloc: Global, text: &Text) -> Result<Text, OutOfMemory>
    ensures { IfOk result (λ copy. copy ≡ text.now) }
{
    Ok(Text::new(String::from_str(alloc, text.as_str())?))
}
