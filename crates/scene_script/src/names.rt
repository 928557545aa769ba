ghost use Rattle.std.specs.Prelude.{◌≡◌, ◌≤◌, ◌<◌, IfOk, IfSome, length};
ghost use Rattle.std.specs.List.{position};
ghost use Rattle.std.specs.Str.{bytes_eq};
ghost use Rattle.toml.specs.View.{table_view};
ghost use Rattle.scene_model.specs.Limits as limits;
ghost use Rattle.scene_script.specs.Names as spec;

use crate::fault::SceneFault;
use crate::fields::name;
use crate::place::Place;
use scene_model::{Node, Resource};
use toml::Table;

/// The word for the endpoint, which no node has for its name.
pub(crate) const ENDPOINT: &str = "endpoint";

/// The number of the resource that a key names, where there is one.
#[tactic(auto, unfolding(crate::specs::Names::resource_at))]
pub(crate) fn resource_at(
    row: &Table,
    place: Place,
    resources: &[Resource],
    key: &str,
) -> Result<Option<u32>, SceneFault>
    requires { length resources.now ≤ limits.most_resources }
    ensures value { result ≡ spec.resource_at place resources.now key.now (table_view row.now) }
    ensures below { IfOk result (λ r. IfSome r (λ n. n < length resources.now)) }
{
    let name = name(row, place, key)?;
    Ok(resource_named(resources, name))
}

/// The number of the node that a key names, where there is one.
#[tactic(auto, unfolding(crate::specs::Names::node_at))]
pub(crate) fn node_at(
    row: &Table,
    place: Place,
    nodes: &[Node],
    key: &str,
) -> Result<Option<u32>, SceneFault>
    requires { length nodes.now ≤ limits.most_nodes }
    ensures value { result ≡ spec.node_at place nodes.now key.now (table_view row.now) }
    ensures below { IfOk result (λ r. IfSome r (λ n. n < length nodes.now)) }
{
    let name = name(row, place, key)?;
    Ok(node_named(nodes, name))
}

/// The number of the node or the endpoint that a key names, where there is one.
#[tactic(auto, unfolding(crate::specs::Names::target_at))]
pub(crate) fn target_at(
    row: &Table,
    place: Place,
    nodes: &[Node],
    key: &str,
) -> Result<Option<u32>, SceneFault>
    requires { length nodes.now ≤ limits.most_nodes }
    ensures value { result ≡ spec.target_at place nodes.now key.now (table_view row.now) }
    ensures below { IfOk result (λ r. IfSome r (λ n. n ≤ length nodes.now)) }
{
    let name = name(row, place, key)?;
    Ok(target_named(nodes, name))
}

/// The number, where a row has the name.
pub(crate) fn known_name(place: Place, number: Option<u32>) -> Result<u32, SceneFault>
    ensures { result ≡ spec.known_name place number }
{
    number.ok_or(place.unknown_name())
}

fn resource_named(resources: &[Resource], name: &str) -> Option<u32>
    requires { length resources.now ≤ limits.most_resources }
    ensures value { result ≡ spec.resource_named resources.now name.now }
    ensures below { IfSome result (λ n. n < length resources.now) }
{
    resource_index(resources, name).map(|index| index as u32)
}

fn resource_index(resources: &[Resource], name: &str) -> Option<usize>
    ensures value { result ≡ position (λ r. bytes_eq r.name name.now) resources.now }
    ensures below { IfSome result (λ n. n < length resources.now) }
{
    resources
        .iter()
        .position(|resource| resource.name.as_str() == name)
}

fn target_named(nodes: &[Node], name: &str) -> Option<u32>
    requires { length nodes.now ≤ limits.most_nodes }
    ensures value { result ≡ spec.target_named nodes.now name.now }
    ensures below { IfSome result (λ n. n ≤ length nodes.now) }
{
    if name == ENDPOINT {
        return Some(nodes.len() as u32);
    }
    node_named(nodes, name)
}

fn node_named(nodes: &[Node], name: &str) -> Option<u32>
    requires { length nodes.now ≤ limits.most_nodes }
    ensures value { result ≡ spec.node_named nodes.now name.now }
    ensures below { IfSome result (λ n. n < length nodes.now) }
{
    node_index(nodes, name).map(|index| index as u32)
}

fn node_index(nodes: &[Node], name: &str) -> Option<usize>
    ensures value { result ≡ position (λ n. bytes_eq n.name name.now) nodes.now }
    ensures below { IfSome result (λ n. n < length nodes.now) }
{
    nodes.iter().position(|node| node.name.as_str() == name)
}
