//! Which word of the board an edit changes.

ghost use Rattle.std.specs.Prelude.{◌≡◌, IsTrue, length};
ghost use Rattle.scene_model.specs.IsPlan.{names_nodes};
ghost use Rattle.live_graph.specs.Dials as spec;

use node_graph::number_of;
use scene_model::{Edit, Plan};

/// How many words the board has for each node.
const NODE_WORDS: u32 = 5;

/// The place of the word that an edit changes where it is done, or `None` for an edit of where a bus
/// leads. The edit's node is one of the plan's.
pub fn dial_of(plan: &Plan, edit: &Edit) -> Option<u32>
    requires { IsTrue (names_nodes (length plan.now.nodes) edit.now) }
    ensures { result ≡ spec.dial_of plan.now edit.now }
{
    let gains = NODE_WORDS * plan.nodes().len() as u32;
    match *edit {
        Edit::Attach { .. } | Edit::Detach { .. } => None,
        Edit::SetGain { node, out, .. } => match number_of(plan.buses(), node, out) {
            Some(bus) => Some(gains + bus),
            None => None,
        },
        Edit::Start { node } | Edit::Stop { node } => Some(NODE_WORDS * node),
        Edit::From { node, .. } => Some(NODE_WORDS * node + 1),
        Edit::Until { node, .. } => Some(NODE_WORDS * node + 2),
        Edit::Seek { node, .. } => Some(NODE_WORDS * node + 3),
        Edit::Loop { node, .. } => Some(NODE_WORDS * node + 4),
    }
}
