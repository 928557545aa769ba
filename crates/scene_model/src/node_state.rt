ghost use Rattle.std.specs.Prelude.{◌≡◌, IfOk, map};
ghost use Rattle.scene_model.specs.Opening as spec;

use crate::node::{Node, NodeKind};
use plain_data::OutOfMemory;
use std::alloc::Global;

/// A node at some moment: its kind, which no edit changes, and its settings, which edits change. It
/// is active at frame `t` where it is started and `from <= t < until`.
#[derive(Debug, Clone, Copy, PartialEq, Eq)]
pub struct NodeState {
    /// Sound, group or splitter, as the script has it.
    pub kind: NodeKind,
    /// Whether it is started.
    pub started: bool,
    /// The first frame at which it may be active, 0 to 16777216 in a script.
    pub from: u32,
    /// The frame from which on it is no longer active, 0 to 16777216 in a script. It is never
    /// active where this is at most `from`.
    pub until: u32,
    /// How many seeks were made so far, 0 to 131071. It is 0 for a group or a splitter.
    pub seeks: u32,
    /// The place of the last seek, in frames at the scene's rate, 0 to 140737488355327, and 0
    /// before the first.
    pub place: u64,
    /// Whether a sound starts again at its end. It is `false` for a group or a splitter.
    pub looped: bool,
}

impl NodeState {
    /// The node as the script has it, with no seek made.
    pub(crate) fn of(node: &Node) -> Self
        ensures { result ≡ spec.state_of node.now }
    {
        NodeState {
            kind: node.kind,
            started: node.started,
            from: node.from,
            until: node.until,
            seeks: 0,
            place: 0,
            looped: matches!(node.kind, NodeKind::Sound { looped: true, .. }),
        }
    }
}

/// The nodes as the script has them.
pub(crate) fn states(alloc: Global, nodes: &[Node]) -> Result<Vec<NodeState>, OutOfMemory>
    ensures { IfOk result (λ states. states.items ≡ map spec.state_of nodes.now) }
{
    let states = nodes.iter().map(|node| NodeState::of(node)).collect(alloc)?;
    Ok(states)
}
