//! The words of the board.

ghost use Rattle.std.specs.Prelude.{◌≡◌, ◌+◌, ◌*◌, ◌<◌, Some, length, slice_get};
ghost use Rattle.scene_model.specs.IsPlan.{IsNodeState};
ghost use Rattle.mix_model.specs.Board as spec;

use scene_model::{NodeState, Plan};

/// The words of a node.
const NODE_WORDS: u32 = 5;

/// The first number that is past the place in the word of a seek, 2 ^ 47.
const SEEK_UNIT: u64 = 140_737_488_355_328;

/// The word at a place of the board of a plan: five words for each node, in the order of nodes
/// (started, first frame, the frame from which on it isn't active, seeks, looped), and then the gain of
/// each bus. It takes no memory. The place is one of the board.
pub fn board_word(plan: &Plan, place: u32) -> u64
    requires { place < 5 * length plan.now.nodes + length plan.now.buses }
    ensures { slice_get (spec.board plan.now) place ≡ Some result }
{
    let nodes = plan.nodes();
    let node = place / NODE_WORDS;
    if (node as usize) < nodes.len() {
        node_word(&nodes[node as usize], place % NODE_WORDS)
    } else {
        let bus = place - NODE_WORDS * nodes.len() as u32;
        u64::from(plan.buses()[bus as usize].gain)
    }
}

/// One of the words of a node.
fn node_word(state: &NodeState, word: u32) -> u64
    requires state { IsNodeState state.now }
    requires word { word < 5 }
    ensures { slice_get (spec.node_words state.now) word ≡ Some result }
{
    match word {
        0 => u64::from(state.started),
        1 => u64::from(state.from),
        2 => u64::from(state.until),
        3 => u64::from(state.seeks) * SEEK_UNIT + state.place,
        _ => u64::from(state.looped),
    }
}
