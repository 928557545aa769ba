//! What a live run opens with: the two sides of each list, and the words of the board.

ghost use Rattle.std.specs.Prelude.{◌≡◌, ◌<◌, ◌≤◌, ◌+◌, ◌*◌, ◌^◌, IfOk, length, slice_index};
ghost use Rattle.scene_model.specs.Plans.{is_sound};
ghost use Rattle.mix_model.specs.Board.{board};
ghost use Rattle.node_graph.specs.ListData.{AreInputsOf};
ghost use Rattle.live_graph.specs.Dials.{most_words};
ghost use Rattle.live_graph.specs.InputEditors.{lists_of};
ghost use Rattle.live_graph.specs.Stages.{HadFewer};
ghost use Rattle.live_graph.specs.Passes.{ArePasses};

use crate::input_editor::InputEditor;
use bus_list::Pass;
use node_graph::{Feed, board_word, open_list};
use plain_data::OutOfMemory;
use scene_model::{NodeKind, NodeState, Plan};
use std::alloc::Global;

/// How many words the board has for each node.
const NODE_WORDS: u32 = 5;

/// The largest time, in frames.
const MOST_FRAMES: u64 = 16_777_216;

/// The largest gain, 16.0 in 1/65536.
const MOST_GAIN: u64 = 1_048_576;

/// The two sides of the lists of all inputs.
#[derive(Drop)]
pub(crate) struct Sides {
    /// An editor for each input, and none for a sound.
    pub(crate) inputs: Vec<InputEditor>,
    /// A pass for each input, and one of an empty list for a sound.
    pub(crate) passes: Vec<Pass<Feed>>,
}

/// Opens the lists of a plan's inputs. They take all the memory that they will ever need.
pub(crate) fn open_sides(alloc: Global, plan: &Plan) -> Result<Sides, OutOfMemory>
    ensures inputs { IfOk result (λ sides. AreInputsOf plan.now (lists_of sides.inputs.items)) }
    ensures few { IfOk result (λ sides. HadFewer 257 (lists_of sides.inputs.items)) }
    ensures passes { IfOk result (λ sides. ArePasses sides.inputs.items sides.passes.items) }
{
    let (nodes, buses) = (plan.nodes(), plan.buses());
    let count = nodes.len() as u32 + 1;
    let mut inputs = Vec::with_capacity(alloc, count as usize)?;
    let mut passes = Vec::with_capacity(alloc, count as usize)?;
    for node in 0..count {
        let (editor, pass) = open_list(alloc, buses, node)?.split();
        passes.push(pass)?;
        inputs.push(if is_sound(nodes, node) {
            InputEditor::none()
        } else {
            InputEditor::new(editor)
        })?;
    }
    Ok(Sides { inputs, passes })
}

/// Whether there is a node of that number, and it is a sound.
fn is_sound(nodes: &[NodeState], node: u32) -> bool
    ensures { result ≡ is_sound nodes.now node }
{
    match nodes.get(node as usize) {
        Some(state) => matches!(state.kind, NodeKind::Sound { .. }),
        None => false,
    }
}

/// The words of a plan's board, in order.
pub(crate) fn board_words(alloc: Global, plan: &Plan) -> Result<Vec<u64>, OutOfMemory>
    ensures { IfOk result (λ words. words.items ≡ board plan.now) }
{
    let count = NODE_WORDS * plan.nodes().len() as u32 + plan.buses().len() as u32;
    let mut words = Vec::with_capacity(alloc, count as usize)?;
    for place in 0..count {
        words.push(board_word(plan, place))?;
    }
    Ok(words)
}

/// The largest word at each place of a plan's board.
pub(crate) fn largest_words(alloc: Global, plan: &Plan) -> Result<Vec<u64>, OutOfMemory>
    ensures { IfOk result (λ words. words.items ≡ most_words (length plan.now.nodes) (length plan.now.buses)) }
{
    let nodes = plan.nodes().len() as u32;
    let buses = plan.buses().len() as u32;
    let mut words = Vec::with_capacity(alloc, (NODE_WORDS * nodes + buses) as usize)?;
    for place in 0..NODE_WORDS * nodes + buses {
        words.push(largest_word(nodes, buses, place))?;
    }
    Ok(words)
}

/// The largest word at a place of the board of that many nodes and buses.
fn largest_word(nodes: u32, buses: u32, place: u32) -> u64
    requires few { (nodes ≤ 128) × (buses ≤ 256) }
    requires place { place < 5 * nodes + buses }
    ensures { result ≡ slice_index (most_words nodes buses) place }
{
    if place >= NODE_WORDS * nodes {
        return MOST_GAIN;
    }
    let word = place % NODE_WORDS;
    // The first and the last word of a node are switches.
    if word % 4 == 0 {
        1
    } else if word == 3 {
        u64::MAX
    } else {
        MOST_FRAMES
    }
}
