//! Where the sounds are in their clips.

ghost use Rattle.std.specs.Prelude.{◌≡◌, ◌<◌, ◌≤◌, ℕ, length, slice_index, slice_index_or, if◌then◌else◌};
ghost use Rattle.mix_model.specs.Mix.{next_frame};
ghost use Rattle.mix_model.specs.Pulled.{no_node};
ghost use Rattle.mix_model.specs.OrderedBuses.{mark_at, cursor_after};

use scene_model::NodeState;

/// Moves the cursor of each pulled node on by a frame, and no other. `marks` says which nodes are pulled,
/// and `frames` has the length of each node's clip, 0 for a group or a splitter; each of the three lists
/// has a place for each node.
pub fn advance_cursors(nodes: &[NodeState], marks: &[bool], frames: &[u64], cursors: &mut [u64])
    requires marks { length nodes.now ≤ length marks.now }
    requires frames { length nodes.now ≤ length frames.now }
    requires cursors { length nodes.now ≤ length cursors.old }
    ensures moved { (n : ℕ) → n < length nodes.now →
        slice_index cursors.new n ≡ cursor_after nodes.now marks.now frames.now cursors.old n }
    ensures rest { (n : ℕ) → length nodes.now ≤ n → slice_index cursors.new n ≡ slice_index cursors.old n }
{
    for n in 0..nodes.len() {
        cursors[n] = next_cursor(marks[n], frames[n], nodes[n].looped, cursors[n]);
    }
}

/// The cursor of a node after a frame: where the node is pulled it moves on to the next frame of its
/// clip, of `frames` frames, and at the clip's end to the first where the sound loops.
pub fn next_cursor(is_pulled: bool, frames: u64, looped: bool, cursor: u64) -> u64
    ensures { result ≡ (if is_pulled then next_frame frames looped cursor else cursor) }
{
    if !is_pulled {
        cursor
    } else if frames.saturating_sub(cursor) > 1 {
        cursor + 1
    } else if looped {
        0
    } else {
        frames
    }
}
