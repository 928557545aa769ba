//! The edits of a frame.

ghost use Rattle.std.specs.Prelude.{◌≡◌, ◌≤◌, ◌+◌, ℕ, false, length, drop, fold, slice_index};
ghost use Rattle.scene_model.specs.Plans.{after};
ghost use Rattle.mix_model.specs.Due.{due, IsNext, AreInOrder, CanMakeAll};
ghost use Rattle.mix_model.specs.Mix.{cursor_after_edit};
ghost use Rattle.engine.specs.Edits.{is_of_bus};

use mix_model::seek;
use node_graph::Stage;
use scene_model::{Edit, NumberedEdit};

/// How far the edits of a frame went.
#[derive(Clone, Copy)]
pub(crate) struct Made {
    /// The place of the first edit of a later frame.
    pub(crate) next: usize,
    /// Whether one of them was of a bus.
    pub(crate) buses: bool,
}

/// Makes the edits of a frame: in the stage, and the seeks among them in the cursors too. It takes no
/// memory.
///
/// `edits` are a scene's in the order of their frames, and `place` is that of the first which isn't of
/// an earlier frame. Each of them can be made after those before it, as those of a scene can.
/// `frames` has the length of each node's clip, 0 for a group or a splitter, and `cursors` the place
/// of each node in its clip; a place past the clip's end is its end.
pub(crate) fn make_due(
    edits: &[NumberedEdit],
    place: usize,
    time: u32,
    stage: &mut Stage,
    frames: &[u64],
    cursors: &mut [u64],
) -> Made
    requires order { AreInOrder edits.now }
    requires next { IsNext edits.now time place }
    requires can { CanMakeAll stage.old (drop place edits.now) }
    requires nodes { length stage.old.nodes ≤ length cursors.old }
    requires frames { length frames.now ≡ length cursors.old }
    ensures next { IsNext edits.now (time + 1) result.next }
    ensures plan { stage.new ≡ fold after stage.old (due edits.now time) }
    ensures cursors { (n : ℕ) → slice_index cursors.new n
        ≡ fold (cursor_after_edit n (slice_index frames.now n)) (slice_index cursors.old n) (due edits.now time) }
    ensures buses { result.buses ≡ false → stage.new.buses ≡ stage.old.buses }
    ensures can { CanMakeAll stage.new (drop result.next edits.now) }
{
    let mut next = place;
    let mut buses = false;
    while next < edits.len() && edits[next].row.at == time {
        let edit = edits[next].row.edit;
        stage.edit(&edit);
        seek(&edit, frames, cursors);
        buses |= is_of_bus(&edit);
        next += 1;
    }
    Made { next, buses }
}

/// Whether an edit is of a bus: of where it is attached, or of its gain. The others leave all buses as they are.
fn is_of_bus(edit: &Edit) -> bool
    ensures { result ≡ is_of_bus edit.now }
{
    matches!(
        edit,
        Edit::Attach { .. } | Edit::Detach { .. } | Edit::SetGain { .. }
    )
}
