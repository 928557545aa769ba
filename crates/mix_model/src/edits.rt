//! The edits of a frame.

ghost use Rattle.std.specs.Prelude.{◌≡◌, ◌≤◌, ◌+◌, ℕ, length, drop, fold, slice_index};
ghost use Rattle.scene_model.specs.Plans.{after};
ghost use Rattle.mix_model.specs.Due.{due, IsNext, AreInOrder, CanMakeAll, SeeksBelow};
ghost use Rattle.mix_model.specs.Mix.{cursor_after_edit};

use scene_model::{Edit, NumberedEdit, Plan, apply};

/// Makes the edits of a frame: in the plan, and the seeks among them in the cursors too.
///
/// `edits` are a scene's in the order of their frames, and `place` is that of the first which isn't of
/// an earlier frame. Each of them can be applied to the plan after those before it, as those of a scene
/// can to its opening plan. `frames` has the length of each node's clip, 0 for a group or a splitter,
/// and `cursors` the place of each node in its clip; a place past the clip's end is its end. Answers
/// the place of the first edit of a later frame.
pub fn make_due(
    edits: &[NumberedEdit],
    place: usize,
    time: u32,
    plan: &mut Plan,
    frames: &[u64],
    cursors: &mut [u64],
) -> usize
    requires order { AreInOrder edits.now }
    requires next { IsNext edits.now time place }
    requires can { CanMakeAll plan.old (drop place edits.now) }
    requires nodes { length plan.old.nodes ≤ length cursors.old }
    requires frames { length frames.now ≡ length cursors.old }
    ensures next { IsNext edits.now (time + 1) result }
    ensures plan { plan.new ≡ fold after plan.old (due edits.now time) }
    ensures cursors { (n : ℕ) → slice_index cursors.new n
        ≡ fold (cursor_after_edit n (slice_index frames.now n)) (slice_index cursors.old n) (due edits.now time) }
    ensures can { CanMakeAll plan.new (drop result edits.now) }
{
    let mut next = place;
    while next < edits.len() && edits[next].row.at == time {
        let edit = edits[next].row.edit;
        apply(plan, &edit);
        seek(&edit, frames, cursors);
        next += 1;
    }
    next
}

/// Sets the cursor of a node that is sought to the place, or to the clip's end where that comes first;
/// no other edit changes it. `frames` has the length of each node's clip, 0 for a group or a splitter.
pub fn seek(edit: &Edit, frames: &[u64], cursors: &mut [u64])
    requires node { SeeksBelow (length cursors.old) edit.now }
    requires frames { length frames.now ≡ length cursors.old }
    ensures { (n : ℕ) → slice_index cursors.new n
        ≡ cursor_after_edit n (slice_index frames.now n) (slice_index cursors.old n) edit.now }
{
    if let Edit::Seek { node, place } = *edit {
        cursors[node as usize] = place.min(frames[node as usize]);
    }
}
