//! Laws of frames that follow one another, for a renderer that computes many of them at a time. The
//! functions do nothing.

ghost use Rattle.std.specs.Prelude.{◌≡◌, ◌<◌, ◌≤◌, ◌+◌, ◌*◌, ◌/◌, ◌%◌, ◌++◌, ℕ, suc, ℤ, pos, Bool, true, false, List, drop, fold, length, slice_index, slice_index_or, if◌then◌else◌};
ghost use Rattle.clip_decode.specs.Frames.{interleaved};
ghost use Rattle.scene_clips.specs.SceneClipData.{SceneClipData};
ghost use Rattle.scene_model.specs.IsScene.{IsScene};
ghost use Rattle.scene_model.specs.Opening.{opening};
ghost use Rattle.scene_model.specs.Order.{in_order};
ghost use Rattle.scene_model.specs.PlanData.{PlanData};
ghost use Rattle.scene_model.specs.Plans.{after};
ghost use Rattle.scene_model.specs.SceneData.{SceneData};
ghost use Rattle.scene_model.specs.Times.{plan_before, plan};
ghost use Rattle.mix_model.specs.Due.{due, frame_at, IsNext, AreInOrder, CanMakeAll};
ghost use Rattle.mix_model.specs.Mix.{node_frames, cursor_after_edit, next_cursor, cursor_before, cursor, frame_state, frames_from};
ghost use Rattle.mix_model.specs.Moments.{Moment, IsBeforeEdits, IsAfterEdits};
ghost use Rattle.mix_model.specs.Pulled.{endpoint, node, pulled};
ghost use Rattle.mix_model.specs.Signals.{input};
ghost use Rattle.mix_model.specs.Spans.{cursor_on, state_on, IsQuiet, IsSteady, AreApart, played, cursor_in};

/// A law: frames that follow one another can be made in two goes.
pub fn frames_can_be_split()
    ensures { (clips : List SceneClipData) (s : SceneData) (t m n : ℕ) →
        frames_from clips s t (m + n) ≡ frames_from clips s t m ++ frames_from clips s (t + m) n }
{}

/// A law: the samples of frames that follow one another, interleaved, are the endpoint's inputs: the one
/// at place `j` is that of channel `j % channels` in the frame `j / channels` frames after the first.
pub fn samples_stand_frame_by_frame()
    ensures { (clips : List SceneClipData) (s : SceneData) (t count : ℕ) (samples : List ℤ) → 0 < s.channels →
        length samples ≡ count * s.channels →
        ((j : ℕ) → j < length samples → slice_index_or samples j (pos 0)
        ≡ input (frame_state clips s (t + j / s.channels)) (j % s.channels) (endpoint (plan s (t + j / s.channels)))) →
        samples ≡ interleaved (frames_from clips s t count) }
{}

/// A law: after the edits of frame `t` no edit falls before the frame of the next one, whose place is
/// known.
pub fn no_edit_falls_before_the_next()
    ensures { (s : SceneData) (t place count : ℕ) → IsNext (in_order s.edits) (t + 1) place →
        ((k : ℕ) → place ≤ k → k < length (in_order s.edits) → t + count ≤ frame_at (in_order s.edits) k) →
        IsQuiet s.edits t count }
{}

/// A law: while no edit falls, what a frame depends on goes on from the first frame: the plan stays,
/// the time runs, and the cursors move frame by frame. So the plan and the cursors before the edits of
/// the frame that follows are those that the first frame's have come to.
pub fn frames_go_on_between_edits()
    ensures states { (clips : List SceneClipData) (s : SceneData) (t count : ℕ) → IsQuiet s.edits t count →
        (i : ℕ) → i < count → frame_state clips s (t + i) ≡ state_on (node_frames clips s) (frame_state clips s t) i }
    ensures next_plan { (s : SceneData) (t count : ℕ) → IsQuiet s.edits t (suc count) →
        plan_before s (t + suc count) ≡ plan s t }
    ensures next_cursors { (clips : List SceneClipData) (s : SceneData) (t count n : ℕ) → IsQuiet s.edits t (suc count) →
        cursor_before clips s n (t + suc count)
        ≡ cursor_on (plan s t) t n (node_frames clips s n) (cursor clips s n t) (suc count) }
{}

/// A law: while no time of a node falls, the same nodes are active, so that the same nodes are pulled:
/// the cursor of a node that is pulled plays on frame by frame, and that of another stays.
pub fn pulls_stay_between_times()
    ensures active { (p : PlanData) (t count : ℕ) → ((n : ℕ) → AreApart (node p n) t (t + count)) → IsSteady p t count }
    ensures pulled { (p : PlanData) (t count n : ℕ) → IsSteady p t count → (i : ℕ) → i < count →
        pulled p (t + i) n ≡ pulled p t n }
    ensures cursors { (p : PlanData) (t count n frames cursor : ℕ) → IsSteady p t count → (i : ℕ) → i ≤ count →
        cursor_on p t n frames cursor i ≡ cursor_in (pulled p t n) frames (node p n).looped cursor i }
{}

/// A law: a sound that is played for `i` frames is `i` frames later in its clip, as long as it is inside
/// it. After the clip's last frame it is at the clip's end, where it stays, or, where it loops, at the
/// clip's first frame. One that loops and stands at the end is at the first frame after one frame more.
pub fn a_sound_plays_on()
    ensures inside { (frames cursor : ℕ) (looped : Bool) (i : ℕ) → cursor + i < frames →
        played frames looped cursor i ≡ cursor + i }
    ensures end { (frames cursor : ℕ) (looped : Bool) (i : ℕ) → cursor + suc i ≡ frames →
        played frames looped cursor (suc i) ≡ (if looped then 0 else frames) }
    ensures more { (frames cursor : ℕ) (looped : Bool) (i j : ℕ) →
        played frames looped cursor (i + j) ≡ played frames looped (played frames looped cursor i) j }
    ensures ended { (frames i : ℕ) → played frames false frames i ≡ frames }
    ensures again { (frames : ℕ) → played frames true frames 1 ≡ 0 }
    ensures around { (frames i : ℕ) → 0 < frames → played frames true 0 i ≡ i % frames }
{}

/// A law: a scene goes on from moment to moment. It begins before the edits of frame 0, with its opening
/// plan and each cursor at 0, and its edits are in order and can all be made. The edits of a frame lead
/// to the moment after them, and a frame to the moment before the edits of the next one. Where no edit
/// falls on the frames after the first, so do that many frames at once.
pub fn moments_follow_one_another()
    ensures begins { (clips : List SceneClipData) (s : SceneData) (cursors : List ℕ) → IsScene s →
        ((n : ℕ) → slice_index cursors n ≡ 0) →
        IsBeforeEdits clips s (record { plan = opening s; time = 0; place = 0; cursors = cursors }) }
    ensures order { (s : SceneData) → AreInOrder (in_order s.edits) }
    ensures edits { (clips : List SceneClipData) (s : SceneData) (m : Moment) (frames : List ℕ) (p : PlanData) (place : ℕ) (cursors : List ℕ) →
        IsBeforeEdits clips s m → ((n : ℕ) → slice_index frames n ≡ node_frames clips s n) →
        IsNext (in_order s.edits) (m.time + 1) place →
        p ≡ fold after m.plan (due (in_order s.edits) m.time) →
        CanMakeAll p (drop place (in_order s.edits)) →
        ((n : ℕ) → slice_index cursors n
        ≡ fold (cursor_after_edit n (slice_index frames n)) (slice_index m.cursors n) (due (in_order s.edits) m.time)) →
        IsAfterEdits clips s (record { plan = p; time = m.time; place = place; cursors = cursors }) }
    ensures frame { (clips : List SceneClipData) (s : SceneData) (m : Moment) (cursors : List ℕ) → IsAfterEdits clips s m →
        ((n : ℕ) → slice_index cursors n ≡ next_cursor m.plan m.time n (node_frames clips s n) (slice_index m.cursors n)) →
        IsBeforeEdits clips s (record { plan = m.plan; time = m.time + 1; place = m.place; cursors = cursors }) }
    ensures frames { (clips : List SceneClipData) (s : SceneData) (m : Moment) (count : ℕ) (cursors : List ℕ) → IsAfterEdits clips s m →
        ((k : ℕ) → m.place ≤ k → k < length (in_order s.edits) → m.time + suc count ≤ frame_at (in_order s.edits) k) →
        ((n : ℕ) → slice_index cursors n
        ≡ cursor_on m.plan m.time n (node_frames clips s n) (slice_index m.cursors n) (suc count)) →
        IsBeforeEdits clips s (record { plan = m.plan; time = m.time + suc count; place = m.place; cursors = cursors }) }
{}
