//! Laws of the mix, for readers of its definitions. The functions do nothing.

ghost use Rattle.std.specs.Prelude.{◌≡◌, ◌<◌, ◌≤◌, ◌+◌, ◌%◌, ◌++◌, [], ◌∷◌, ℕ, Bool, true, false, ℤ, pos, List, map, All, Ok, min, replicate};
ghost use Rattle.std.specs.Int.{int_div_euclid};
ghost use Rattle.std.specs.List.Sorted.{IsPermutation};
ghost use Rattle.clip_decode.specs.Frames.{frames, interleaved};
ghost use Rattle.clip_decode.specs.Widened.{widened};
ghost use Rattle.mix_fixed.specs.Sound.{Is24};
ghost use Rattle.scene_clips.specs.SceneClipData.{SceneClipData};
ghost use Rattle.scene_model.specs.declared.bus.Bus.{Bus};
ghost use Rattle.scene_model.specs.declared.edit.EditRow.{EditRow};
ghost use Rattle.scene_model.specs.IsScene.{IsScene};
ghost use Rattle.scene_model.specs.PlanData.{PlanData};
ghost use Rattle.scene_model.specs.Reach.{HasNoCycle};
ghost use Rattle.scene_model.specs.SceneData.{SceneData};
ghost use Rattle.scene_model.specs.Times.{edits_at, plan};
ghost use Rattle.wave_read.specs.Wave.{wave};
ghost use Rattle.mix_model.specs.Iteration.{Solves, SolvesOn};
ghost use Rattle.mix_model.specs.Laws.{with_buses, IsClosed, NoneAttached, with_edits, NoneSeeks, IsUntouched, PlaysOn};
ghost use Rattle.mix_model.specs.Mix.{node_frames, cursor, mix};
ghost use Rattle.mix_model.specs.Output.{wav};
ghost use Rattle.mix_model.specs.Pulled.{endpoint, pulled_by, pulled};
ghost use Rattle.mix_model.specs.ReadBack.{AreFramesOf, written_wave};
ghost use Rattle.mix_model.specs.Signals.{FrameState, input_by, input};

/// A law: in a plan without a cycle, as every plan is, the inputs of all nodes solve their
/// equations, and no other numbers do.
pub fn inputs_have_one_solution()
    ensures solved { (m : FrameState) (channel : ℕ) → HasNoCycle m.plan.buses → Solves (input_by m channel) (input m channel) }
    ensures only { (m : FrameState) (channel : ℕ) (values : ℕ → ℤ) → HasNoCycle m.plan.buses →
        Solves (input_by m channel) values → (n : ℕ) → values n ≡ input m channel n }
{}

/// A law: on a set of nodes that has with each node those whose inputs are passed on to it, one
/// assignment at most solves the equations of the inputs. What is pulled is such a set. So who
/// computes the inputs of the pulled nodes alone has the inputs of these nodes, the endpoint among
/// them.
pub fn inputs_hang_on_what_feeds_them()
    ensures agree { (m : FrameState) (channel : ℕ) (inside : ℕ → Bool) (values others : ℕ → ℤ) → HasNoCycle m.plan.buses → IsClosed m inside →
        SolvesOn inside (input_by m channel) values → SolvesOn inside (input_by m channel) others →
        (n : ℕ) → inside n ≡ true → values n ≡ others n }
    ensures closed { (m : FrameState) → HasNoCycle m.plan.buses → IsClosed m (pulled m.plan m.time) }
    ensures pulled { (m : FrameState) (channel : ℕ) (values : ℕ → ℤ) → HasNoCycle m.plan.buses →
        SolvesOn (pulled m.plan m.time) (input_by m channel) values →
        (n : ℕ) → pulled m.plan m.time n ≡ true → values n ≡ input m channel n }
{}

/// A law: in a plan without a cycle there is one answer to which nodes are pulled.
pub fn pulls_have_one_solution()
    ensures solved { (p : PlanData) (t : ℕ) → HasNoCycle p.buses → Solves (pulled_by p t) (pulled p t) }
    ensures only { (p : PlanData) (t : ℕ) (values : ℕ → Bool) → HasNoCycle p.buses →
        Solves (pulled_by p t) values → (n : ℕ) → values n ≡ pulled p t n }
{}

/// A law: inputs, and what is pulled, don't depend on the order in which buses are summed.
pub fn the_order_of_buses_makes_no_difference()
    ensures inputs { (m : FrameState) (buses : List Bus) (channel n : ℕ) → IsPermutation m.plan.buses buses →
        input (with_buses m buses) channel n ≡ input m channel n }
    ensures pulls { (p : PlanData) (buses : List Bus) (t n : ℕ) → IsPermutation p.buses buses →
        pulled (record p { buses = buses }) t n ≡ pulled p t n }
{}

/// A law: a node to which no bus is attached has the input 0, and a scene in which no bus is ever
/// attached to the endpoint is silence of its length.
pub fn what_is_not_attached_is_silent()
    ensures input { (m : FrameState) (channel n : ℕ) → NoneAttached m.plan.buses n → input m channel n ≡ pos 0 }
    ensures mix { (s : SceneData) (files : List (List ℕ)) →
        ((t : ℕ) → t < s.length → NoneAttached (plan s t).buses (endpoint (plan s t))) →
        mix s files ≡ replicate s.length (replicate s.channels (pos 0)) }
{}

/// A law: a scene sounds the same whatever its edits at its length and past it.
pub fn edits_past_the_end_change_nothing()
    ensures same { (s : SceneData) (rows : List EditRow) (files : List (List ℕ)) →
        ((t : ℕ) → t < s.length → edits_at rows t ≡ edits_at s.edits t) → mix (with_edits s rows) files ≡ mix s files }
    ensures one { (s : SceneData) (row : EditRow) (files : List (List ℕ)) → s.length ≤ row.at →
        mix (with_edits s (s.edits ++ row ∷ [])) files ≡ mix s files }
{}

/// A law: a node that isn't pulled at a frame has the same cursor at the next one, unless it is
/// sought there. So a node that was never pulled nor sought is at its first frame.
pub fn what_is_not_pulled_does_not_move()
    ensures stays { (clips : List SceneClipData) (s : SceneData) (n t : ℕ) → pulled (plan s t) t n ≡ false →
        NoneSeeks n (edits_at s.edits (t + 1)) → cursor clips s n (t + 1) ≡ cursor clips s n t }
    ensures first { (clips : List SceneClipData) (s : SceneData) (n t : ℕ) → IsUntouched s n t → cursor clips s n t ≡ 0 }
{}

/// A law: a sound that is pulled from frame 0 on and never sought plays its clip. At frame `t` it is
/// at frame `t` of the clip, and stays at the clip's end; where it is looped, it starts again there.
pub fn a_sound_plays_its_clip()
    ensures once { (clips : List SceneClipData) (s : SceneData) (n t : ℕ) → PlaysOn s n t false →
        cursor clips s n t ≡ min t (node_frames clips s n) }
    ensures looped { (clips : List SceneClipData) (s : SceneData) (n t : ℕ) → PlaysOn s n t true → 0 < node_frames clips s n →
        cursor clips s n t ≡ t % node_frames clips s n }
{}

/// A law: the WAVE file of a scene, read by the rules of the reader, says the scene's rate, channels,
/// width and length. At a width of 24 bits its frames are the very frames that were written, and at
/// 16 bits each sample is the greatest multiple of 256 that is not above the one that was written.
/// The frames of a mix are such frames: written at 24 bits and read back, they are the mix.
pub fn what_is_written_is_read_back()
    ensures wave { (s : SceneData) (written : List (List ℤ)) → IsScene s → AreFramesOf s written →
        wave (wav s written) ≡ Ok (written_wave s) }
    ensures frames { (s : SceneData) (written : List (List ℤ)) → IsScene s → AreFramesOf s written →
        All Is24 (interleaved written) → s.width ≡ 24 → frames (wav s written) ≡ written }
    ensures frames_16 { (s : SceneData) (written : List (List ℤ)) → IsScene s → AreFramesOf s written →
        All Is24 (interleaved written) → s.width ≡ 16 →
        frames (wav s written) ≡ map (map (λ x. widened (int_div_euclid x (pos 256)))) written }
    ensures mix_wave { (s : SceneData) (files : List (List ℕ)) → IsScene s →
        wave (wav s (mix s files)) ≡ Ok (written_wave s) }
    ensures mix { (s : SceneData) (files : List (List ℕ)) → IsScene s → s.width ≡ 24 →
        frames (wav s (mix s files)) ≡ mix s files }
{}
