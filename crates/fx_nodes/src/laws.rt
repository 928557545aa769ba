//! Laws of the definitions that [`Chain`](crate::Chain) meets, for crates that stand on it. The functions do nothing.

ghost use Rattle.std.specs.Prelude.{◌≡◌, ℕ, ◌+◌, ◌-◌, ◌*◌, ◌/◌, ◌%◌, ◌<◌, ◌≤◌, ℤ, pos, ◌+ℤ◌, ◌-ℤ◌, ◌*ℤ◌, [], ◌++◌, List, length, take, IsTrue, Some};
ghost use Rattle.std.specs.Int.{int_div_euclid};
ghost use Rattle.mix_fixed.specs.Sound.{sat24, scale};
ghost use Rattle.fx_nodes.specs.Blocks.{AreGiven, Block, all_given, all_taken};
ghost use Rattle.fx_nodes.specs.Effects.{chain_value, delayed, fade_gain, is_in_range};
ghost use Rattle.fx_nodes.specs.Forms.{IsWritten};
ghost use Rattle.fx_nodes.specs.Words.{effect_of_word};
ghost use Rattle.fx_nodes.specs.declared.effect.Effect.{Effect};

/// Nothing comes out of a delay line before its length. From then on it is what went in by that length before, with what
/// came out then by the decay.
pub fn a_delay_feeds_back()
    ensures silent { (x : ℕ → ℤ) (frames decay t : ℕ) → t < frames → delayed x frames decay t ≡ pos 0 }
    ensures fed { (x : ℕ → ℤ) (frames decay t : ℕ) → 0 < frames → frames ≤ t
        → delayed x frames decay t ≡ sat24 (x (t - frames) +ℤ scale (delayed x frames decay (t - frames)) decay) }
{}

/// A delay of n stereo frames is one of 2 n interleaved samples: what comes out of it for sample s is what comes out for that
/// sample's channel and frame.
pub fn both_channels_go_through_one_ring()
    ensures { (x : ℕ → ℤ) (frames decay s : ℕ) → 0 < frames
        → delayed x (2 * frames) decay s ≡ delayed (λ t. x (2 * t + s % 2)) frames decay (s / 2) }
{}

/// Between its two frames a fade goes by equal parts from its first gain to its last one, rounded down, whether it rises or
/// falls.
pub fn a_fade_goes_by_equal_parts()
    ensures { (from to first last t : ℕ) → from ≤ t → t < to
        → pos (fade_gain from to first last t) ≡ pos first +ℤ int_div_euclid ((pos last -ℤ pos first) *ℤ pos (t - from)) (pos (to - from)) }
{}

/// Effects make as many frames as they are given.
pub fn a_chain_keeps_the_number_of_frames()
    ensures { (effects : List Effect) (frames : List ℤ) → length (chain_value effects frames) ≡ length frames }
{}

/// Effects look at no later frame: what they make of the first frames stays, whichever frames follow.
pub fn effects_look_at_no_later_frame()
    ensures { (effects : List Effect) (first rest : List ℤ) → take (length first) (chain_value effects (first ++ rest)) ≡ chain_value effects first }
{}

/// However frames are cut into blocks, the blocks that a chain gives, one behind the other, are what its effects make of all
/// frames together.
pub fn frames_may_be_cut_anywhere()
    ensures { (effects : List Effect) (blocks : List Block) → AreGiven effects [] blocks
        → all_given blocks ≡ chain_value effects (all_taken blocks) }
{}

/// A word is read to an effect exactly where it writes it, by its form, and all numbers are in range.
pub fn words_write_effects()
    ensures read { (word : List ℕ) (effect : Effect) → effect_of_word word ≡ Some effect → IsWritten word effect × IsTrue (is_in_range effect) }
    ensures written { (word : List ℕ) (effect : Effect) → IsWritten word effect → IsTrue (is_in_range effect) → effect_of_word word ≡ Some effect }
{}
