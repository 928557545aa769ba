//! Laws of the definitions that the contracts cite. Each function has an empty body; its contract
//! is the law.

ghost use Rattle.std.specs.Prelude.{◌≡◌, ℕ, List, ◌+◌, map};
ghost use Rattle.std.specs.List.{range_with_len};
ghost use Rattle.ima_adpcm.specs.Blocks.{block_sample, block_state, first_codes, header, state_after};
ghost use Rattle.ima_adpcm.specs.Decoder.{predictors};

/// The samples of a channel, by the number of the frame, are the list of predictors that its codes
/// give: the header's predictor, and one further predictor for each code.
pub fn samples_are_predictors()
    ensures { (bytes : List ℕ) (ch c n : ℕ)
        → predictors (header bytes c) (first_codes bytes ch c n)
        ≡ map (block_sample bytes ch c) (range_with_len 0 (n + 1)) }
{}

/// A run can stop at any frame and go on: the decoder at frame `f`, run over the next `n` codes, is
/// the decoder at frame `f + n`.
pub fn run_can_be_resumed()
    ensures { (bytes : List ℕ) (ch c f n : ℕ)
        → state_after bytes ch c f (block_state bytes ch c f) n ≡ block_state bytes ch c (f + n) }
{}
