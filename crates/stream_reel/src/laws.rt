//! Laws of what was heard. Each function has an empty body; its contract is the law.

ghost use Rattle.std.specs.Prelude.{◌≡◌, ℕ, ◌+◌, [], ◌∷◌, ◌++◌};
ghost use Rattle.clip_decode.specs.ClipData.{ClipData};
ghost use Rattle.clip_decode.specs.Pages.{PageData};
ghost use Rattle.stream_reel.specs.Ends.{heard, HeardNothing};
ghost use Rattle.stream_reel.specs.Opened.{IsOpened};
ghost use Rattle.stream_reel.specs.Steps.{HeardNext, Sought};
ghost use Rattle.stream_reel.specs.declared.listener.Listener.{Listener};
ghost use Rattle.stream_reel.specs.declared.stream.Ends.{Ends};

/// The first page that is heard after a stream was opened is page 0, in round 0.
pub fn first_page_of_round_0()
    ensures { (clip : ClipData) (opened : Ends) (before after : Listener) (page : PageData)
        → IsOpened clip opened → HeardNothing opened.listener before → HeardNext before after page
        → heard after ≡ record { round = 0; number = 0; samples = page.samples } ∷ [] }
{}

/// The first page that is heard after a seek is the one that was sought, in the round that the seek
/// began.
pub fn first_page_of_a_later_round()
    ensures { (start sought before after : Listener) (number : ℕ) (page : PageData)
        → Sought start sought number → HeardNothing sought before → HeardNext before after page
        → heard after ≡ heard start ++ record { round = start.round + 1; number = number; samples = page.samples } ∷ [] }
{}
