//! Who sees to it that the pages of a block are shown.

ghost use Rattle.std.specs.Prelude.{◌≡◌, true, IsSome, List};
ghost use Rattle.resource_mgr.specs.Tapes.{AreLater, AreShown};
ghost use Rattle.resource_mgr.specs.declared.tape.Tape.{Tape};

use crate::renderer::Renderer;

/// Sees to it that the pages that a block reads are shown.
pub(crate) trait PageSource {
    /// What holds of the tapes whose pages it shows.
    ghost shows: { Self → List Tape → Type 0 };

    /// Asks for the pages of the block that `step` said, until all of them are shown.
    fn make_ready(&mut self, renderer: &mut Renderer)
        requires next { IsSome renderer.old.next }
        requires shows { shows self.old renderer.old.tapes }
        ensures ready { renderer.new ≡ record renderer.old { tapes = renderer.new.tapes; ready = true } }
        ensures tapes { AreLater renderer.old.tapes renderer.new.tapes }
        ensures shows { shows self.new renderer.new.tapes };
}

/// Tapes to which all pages are shown.
#[derive(Drop)]
pub(crate) struct AllShown;

impl PageSource for AllShown {
    ghost shows = { λ _ tapes. AreShown tapes };

    fn make_ready(&mut self, renderer: &mut Renderer) {
        match renderer.ready() {
            Ok(()) => (),
            Err(_) => unreachable!(),
        }
    }
}
