//! Reels, from which the tickets of their pages are drawn.

ghost use Rattle.exec_reel.specs.Reels.{IsDrawerOf};

use exec_reel::{Drawer, Reel, Ticket};

/// A reel, with what its tickets are drawn with.
#[derive(Drop)]
pub struct Source {
    pub(crate) reel: Reel,
    pub(crate) drawer: Drawer,
    pub(crate) ghost own: { IsDrawerOf reel drawer },
}

impl Source {
    ghost use Rattle.std.specs.Prelude.{◌≡◌};
    ghost use Rattle.exec_reel.specs.Reels.{Draws};

    /// The ticket of the reel's next page, if there is one.
    pub(crate) fn draw(&mut self) -> Option<Ticket>
        ensures reel { self.new.reel ≡ self.old.reel }
        ensures drawn { Draws self.old.reel self.old.drawer self.new.drawer result }
    {
        self.reel.draw(&mut self.drawer)
    }
}
