ghost use Rattle.std.specs.Prelude.{◌≡◌, ◌+◌, [], All, vec_len};
ghost use Rattle.std.specs.Arc.{arc_value};
ghost use Rattle.exec_reel.specs.Seats.{IsAt};
ghost use Rattle.exec_reel.specs.declared.view.Role.TheVariants.{Drawing};

use crate::reel_table::{ReelSeat, ReelTable};
use std::alloc::Global;
use std::sync::Arc;

/// What the tickets of a reel are drawn with, by [`Reel::draw`](crate::Reel::draw). There is one for each
/// reel.
#[derive(Drop)]
pub struct Drawer {
    pub(crate) shared: Arc<ReelTable, Global>,
    pub(crate) seat: ReelSeat,
    /// An owner of the shared part for each ticket that isn't drawn yet.
    pub(crate) owners: Vec<Arc<ReelTable, Global>>,
    pub(crate) ghost at: { IsAt (arc_value shared) seat },
    pub(crate) ghost draws: { (seat.me.0.role ≡ Drawing) × (seat.me.1 ≡ []) },
    pub(crate) ghost left: { seat.me.0.number + vec_len owners ≡ (arc_value shared).pages },
    pub(crate) ghost one: { All (λ a. arc_value a ≡ arc_value shared) owners.items },
}
