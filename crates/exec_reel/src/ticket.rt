//! Tickets, and what became of them.
ghost use Rattle.std.specs.Prelude.{◌≡◌, ◌<◌, []};
ghost use Rattle.std.specs.Arc.{arc_value};
ghost use Rattle.exec_reel.specs.Seats.{IsAt};
ghost use Rattle.exec_reel.specs.declared.view.Role.TheVariants.{Waiting};

use crate::reel_table::{ReelSeat, ReelTable};
use std::alloc::Global;
use std::sync::Arc;

/// The right to decode one page of a reel, the one of its number. [`Reel::run`](crate::Reel::run) does
/// it, once it is that page's turn.
///
/// It is neither `Clone` nor `Copy`. Where one is dropped, its page is never shown, nor any after it.
#[derive(Drop)]
pub struct Ticket {
    pub(crate) shared: Arc<ReelTable, Global>,
    pub(crate) seat: ReelSeat,
    pub(crate) number: u32,
    pub(crate) ghost at: { IsAt (arc_value shared) seat },
    pub(crate) ghost waits: { (seat.me.0.role ≡ Waiting) × (seat.me.0.number ≡ number) × (seat.me.1 ≡ []) },
    pub(crate) ghost below: { number < (arc_value shared).pages },
}

impl Ticket {
    ghost use Rattle.exec_reel.specs.Tickets.{number_of};

    /// The ticket's number, which is that of its page, counted from 0.
    pub fn number(&self) -> u32
        ensures { result ≡ number_of self.now }
    {
        self.number
    }
}

/// What is left of a ticket whose page was decoded: its seat, in which contracts see its number and its
/// notes.
#[derive(Drop)]
pub struct Ended {
    pub(crate) seat: ReelSeat,
}

/// What became of a ticket's job.
#[derive(Drop)]
pub enum Ran {
    /// It isn't the turn of the ticket's page yet. The ticket is handed back.
    Early {
        ticket: Ticket,
        /// The number of the page whose turn it is, which is less than the ticket's.
        pointer: u32,
    },
    /// The page was decoded, and is shown.
    Done {
        ended: Ended,
    },
}
