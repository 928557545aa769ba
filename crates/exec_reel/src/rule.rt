//! The rule of the table, and what each kind of step tells.
ghost use Rattle.std.specs.Prelude.{ℕ};

use crate::cell::Cell;
use crate::view::{Opening, View};
use atomic_table::{Play, Split, TableRule};
use std::marker::{Brand, PhantomData};

/// The rule of turns and pages.
pub struct TurnRule;

impl TableRule<Cell, View, Opening> for TurnRule {
    ghost use Rattle.exec_reel.specs.Rule.{Kept};
    ghost use Rattle.exec_reel.specs.Steps.{first_view};

    ghost holds = { Kept };

    ghost first = { first_view };
}

/// The reader's seat is split off.
pub struct SplitsReader;

impl Split<View> for SplitsReader {
    ghost use Rattle.exec_reel.specs.Steps.{drawing, new_reader};

    ghost left = { drawing };

    ghost right = { new_reader };
}

/// A ticket's seat is split off.
pub struct SplitsTicket;

impl Split<View> for SplitsTicket {
    ghost use Rattle.exec_reel.specs.Steps.{drawing_next, new_ticket};

    ghost left = { drawing_next };

    ghost right = { new_ticket };
}

/// A fetch_add of 1 to the execution counter, by the drawer.
pub struct DrawsNumber;

impl Play<Cell, View> for DrawsNumber {
    ghost use Rattle.exec_reel.specs.Steps.{FetchedAdd};

    ghost then = { FetchedAdd };
}

/// A load of the pointer, by a ticket.
pub struct TicketLoads;

impl Play<Cell, View> for TicketLoads {
    ghost use Rattle.exec_reel.specs.Steps.{TicketLoaded};

    ghost then = { TicketLoaded };
}

/// A load at which the cursor goes out to the ticket.
pub struct TakesCursor;

impl Play<Cell, View> for TakesCursor {
    ghost use Rattle.exec_reel.specs.Steps.{CursorWentOut};

    ghost then = { CursorWentOut };
}

/// A load at which the page of its number goes out to the ticket.
pub struct TakesPage;

impl Play<Cell, View> for TakesPage {
    ghost use Rattle.exec_reel.specs.Steps.{PageWentOut};

    ghost then = { PageWentOut };
}

/// A load at which the page comes home.
pub struct ReturnsPage;

impl Play<Cell, View> for ReturnsPage {
    ghost use Rattle.exec_reel.specs.Steps.{PageCameIn};

    ghost then = { PageCameIn };
}

/// A load at which the cursor comes home.
pub struct ReturnsCursor;

impl Play<Cell, View> for ReturnsCursor {
    ghost use Rattle.exec_reel.specs.Steps.{CursorCameIn};

    ghost then = { CursorCameIn };
}

/// A store to the pointer, by the ticket whose page is home.
pub struct StoresPointer;

impl Play<Cell, View> for StoresPointer {
    ghost use Rattle.exec_reel.specs.Steps.{PointerStored};

    ghost then = { PointerStored };
}

/// A load of the pointer, by the reader.
pub struct ReaderLoads;

impl Play<Cell, View> for ReaderLoads {
    ghost use Rattle.exec_reel.specs.Steps.{ReaderLoaded};

    ghost then = { ReaderLoaded };
}

/// Which page the reader takes.
pub trait PageNumber {
    ghost number: { ℕ };
}

impl PageNumber for Brand {
    ghost number = { 0 };
}

/// A load at which a page goes out to the reader.
pub struct ReaderTakes<B: PageNumber> {
    of: PhantomData<B>,
}

impl<B: PageNumber> Play<Cell, View> for ReaderTakes<B> {
    ghost use Rattle.exec_reel.specs.Steps.{ReaderTook};

    ghost then = { ReaderTook B.number };
}
