//! The table, with one function for each kind of step. It is private to this module, so that no other
//! body makes a step or adds a note.
ghost use Rattle.std.specs.Prelude.{◌≡◌, ℕ, ◌+◌, ◌^◌, ◌<◌, ◌≤◌, [], ◌∷◌, false, IfOk};
ghost use Rattle.clip_decode.specs.declared.cursor.Cursor.{Cursor};
ghost use Rattle.exec_reel.specs.ClipPages.{page_total, page_of, empty_page, ComesTo};
ghost use Rattle.exec_reel.specs.Cells.{AreCells};
ghost use Rattle.exec_reel.specs.Rule.{is_among};
ghost use Rattle.atomic_table.specs.Table.{rest};
ghost use Rattle.exec_reel.specs.Steps.{becomes, drawing, new_reader, drawing_next, new_ticket, turn_or_not, shown_to, with_page, first_view};

use crate::cell::Cell;
use crate::rule::{
    DrawsNumber, PageNumber, ReaderLoads, ReaderTakes, ReturnsCursor, ReturnsPage, SplitsReader,
    SplitsTicket, StoresPointer, TakesCursor, TakesPage, TicketLoads, TurnRule,
};
use crate::view::{Note, Opening, Role, Stage, View};
use atomic_table::{Seat, Table};
use plain_data::OutOfMemory;
use std::alloc::Global;
use std::marker::Brand;

/// The place of the execution counter, and that of the pointer, among the words.
const COUNTER: usize = 0;

const POINTER: usize = 1;

/// A seat of the table.
pub(crate) type ReelSeat = Seat<Cell, View>;

/// The table of a [`Reel`](crate::Reel), with the clip whose pages it holds.
#[derive(Drop)]
pub struct ReelTable {
    table: Table<Cell, View, Opening, TurnRule, Global>,
    pub(crate) opening: Opening,
    pub(crate) pages: u32,
    ghost keyed: { table.shared.key ≡ opening },
    ghost words: { table.shared.table_id.words ≡ 2 },
    ghost slots: { table.shared.table_id.slots ≡ pages + 1 },
    pub(crate) ghost counted: { pages ≡ page_total opening.clip },
}

impl ReelTable {
    ghost use Rattle.exec_reel.specs.Seats.{IsAt, Same};

    /// Splits the reader's seat off the first one, which is the drawer's from then on.
    pub(crate) fn split_reader(&self, seat: &mut ReelSeat) -> ReelSeat
        requires at { IsAt self.now seat.old }
        requires role { seat.old.me.0.role ≡ Role.Opener }
        ensures same { Same seat.old seat.new }
        ensures me { seat.new.me ≡ (drawing seat.old.me.0, seat.old.me.1) }
        ensures reader { IsAt self.now result × (result.me ≡ (new_reader seat.old.me.0, [])) }
    {
        self.table.shared.split_seat::<SplitsReader>(seat)
    }

    /// A fetch_add of 1 to the execution counter, which gives the counter as it was: the number that is
    /// drawn.
    pub(crate) fn draw_number(&self, drawer: &mut ReelSeat) -> u64
        requires at { IsAt self.now drawer.old }
        requires role { drawer.old.me.0.role ≡ Role.Drawing }
        requires left { drawer.old.me.0.number < self.now.pages }
        ensures same { Same drawer.old drawer.new }
        ensures me { drawer.new.me ≡ (becomes Role.Drawn (Note.FetchAdd result) drawer.old.me.0, drawer.old.me.1) }
        ensures number { (result ≡ drawer.old.me.0.number) × (result < 2 ^ 32) }
    {
        self.table
            .shared
            .fetch_add::<DrawsNumber>(drawer, COUNTER, 1)
    }

    /// Splits the seat of the ticket that was drawn off the drawer's.
    pub(crate) fn split_ticket(&self, drawer: &mut ReelSeat) -> ReelSeat
        requires at { IsAt self.now drawer.old }
        requires role { drawer.old.me.0.role ≡ Role.Drawn }
        ensures same { Same drawer.old drawer.new }
        ensures me { drawer.new.me ≡ (drawing_next drawer.old.me.0, drawer.old.me.1) }
        ensures ticket { IsAt self.now result × (result.me ≡ (new_ticket drawer.old.me.0, [])) }
    {
        self.table.shared.split_seat::<SplitsTicket>(drawer)
    }

    /// A load of the pointer by a ticket, which gives it. It is at most the ticket's number. Where it is
    /// the number, the ticket's job may be run.
    pub(crate) fn load_pointer(&self, ticket: &mut ReelSeat) -> u64
        requires at { IsAt self.now ticket.old }
        requires role { ticket.old.me.0.role ≡ Role.Waiting }
        ensures same { Same ticket.old ticket.new }
        ensures me { ticket.new.me ≡ (turn_or_not result ticket.old.me.0, ticket.old.me.1) }
        ensures most { result ≤ ticket.old.me.0.number }
    {
        self.table.shared.load::<TicketLoads>(ticket, POINTER)
    }

    /// A load of the pointer at which the cursor goes out to the ticket's seat.
    pub(crate) fn take_cursor(&self, ticket: &mut ReelSeat) -> u64
        requires at { IsAt self.now ticket.old }
        requires role { ticket.old.me.0.role ≡ Role.Working Stage.Ready }
        ensures same { Same ticket.old ticket.new }
        ensures me { (x : Cursor) × ComesTo ticket.old.me.0.clip ticket.old.me.0.number x
            × (ticket.new.me ≡ (
              becomes (Role.Working Stage.CursorTaken) (Note.CursorOut result) ticket.old.me.0,
              (self.now.pages, Cell.Decoder x) ∷ ticket.old.me.1,
            )) }
        ensures pointer { result ≡ ticket.old.me.0.number }
    {
        self.table.shared.load::<TakesCursor>(ticket, POINTER)
    }

    /// A load of the pointer at which the page of the ticket's number goes out to its seat, empty.
    pub(crate) fn take_page(&self, ticket: &mut ReelSeat) -> u64
        requires at { IsAt self.now ticket.old }
        requires role { ticket.old.me.0.role ≡ Role.Working Stage.CursorTaken }
        ensures same { Same ticket.old ticket.new }
        ensures me { ticket.new.me
            ≡ (
              becomes (Role.Working Stage.PageTaken) (Note.PageOut ticket.old.me.0.number result) ticket.old.me.0,
              (ticket.old.me.0.number, Cell.Page (empty_page ticket.old.me.0.clip)) ∷ ticket.old.me.1,
            ) }
        ensures pointer { result ≡ ticket.old.me.0.number }
    {
        self.table.shared.load::<TakesPage>(ticket, POINTER)
    }

    /// A load of the pointer at which the page of the ticket's number comes home, filled.
    pub(crate) fn return_page(&self, ticket: &mut ReelSeat) -> u64
        requires at { IsAt self.now ticket.old }
        requires role { ticket.old.me.0.role ≡ Role.Working Stage.PageTaken }
        requires page { ticket.old.me.1
            ≡ (ticket.old.me.0.number, Cell.Page (page_of ticket.old.me.0.clip ticket.old.me.0.number)) ∷ rest ticket.old.me.1 }
        ensures same { Same ticket.old ticket.new }
        ensures me { ticket.new.me
            ≡ (becomes (Role.Working Stage.PageHome) (Note.PageIn ticket.old.me.0.number result) ticket.old.me.0, rest ticket.old.me.1) }
        ensures pointer { result ≡ ticket.old.me.0.number }
    {
        self.table.shared.load::<ReturnsPage>(ticket, POINTER)
    }

    /// A load of the pointer at which the cursor comes home. It comes to the next page.
    pub(crate) fn return_cursor(&self, ticket: &mut ReelSeat) -> u64
        requires at { IsAt self.now ticket.old }
        requires role { ticket.old.me.0.role ≡ Role.Working Stage.PageHome }
        requires cursor { (x : Cursor) × ComesTo ticket.old.me.0.clip (ticket.old.me.0.number + 1) x
            × (ticket.old.me.1 ≡ (self.now.pages, Cell.Decoder x) ∷ rest ticket.old.me.1) }
        ensures same { Same ticket.old ticket.new }
        ensures me { ticket.new.me
            ≡ (becomes (Role.Working Stage.CursorHome) (Note.CursorIn result) ticket.old.me.0, rest ticket.old.me.1) }
        ensures pointer { result ≡ ticket.old.me.0.number }
    {
        self.table.shared.load::<ReturnsCursor>(ticket, POINTER)
    }

    /// A store of the ticket's number plus 1 to the pointer, which shows the page.
    pub(crate) fn store_pointer(&self, ticket: &mut ReelSeat, next: u64)
        requires at { IsAt self.now ticket.old }
        requires role { ticket.old.me.0.role ≡ Role.Working Stage.CursorHome }
        requires next { next ≡ ticket.old.me.0.number + 1 }
        ensures same { Same ticket.old ticket.new }
        ensures me { ticket.new.me ≡ (becomes Role.Ended (Note.StorePointer next) ticket.old.me.0, ticket.old.me.1) }
    {
        self.table
            .shared
            .store::<StoresPointer>(ticket, POINTER, next);
    }

    /// A load of the pointer by the reader, which gives how many pages are shown.
    pub(crate) fn load_shown(&self, reader: &mut ReelSeat) -> u64
        requires at { IsAt self.now reader.old }
        requires role { reader.old.me.0.role ≡ Role.Reading }
        ensures same { Same reader.old reader.new }
        ensures me { reader.new.me ≡ (shown_to result reader.old.me.0, reader.old.me.1) }
        ensures bounds { (reader.old.me.0.shown ≤ result) × (result ≤ self.now.pages) × (result < 2 ^ 32) }
    {
        self.table.shared.load::<ReaderLoads>(reader, POINTER)
    }

    /// A load of the pointer at which a page goes out to the reader, for good.
    pub(crate) fn take_shown(&self, reader: &mut ReelSeat, page: u32) -> u64
        requires at { IsAt self.now reader.old }
        requires role { reader.old.me.0.role ≡ Role.Reading }
        requires shown { page < reader.old.me.0.shown }
        requires home { is_among page reader.old.me.0.taken ≡ false }
        ensures same { Same reader.old reader.new }
        ensures me { reader.new.me
            ≡ (with_page page result reader.old.me.0, (page, Cell.Page (page_of reader.old.me.0.clip page)) ∷ reader.old.me.1) }
    {
        self.take_numbered::<Brand>(reader, page)
    }

    fn take_numbered<B: PageNumber>(&self, reader: &mut ReelSeat, page: u32) -> u64
        requires at { IsAt self.now reader.old }
        requires role { reader.old.me.0.role ≡ Role.Reading }
        requires shown { page < reader.old.me.0.shown }
        requires home { is_among page reader.old.me.0.taken ≡ false }
        requires number { page ≡ B.number }
        ensures same { Same reader.old reader.new }
        ensures me { reader.new.me
            ≡ (with_page page result reader.old.me.0, (page, Cell.Page (page_of reader.old.me.0.clip page)) ∷ reader.old.me.1) }
    {
        self.table.shared.load::<ReaderTakes<B>>(reader, POINTER)
    }

    /// A plain read and write of the slot that the seat took last.
    pub(crate) fn exchange(&self, seat: &mut ReelSeat, slot: u32, new: Cell) -> Cell
        requires at { IsAt self.now seat.old }
        requires has { (x : Cell) × (seat.old.me.1 ≡ (slot, x) ∷ rest seat.old.me.1) }
        ensures same { Same seat.old seat.new }
        ensures old { seat.old.me.1 ≡ (slot, result) ∷ rest seat.old.me.1 }
        ensures new { seat.new.me ≡ (seat.old.me.0, (slot, new) ∷ rest seat.old.me.1) }
    {
        self.table.shared.exchange(seat, slot as usize, new)
    }

    /// A table for a clip, whose first pages are filled, and its first seat. The cells are the clip's
    /// pages and behind them the cursor.
    pub(crate) fn new(
        alloc: Global,
        opening: Opening,
        pages: u32,
        cells: Vec<Cell>,
    ) -> Result<(ReelTable, ReelSeat), OutOfMemory>
        requires pages { pages ≡ page_total opening.clip }
        requires filled { opening.filled ≤ pages }
        requires cells { AreCells opening.clip opening.filled cells.items }
        ensures table { IfOk result (λ r. (r.0.opening ≡ opening) × (r.0.pages ≡ pages)) }
        ensures seat { IfOk result (λ r. IsAt r.0 r.1 × (r.1.me ≡ (first_view opening, []))) }
    {
        let filled = u64::from(opening.filled);
        let Ok((table, seat)) = Table::new(alloc, &[filled, filled], cells, &opening) else {
            return Err(OutOfMemory);
        };
        Ok((
            ReelTable {
                table,
                opening,
                pages,
            },
            seat,
        ))
    }
}
