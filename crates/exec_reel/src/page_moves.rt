//! How the cursor and the pages move between the table and those who use them: a ticket whose turn it is,
//! and the reader.
ghost use Rattle.std.specs.Prelude.{◌≡◌, ℕ, ◌+◌, ◌<◌, false, [], ◌∷◌};
ghost use Rattle.atomic_table.specs.Table.{rest};
ghost use Rattle.exec_reel.specs.ClipPages.{page_of, empty_page, ComesTo};
ghost use Rattle.exec_reel.specs.Rule.{is_among};
ghost use Rattle.exec_reel.specs.Steps.{becomes, decoded, with_page};

use crate::cell::Cell;
use crate::reel_table::{ReelSeat, ReelTable};
use crate::view::{Note, Role, Stage};
use clip_decode::{Cursor, Page, fill};

impl ReelTable {
    ghost use Rattle.exec_reel.specs.Seats.{IsAt, Same};

    /// Takes the cursor and the page of the ticket's number, fills the page, and puts both home.
    pub(crate) fn decode_page(&self, ticket: &mut ReelSeat, number: u32)
        requires at { IsAt self.now ticket.old }
        requires role { ticket.old.me.0.role ≡ Role.Working Stage.Ready }
        requires home { ticket.old.me.1 ≡ [] }
        requires number { (number ≡ ticket.old.me.0.number) × (number < self.now.pages) }
        ensures same { Same ticket.old ticket.new }
        ensures me { ticket.new.me ≡ (decoded ticket.old.me.0, []) }
    {
        let mut cursor = self.cursor_out(ticket);
        let mut page = self.page_out(ticket, number);
        fill(&mut cursor, &self.opening.clip, &mut page);
        self.page_in(ticket, number, page);
        self.cursor_in(ticket, cursor);
    }

    /// A page that is shown, which goes out to the reader for good.
    pub(crate) fn shown_page(&self, reader: &mut ReelSeat, page: u32) -> Page
        requires at { IsAt self.now reader.old }
        requires role { reader.old.me.0.role ≡ Role.Reading }
        requires shown { page < reader.old.me.0.shown }
        requires home { is_among page reader.old.me.0.taken ≡ false }
        ensures same { Same reader.old reader.new }
        ensures page { result ≡ page_of reader.old.me.0.clip page }
        ensures me { (pointer : ℕ) × (reader.new.me ≡ (with_page page pointer reader.old.me.0, (page, Cell.Away) ∷ reader.old.me.1)) }
    {
        self.take_shown(reader, page);
        let cell = self.exchange(reader, page, Cell::Away);
        let Cell::Page(page) = cell else {
            unreachable!()
        };
        page
    }

    // The cursor, out of its slot.
    fn cursor_out(&self, ticket: &mut ReelSeat) -> Cursor
        requires at { IsAt self.now ticket.old }
        requires role { ticket.old.me.0.role ≡ Role.Working Stage.Ready }
        ensures same { Same ticket.old ticket.new }
        ensures cursor { ComesTo ticket.old.me.0.clip ticket.old.me.0.number result }
        ensures me { ticket.new.me
            ≡ (
              becomes (Role.Working Stage.CursorTaken) (Note.CursorOut ticket.old.me.0.number) ticket.old.me.0,
              (self.now.pages, Cell.Away) ∷ ticket.old.me.1,
            ) }
    {
        self.take_cursor(ticket);
        let cell = self.exchange(ticket, self.pages, Cell::Away);
        let Cell::Decoder(cursor) = cell else {
            unreachable!()
        };
        cursor
    }

    // The page of the ticket's number, out of its slot.
    fn page_out(&self, ticket: &mut ReelSeat, number: u32) -> Page
        requires at { IsAt self.now ticket.old }
        requires role { ticket.old.me.0.role ≡ Role.Working Stage.CursorTaken }
        requires number { number ≡ ticket.old.me.0.number }
        ensures same { Same ticket.old ticket.new }
        ensures page { result ≡ empty_page ticket.old.me.0.clip }
        ensures me { ticket.new.me
            ≡ (
              becomes (Role.Working Stage.PageTaken) (Note.PageOut ticket.old.me.0.number ticket.old.me.0.number) ticket.old.me.0,
              (number, Cell.Away) ∷ ticket.old.me.1,
            ) }
    {
        self.take_page(ticket);
        let cell = self.exchange(ticket, number, Cell::Away);
        let Cell::Page(page) = cell else {
            unreachable!()
        };
        page
    }

    // The page comes home, filled.
    fn page_in(&self, ticket: &mut ReelSeat, number: u32, page: Page)
        requires at { IsAt self.now ticket.old }
        requires role { ticket.old.me.0.role ≡ Role.Working Stage.PageTaken }
        requires number { number ≡ ticket.old.me.0.number }
        requires away { ticket.old.me.1 ≡ (number, Cell.Away) ∷ rest ticket.old.me.1 }
        requires page { page ≡ page_of ticket.old.me.0.clip number }
        ensures same { Same ticket.old ticket.new }
        ensures me { ticket.new.me
            ≡ (
              becomes (Role.Working Stage.PageHome) (Note.PageIn ticket.old.me.0.number ticket.old.me.0.number) ticket.old.me.0,
              rest ticket.old.me.1,
            ) }
    {
        self.exchange(ticket, number, Cell::Page(page));
        self.return_page(ticket);
    }

    // The cursor comes home. It comes to the next page.
    fn cursor_in(&self, ticket: &mut ReelSeat, cursor: Cursor)
        requires at { IsAt self.now ticket.old }
        requires role { ticket.old.me.0.role ≡ Role.Working Stage.PageHome }
        requires away { ticket.old.me.1 ≡ (self.now.pages, Cell.Away) ∷ rest ticket.old.me.1 }
        requires cursor { ComesTo ticket.old.me.0.clip (ticket.old.me.0.number + 1) cursor }
        ensures same { Same ticket.old ticket.new }
        ensures me { ticket.new.me
            ≡ (
              becomes (Role.Working Stage.CursorHome) (Note.CursorIn ticket.old.me.0.number) ticket.old.me.0,
              rest ticket.old.me.1,
            ) }
    {
        self.exchange(ticket, self.pages, Cell::Decoder(cursor));
        self.return_cursor(ticket);
    }
}
