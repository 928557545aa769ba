ghost use Rattle.std.specs.Prelude.{Option, List, ⊤, MatchOption, ◌≡◌, ◌≢◌, ℕ, ◌<◌, ◌≤◌, [], ◌∷◌, ◌++◌, true, false, Some, None};
ghost use Rattle.bus_list.specs.Seats.{IsAt, IsPassOf};
ghost use Rattle.bus_list.specs.PassStates.{BetweenCalls, Lent, IsResting, SameVisit, WentOn, SteppedOn, NotesGrow, LoadedEnd};

use crate::held::Held;
use crate::step_parts::{drop_reference, give_back, reach_next, read_feed};
use crate::table::{ListSeat, ListTable};
use crate::view::Note;
use crate::visit::Window;
use std::mem;

/// The side of a list that walks it: a lock-free reader. Between two calls it holds a reference to
/// the bus that it stands on, and has that bus's feed.
#[derive(Drop)]
pub struct Pass<T> {
    pub(crate) table: ListTable<T>,
    pub(crate) seat: ListSeat<T>,
    held: u32,
    ended: bool,
    from: u64,
    feed: Option<T>,
    pub(crate) ghost role: { IsPassOf table seat },
    pub(crate) ghost between: { BetweenCalls table.buses held ended from seat.me.0.reading },
    pub(crate) ghost lent: { Lent table.buses held feed seat.me },
}

impl<T> Pass<T> {
    ghost use Rattle.bus_list.specs.PassViews.{list_of_pass, buses_of_pass, is_visiting, is_whole, from_of, given_of, bus_of, feed_of_held, visits_of, start_of, last_count_of, notes_of, visit_until, Next, HasEnded, Gave};
    ghost use Rattle.bus_list.specs.contracts.pass.Pass.{the_row};
    ghost use mathlib.Core.Option.{none};
    ghost use denote.Follow.{follows_so};
    ghost use Rattle.std.specs.Borrow.{sem};

    pub(crate) fn new(table: ListTable<T>, seat: ListSeat<T>) -> Pass<T>
        requires seat { IsPassOf table seat }
        requires resting { IsResting table.buses seat.me.0.reading × (seat.me.0.reading.ended ≡ false) × (seat.me.1 ≡ []) }
        ensures { (result.table ≡ table) × (result.seat ≡ seat) × (result.ended ≡ false) }
    {
        let held = table.buses;
        Pass {
            table,
            seat,
            held,
            ended: false,
            from: 0,
            feed: None,
        }
    }

    pub(crate) fn into_parts(self) -> (ListTable<T>, ListSeat<T>)
        requires { is_visiting self ≡ false }
        ensures { (result.0 ≡ self.table) × (result.1 ≡ self.seat)
            × IsResting self.table.buses self.seat.me.0.reading × (self.seat.me.1 ≡ []) }
    {
        let Pass {
            table,
            seat,
            held: _,
            ended: _,
            from: _,
            feed,
        } = self;
        let None = feed else { unreachable!() };
        (table, seat)
    }

    /// Opens a visit, and answers the count of edits that it loads for that.
    pub fn begin(&mut self) -> u64
        requires { is_visiting self.old ≡ false }
        ensures visit { (is_visiting self.new ≡ true) × (given_of self.new ≡ []) × (is_whole self.new ≡ false) }
        ensures visits { (visits_of self.new ≡ visits_of self.old) × (start_of self.new ≡ start_of self.old) }
        ensures from { (from_of self.new ≡ result) × (last_count_of self.new ≡ result)
            × (last_count_of self.old ≤ result) × (start_of self.old ≤ result) }
        ensures list { (list_of_pass self.new ≡ list_of_pass self.old)
            × (buses_of_pass self.new ≡ buses_of_pass self.old) }

        // The count is the word that a load in this call found.
        ensures notes { notes_of self.new ≡ notes_of self.old ++ Note.Edits result ∷ [] }
    {
        let from = self.table.begin(&mut self.seat);
        self.from = from;
        self.ended = false;
        from
    }

    /// Goes on to the next attached bus, and lets go of the one before. `None` comes at the end of
    /// the list, and again from then on.
    pub fn next(&mut self) -> Option<Held<'_, T>>
        requires { is_visiting self.old ≡ true }
        ensures* after { sem 𝓛 (follows_so (the_row T.row) (the_row T.row) self.entry.ghost_name none (λ _ _. ⊤)
            (λ n. Next self.old n × MatchOption result (HasEnded self.old n) (λ h. Gave self.old n (bus_of h) (feed_of_held h)))) }
    {
        self.advance();
        self.lent()
    }

    /// Lets go of the bus that is held, and closes the visit. The window says which counts of edits
    /// were loaded at its begin and here.
    pub fn end(&mut self) -> Window
        requires { is_visiting self.old ≡ true }
        ensures visit { is_visiting self.new ≡ false }
        ensures visits { (visits_of self.new ≡ visits_of self.old ++ visit_until self.old result.until ∷ [])
            × (start_of self.new ≡ start_of self.old) }
        ensures window { (result.from ≡ from_of self.old)
            × (result.from ≤ result.until)
            × (from_of self.new ≡ from_of self.old)
            × (last_count_of self.new ≡ result.until) }
        ensures list { (list_of_pass self.new ≡ list_of_pass self.old)
            × (buses_of_pass self.new ≡ buses_of_pass self.old) }

        // The count is the word that a load in this call found.
        ensures notes { (more : List Note) × (notes_of self.new ≡ (notes_of self.old ++ Note.Edits result.until ∷ []) ++ more) }
    {
        let bus = self.held;
        let until = self.table.end(&mut self.seat);
        let feed = self.feed.take();
        give_back(&self.table, &mut self.seat, bus, feed);
        drop_reference(&self.table, &mut self.seat, bus);
        self.held = self.table.buses;
        Window {
            from: self.from,
            until,
        }
    }

    /// To the next attached bus, or to the end.
    fn advance(&mut self)
        requires { is_visiting self.old ≡ true }
        ensures visit { SameVisit self.old.seat.me.0.reading self.new.seat.me.0.reading
            × (self.new.table ≡ self.old.table) × (self.new.from ≡ self.old.from) }
        ensures ended { self.old.ended ≡ true → self.new.ended ≡ true }
        ensures went { WentOn self.new.table.buses self.new.held self.new.ended self.new.feed self.old.seat.me.0.reading self.new.seat.me.0.reading }
        ensures notes { NotesGrow (notes_of self.old) (notes_of self.new) }
        ensures found { self.old.ended ≡ false → self.new.ended ≡ true
            → LoadedEnd self.old.table.buses (notes_of self.old) (notes_of self.new) }
    {
        if self.ended {
            return;
        }
        while self.visit_step() {}
    }

    /// To the next bus, attached or not, or to the end. Whether the bus isn't attached, and is to be
    /// passed over.
    fn visit_step(&mut self) -> bool
        requires opened { is_visiting self.old ≡ true }
        requires ended { self.old.ended ≡ false }
        ensures visit { SameVisit self.old.seat.me.0.reading self.new.seat.me.0.reading
            × (self.new.table ≡ self.old.table) × (self.new.from ≡ self.old.from) }
        ensures on { SteppedOn self.new.table.buses result self.new.held self.new.ended self.new.feed self.old.seat.me.0.reading self.new.seat.me.0.reading }
        ensures notes { NotesGrow (notes_of self.old) (notes_of self.new) }
        ensures found { self.new.ended ≡ true → LoadedEnd self.old.table.buses (notes_of self.old) (notes_of self.new) }
    {
        let old = self.held;
        self.table.enter_step(&mut self.seat);
        let bus = reach_next(&self.table, &mut self.seat, old);
        let feed = self.feed.take();
        give_back(&self.table, &mut self.seat, old, feed);
        drop_reference(&self.table, &mut self.seat, old);
        self.table.leave_step(&mut self.seat);
        self.held = bus;
        if bus == self.table.buses {
            self.ended = true;
            return false;
        }
        let feed = read_feed(&self.table, &mut self.seat, bus);
        let attached = feed.is_some();
        let had = mem::replace(&mut self.feed, feed);
        let None = had else { unreachable!() };
        !attached
    }

    /// The feed that the pass has, with its bus.
    fn lent(&self) -> Option<Held<'_, T>>
        ensures { MatchOption result (self.now.feed ≡ None) (λ h. (h.bus ≡ self.now.held) × (self.now.feed ≡ Some h.feed.now)) }
    {
        match &self.feed {
            None => None,
            Some(feed) => Some(Held {
                bus: self.held,
                feed,
            }),
        }
    }
}
