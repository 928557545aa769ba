//! The editor's calls, for a seat with the pass's part or without it. No edit is under way between two
//! of them.
ghost use Rattle.std.specs.Prelude.{◌≡◌, ℕ, ◌+◌, ◌^◌, ◌<◌, [], ◌∷◌, ◌++◌, true, false, length, is_some, None, Some};
ghost use Rattle.bus_list.specs.Seats.{IsAt, IsEditorOf};
ghost use Rattle.bus_list.specs.declared.view.Phase.TheVariants.{Idle};

use crate::detaching::{take_out, unlink};
use crate::grace_period::{
    expect_no_reference, expect_no_step, wait_for_references, wait_for_steps,
};
use crate::table::{ListSeat, ListTable};
use std::sync::Wait;

/// The editor of a list, with its copy of the links, the dummy's last, so that it loads none.
#[derive(Drop)]
pub(crate) struct ListEditor<T> {
    pub(crate) table: ListTable<T>,
    links: Vec<u32>,
    edits: u64,
    pub(crate) seat: ListSeat<T>,
    pub(crate) ghost role: { IsEditorOf table seat },
    pub(crate) ghost idle: { seat.me.0.editing.phase ≡ Idle },
    pub(crate) ghost empty: { seat.me.1 ≡ [] },
    pub(crate) ghost copy: { links.items ≡ seat.me.0.links },
    pub(crate) ghost size: { length links.items ≡ table.buses + 1 },
    pub(crate) ghost count: { edits ≡ length seat.me.0.editing.history },
}

impl<T> ListEditor<T> {
    ghost use Rattle.bus_list.specs.declared.history.Entry.TheVariants.{On, Off};
    ghost use Rattle.bus_list.specs.Visits.{attached_feed, LawfulFrom};
    ghost use Rattle.bus_list.specs.PassStates.{IsResting};
    ghost use Rattle.bus_list.specs.Rule.{first_links, first_view, editor_part, pass_part, joined};
    ghost use Rattle.bus_list.specs.Seats.{SameSeat, SameReading};

    /// Stores the bus's own link, puts the feed in, and stores the dummy's link, the flag and the count.
    pub(crate) fn attach(&mut self, bus: u32, feed: T)
        requires bus { bus < self.old.table.buses }
        requires off { attached_feed self.old.seat.me.0.editing.history bus ≡ None }
        requires room { length self.old.seat.me.0.editing.history < 2 ^ 62 }
        ensures history { self.new.seat.me.0.editing.history ≡ self.old.seat.me.0.editing.history ++ On bus feed ∷ [] }
        ensures rest { SameReading self.old.seat.me.0 self.new.seat.me.0 }
        ensures same { SameSeat self.old.seat self.new.seat × (self.new.table ≡ self.old.table) }
    {
        let first = self.links[self.table.buses as usize];
        self.table.store_own_link(&mut self.seat, bus, first);
        self.links[bus as usize] = first;
        self.table.open_cell(&mut self.seat, bus);
        let had = self.table.exchange_cell(&mut self.seat, bus, Some(feed));
        let None = had else { unreachable!() };
        self.table.fill_cell(&mut self.seat, bus);
        self.table.store_dummy_link(&mut self.seat, bus);
        self.links[self.table.buses as usize] = bus;
        self.table.set_flag(&mut self.seat, bus);
        self.edits += 1;
        self.table.store_edits(&mut self.seat, bus, self.edits);
    }

    /// Unlinks the bus, waits for the grace period to end, and takes the feed out.
    pub(crate) fn detach<R: Wait>(&mut self, rt: &R, bus: u32) -> T
        requires bus { bus < self.old.table.buses }
        requires on { is_some (attached_feed self.old.seat.me.0.editing.history bus) ≡ true }
        requires room { length self.old.seat.me.0.editing.history < 2 ^ 62 }
        ensures history { self.new.seat.me.0.editing.history ≡ self.old.seat.me.0.editing.history ++ Off bus ∷ [] }
        ensures feed { attached_feed self.old.seat.me.0.editing.history bus ≡ Some result }
        ensures rest { SameReading self.old.seat.me.0 self.new.seat.me.0 }
        ensures same { SameSeat self.old.seat self.new.seat × (self.new.table ≡ self.old.table) }
    {
        unlink(&self.table, &mut self.seat, &mut self.links, bus);
        wait_for_steps(rt, &self.table, &mut self.seat, bus);
        wait_for_references(rt, &self.table, &mut self.seat, bus);
        self.edits += 1;
        take_out(&self.table, &mut self.seat, bus, self.edits)
    }

    /// The same for a seat that has the pass's part too, which is at rest: nobody is waited for.
    pub(crate) fn detach_now(&mut self, bus: u32) -> T
        requires bus { bus < self.old.table.buses }
        requires on { is_some (attached_feed self.old.seat.me.0.editing.history bus) ≡ true }
        requires room { length self.old.seat.me.0.editing.history < 2 ^ 62 }
        requires resting { (self.old.seat.me.0.reads ≡ true)
            × IsResting self.old.table.buses self.old.seat.me.0.reading }
        ensures history { self.new.seat.me.0.editing.history ≡ self.old.seat.me.0.editing.history ++ Off bus ∷ [] }
        ensures feed { attached_feed self.old.seat.me.0.editing.history bus ≡ Some result }
        ensures rest { SameReading self.old.seat.me.0 self.new.seat.me.0 }
        ensures same { SameSeat self.old.seat self.new.seat × (self.new.table ≡ self.old.table) }
    {
        unlink(&self.table, &mut self.seat, &mut self.links, bus);
        expect_no_step(&self.table, &mut self.seat, bus);
        expect_no_reference(&self.table, &mut self.seat, bus);
        self.edits += 1;
        take_out(&self.table, &mut self.seat, bus, self.edits)
    }

    /// The editor of a list that was never edited.
    pub(crate) fn new(table: ListTable<T>, links: Vec<u32>, seat: ListSeat<T>) -> ListEditor<T>
        requires at { IsAt table seat }
        requires links { links.items ≡ first_links table.buses }
        requires me { seat.me ≡ (first_view table.buses, []) }
        ensures { (result.table ≡ table) × (result.seat ≡ seat) }
    {
        ListEditor {
            table,
            links,
            edits: 0,
            seat,
        }
    }

    /// The number of edits so far.
    pub(crate) fn edits(&self) -> u64
        ensures { result ≡ length self.now.seat.me.0.editing.history }
    {
        self.edits
    }

    /// Gives the pass's part to a new seat.
    pub(crate) fn split(&mut self) -> ListSeat<T>
        requires role { self.old.seat.me.0.reads ≡ true }
        requires shut { self.old.seat.me.0.reading.opened ≡ false }
        ensures me { self.new.seat.me ≡ (editor_part self.old.seat.me.0, []) }
        ensures other { IsAt self.new.table result × (result.me ≡ (pass_part self.old.seat.me.0, [])) }
        ensures same { SameSeat self.old.seat self.new.seat × (self.new.table ≡ self.old.table) }
    {
        self.table.split(&mut self.seat)
    }

    /// Takes the pass's part back, and learns that its visits were lawful.
    pub(crate) fn join(&mut self, other: ListSeat<T>)
        requires at { IsAt self.old.table other }
        requires role { other.me.0.reads ≡ true }
        requires holds { other.me.1 ≡ [] }
        ensures me { self.new.seat.me ≡ (joined self.old.seat.me.0 other.me.0, []) }
        ensures same { SameSeat self.old.seat self.new.seat × (self.new.table ≡ self.old.table) }
        ensures lawful { LawfulFrom self.old.seat.me.0.editing.history other.me.0.reading.start other.me.0.reading.visits other.me.0.reading.last_count }
    {
        self.table.join(&mut self.seat, other);
        self.table.learn_visits(&mut self.seat);
    }
}
