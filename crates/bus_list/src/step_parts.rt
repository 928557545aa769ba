//! The parts of a visit's step from one bus to the next.
ghost use Rattle.std.specs.Prelude.{Option, ◌≡◌, ◌≢◌, ℕ, ◌<◌, ◌≤◌, [], ◌∷◌, ◌++◌, true, false, None};
ghost use Rattle.bus_list.specs.declared.view.FlagState.TheVariants.{Settled, NotLoaded};
ghost use Rattle.bus_list.specs.Visits.{has, buses_of};
ghost use Rattle.bus_list.specs.Transitions.{feed_returned, reference_dropped};
ghost use Rattle.bus_list.specs.Seats.{IsPassOf, SameSeat};
ghost use Rattle.bus_list.specs.PassStates.{NotesGrow, feed_read, lent_slots, Lent, PassMoved, reached};

use crate::table::{ListSeat, ListTable};
use crate::view::Note;

/// Loads the link of the bus that is held, and holds the bus that it finds too. The number of buses
/// stands for the dummy before, and for the end as the answer.
pub(crate) fn reach_next<T>(table: &ListTable<T>, seat: &mut ListSeat<T>, held: u32) -> u32
    requires seat { IsPassOf table.now seat.old }
    requires held { (held ≡ seat.old.me.0.reading.held) × (held ≤ table.now.buses) }
    requires visit { (seat.old.me.0.reading.opened ≡ true) × (seat.old.me.0.reading.ended ≡ false) }
    requires stepping { seat.old.me.0.reading.stepping ≡ true }
    requires settled { (seat.old.me.0.reading.aim ≡ table.now.buses)
        × (seat.old.me.0.reading.previous ≡ table.now.buses)
        × (seat.old.me.0.reading.flag_state ≡ Settled) }
    ensures same { SameSeat seat.old seat.new }
    ensures bus { (result ≤ table.now.buses)
        × (result ≢ table.now.buses → has result seat.old.me.0.reading.walked ≡ false) }
    ensures end { result ≡ table.now.buses → seat.new.me.0.notes ≡ seat.old.me.0.notes ++ Note.Link held result ∷ [] }
    ensures moved { PassMoved (reached table.now.buses result seat.old.me.0.reading) seat.old.me.1 seat.old.me.0 seat.new.me }
{
    let found = table.load_link(seat, held);
    if found == table.buses as u64 {
        return table.buses;
    }
    let bus = found as u32;
    table.add_reference(seat, bus);
    bus
}

/// Gives the feed back to its cell, where one is lent.
pub(crate) fn give_back<T>(table: &ListTable<T>, seat: &mut ListSeat<T>, bus: u32, feed: Option<T>)
    requires seat { IsPassOf table.now seat.old }
    requires lent { Lent table.now.buses bus feed seat.old.me }
    ensures same { SameSeat seat.old seat.new }
    ensures moved { PassMoved (feed_returned table.now.buses seat.old.me.0.reading) [] seat.old.me.0 seat.new.me }
{
    if let Some(feed) = feed {
        let had = table.exchange_cell(seat, bus, Some(feed));
        let None = had else { unreachable!() };
        table.return_feed(seat, bus);
    }
}

/// Lets go of the bus that was held before, unless that was the dummy.
pub(crate) fn drop_reference<T>(table: &ListTable<T>, seat: &mut ListSeat<T>, bus: u32)
    requires seat { IsPassOf table.now seat.old }
    requires previous { (seat.old.me.0.reading.previous ≡ bus) × (bus ≤ table.now.buses) }
    requires returned { (seat.old.me.0.reading.borrowed ≡ table.now.buses) × (seat.old.me.1 ≡ []) }
    ensures same { SameSeat seat.old seat.new }
    ensures moved { PassMoved (reference_dropped table.now.buses seat.old.me.0.reading) [] seat.old.me.0 seat.new.me }
{
    if bus < table.buses {
        table.subtract_reference(seat, bus);
    }
}

/// Loads the flag of the bus that is held, and takes its feed where the flag is set.
pub(crate) fn read_feed<T>(table: &ListTable<T>, seat: &mut ListSeat<T>, bus: u32) -> Option<T>
    requires seat { IsPassOf table.now seat.old }
    requires held { (bus ≡ seat.old.me.0.reading.held) × (bus < table.now.buses) }
    requires not_loaded { seat.old.me.0.reading.flag_state ≡ NotLoaded }
    requires nothing_lent { (seat.old.me.0.reading.borrowed ≡ table.now.buses)
        × (seat.old.me.0.reading.borrowed_feed ≡ None) × (seat.old.me.1 ≡ []) }
    ensures same { SameSeat seat.old seat.new × (seat.new.me.0.reads ≡ true) }
    ensures new { has bus (buses_of seat.old.me.0.reading.given) ≡ false }
    ensures read { (seat.new.me.0.reading ≡ feed_read bus result seat.old.me.0.reading)
        × (seat.new.me.1 ≡ lent_slots bus result) }
    ensures notes { NotesGrow seat.old.me.0.notes seat.new.me.0.notes }
{
    if table.load_flag(seat, bus) == 0 {
        return None;
    }
    table.take_feed(seat, bus);
    table.exchange_cell(seat, bus, None)
}
