//! The two parts of a detach, before its waits and after them.
ghost use Rattle.std.specs.Prelude.{Option, ◌≡◌, ℕ, ◌+◌, ◌<◌, [], ◌∷◌, true, false, length, is_some, Some, None};
ghost use Rattle.bus_list.specs.Visits.{attached_feed};
ghost use Rattle.bus_list.specs.Seats.{IsEditorOf, SameSeat, IsUnlinked, IsTakenOut};

use crate::predecessor::find_predecessor;
use crate::table::{ListSeat, ListTable};
use crate::view::Phase;

/// Clears the flag of an attached bus, and makes its predecessor's link lead past it. `links` is the
/// editor's copy of the links.
pub(crate) fn unlink<T>(
    table: &ListTable<T>,
    seat: &mut ListSeat<T>,
    links: &mut Vec<u32>,
    bus: u32,
)
    requires seat { IsEditorOf table.now seat.old }
    requires idle { seat.old.me.0.editing.phase ≡ Phase.Idle }
    requires bus { (bus < table.now.buses) × (is_some (attached_feed seat.old.me.0.editing.history bus) ≡ true) }
    requires links { (links.old.items ≡ seat.old.me.0.links) × (length links.old.items ≡ table.now.buses + 1) }
    ensures same { SameSeat seat.old seat.new }
    ensures unlinked { IsUnlinked bus seat.old.me seat.new.me }
    ensures links { (links.new.items ≡ seat.new.me.0.links) × (length links.new.items ≡ table.now.buses + 1) }
{
    table.clear_flag(seat, bus);
    let predecessor = find_predecessor(links, seat, table.buses, bus);
    let link = links[bus as usize];
    table.store_predecessor_link(seat, bus, predecessor, link);
    links[predecessor as usize] = link;
}

/// Takes the feed of a bus that nobody holds any more out of its cell, and stores the count of edits.
pub(crate) fn take_out<T>(table: &ListTable<T>, seat: &mut ListSeat<T>, bus: u32, edits: u64) -> T
    requires seat { IsEditorOf table.now seat.old × (seat.old.me.1 ≡ []) }
    requires bus { bus < table.now.buses }
    requires phase { (x : Option T) × (seat.old.me.0.editing.phase ≡ Phase.Unreferenced bus x) × (is_some x ≡ true) }
    requires edits { edits ≡ length seat.old.me.0.editing.history }
    ensures same { SameSeat seat.old seat.new }
    ensures feed { seat.old.me.0.editing.phase ≡ Phase.Unreferenced bus (Some result) }
    ensures taken_out { IsTakenOut seat.old.me seat.new.me }
{
    table.take_cell(seat, bus);
    let had = table.exchange_cell(seat, bus, None);
    table.empty_cell(seat, bus);
    table.store_edits(seat, bus, edits);
    let Some(feed) = had else { unreachable!() };
    feed
}
