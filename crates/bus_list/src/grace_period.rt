//! The two waits of a detach, between the unlinking and the taking of the feed: until no step of the
//! pass is under way, and then until the pass holds no reference to the bus.
ghost use Rattle.std.specs.Prelude.{Option, ◌≡◌, ℕ, ◌<◌, true, false};
ghost use Rattle.bus_list.specs.Transitions.{quiesced, unreferenced};
ghost use Rattle.bus_list.specs.Seats.{IsEditorOf, SameSeat, OnlyPhase};

use crate::table::{ListSeat, ListTable};
use crate::view::Phase;
use std::sync::Wait;
use std::thread;

/// Loads the step counter until it is 0.
pub(crate) fn wait_for_steps<T, R: Wait>(
    rt: &R,
    table: &ListTable<T>,
    seat: &mut ListSeat<T>,
    bus: u32,
)
    requires seat { IsEditorOf table.now seat.old }
    requires phase { (x : Option T) × (seat.old.me.0.editing.phase ≡ Phase.Unlinked bus x) }
    ensures same { SameSeat seat.old seat.new }
    ensures only { OnlyPhase (quiesced 0 seat.old.me.0.editing.phase) seat.old.me seat.new.me }
{
    for _ in rt.forever() {
        if table.load_steps(seat, bus) == 0 {
            break;
        }
        thread::yield_now();
    }
}

/// Loads the bus's reference count until it is 0.
pub(crate) fn wait_for_references<T, R: Wait>(
    rt: &R,
    table: &ListTable<T>,
    seat: &mut ListSeat<T>,
    bus: u32,
)
    requires seat { IsEditorOf table.now seat.old }
    requires bus { bus < table.now.buses }
    requires phase { (x : Option T) × (seat.old.me.0.editing.phase ≡ Phase.Quiescent bus x) }
    ensures same { SameSeat seat.old seat.new }
    ensures only { OnlyPhase (unreferenced 0 seat.old.me.0.editing.phase) seat.old.me seat.new.me }
{
    for _ in rt.forever() {
        if table.load_references(seat, bus) == 0 {
            break;
        }
        thread::yield_now();
    }
}

/// One load of the step counter, where the seat has the pass's part too and is in no step.
pub(crate) fn expect_no_step<T>(table: &ListTable<T>, seat: &mut ListSeat<T>, bus: u32)
    requires seat { IsEditorOf table.now seat.old × (seat.old.me.0.reads ≡ true) }
    requires phase { (x : Option T) × (seat.old.me.0.editing.phase ≡ Phase.Unlinked bus x) }
    requires no_step { seat.old.me.0.reading.stepping ≡ false }
    ensures same { SameSeat seat.old seat.new }
    ensures only { OnlyPhase (quiesced 0 seat.old.me.0.editing.phase) seat.old.me seat.new.me }
{
    let found = table.load_steps(seat, bus);
    if found != 0 {
        unreachable!();
    }
}

/// One load of the bus's reference count, where the seat has the pass's part too and holds no bus.
pub(crate) fn expect_no_reference<T>(table: &ListTable<T>, seat: &mut ListSeat<T>, bus: u32)
    requires seat { IsEditorOf table.now seat.old × (seat.old.me.0.reads ≡ true) }
    requires bus { bus < table.now.buses }
    requires phase { (x : Option T) × (seat.old.me.0.editing.phase ≡ Phase.Quiescent bus x) }
    requires nothing_held { (seat.old.me.0.reading.held ≡ table.now.buses) × (seat.old.me.0.reading.previous ≡ table.now.buses) }
    ensures same { SameSeat seat.old seat.new }
    ensures only { OnlyPhase (unreferenced 0 seat.old.me.0.editing.phase) seat.old.me seat.new.me }
{
    let found = table.load_references(seat, bus);
    if found != 0 {
        unreachable!();
    }
}
