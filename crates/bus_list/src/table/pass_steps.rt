//! The steps of the pass, in the order of a visit. A step's word is found by its bus: the link, then the
//! flag, then the reference count. Past those of the last bus come the dummy's link, the count of edits
//! and the step counter.
ghost use Rattle.std.specs.Prelude.{Option, List, ◌++◌, ◌≡◌, ◌≢◌, ℕ, ◌+◌, ◌*◌, ◌<◌, ◌≤◌, [], ◌∷◌, true, false, is_some, Some};

use super::{ListSeat, ListTable};
use crate::rule::{
    AddsReference, BeginsVisit, EndsVisit, EntersStep, LeavesStep, LoadsFlag, LoadsLink,
    ReturnsFeed, SubtractsReference, TakesFeed,
};
use crate::view::{FlagState, Note};

impl<T> ListTable<T> {
    ghost use Rattle.bus_list.specs.Visits.{has, buses_of};
    ghost use Rattle.bus_list.specs.Invariant.{bit};
    ghost use Rattle.bus_list.specs.Transitions.{begun, step_entered, step_left, link_loaded, reference_added, feed_returned, reference_dropped, flag_loaded, feed_taken, visit_closed};
    ghost use Rattle.bus_list.specs.Steps.{PassStep, after_pass_step};
    ghost use Rattle.bus_list.specs.Seats.{IsPassOf, SameSeat};

    /// A load of the count of edits, which opens a visit.
    pub(crate) fn begin(&self, seat: &mut ListSeat<T>) -> u64
        requires seat { IsPassOf self.now seat.old }
        requires opened { seat.old.me.0.reading.opened ≡ false }
        requires previous { seat.old.me.0.reading.previous ≡ self.now.buses }
        ensures same { SameSeat seat.old seat.new }
        ensures me { PassStep (begun result) (Note.Edits result) seat.old.me seat.new.me }
        ensures told { (seat.old.me.0.reading.last_count ≤ result) × (seat.old.me.0.reading.start ≤ result) }
    {
        self.table
            .shared
            .load::<BeginsVisit>(seat, 3 * (self.buses as usize) + 1)
    }

    /// An addition to the step counter.
    pub(crate) fn enter_step(&self, seat: &mut ListSeat<T>) -> u64
        requires seat { IsPassOf self.now seat.old }
        requires stepping { seat.old.me.0.reading.stepping ≡ false }
        ensures same { SameSeat seat.old seat.new }
        ensures me { PassStep step_entered (Note.Steps result) seat.old.me seat.new.me }
    {
        self.table
            .shared
            .fetch_add::<EntersStep>(seat, 3 * (self.buses as usize) + 2, 1)
    }

    /// A load of the link of the bus that is held, or of the dummy. It finds a bus, which the pass then
    /// aims at, or the end.
    pub(crate) fn load_link(&self, seat: &mut ListSeat<T>, held: u32) -> u64
        requires seat { IsPassOf self.now seat.old }
        requires held { (held ≡ seat.old.me.0.reading.held) × (held ≤ self.now.buses) }
        requires visit { (seat.old.me.0.reading.opened ≡ true) × (seat.old.me.0.reading.ended ≡ false) }
        requires stepping { seat.old.me.0.reading.stepping ≡ true }
        requires settled { (seat.old.me.0.reading.aim ≡ self.now.buses)
            × (seat.old.me.0.reading.previous ≡ self.now.buses)
            × (seat.old.me.0.reading.flag_state ≡ FlagState.Settled) }
        ensures same { SameSeat seat.old seat.new }
        ensures me { PassStep (link_loaded self.now.buses result) (Note.Link held result) seat.old.me seat.new.me }
        ensures told { result ≤ self.now.buses }
    {
        self.table
            .shared
            .load::<LoadsLink>(seat, 3 * (held as usize))
    }

    /// An addition to the reference count of the bus that is aimed at.
    pub(crate) fn add_reference(&self, seat: &mut ListSeat<T>, bus: u32) -> u64
        requires seat { IsPassOf self.now seat.old }
        requires aim { (bus ≡ seat.old.me.0.reading.aim) × (bus < self.now.buses) }
        requires previous { seat.old.me.0.reading.previous ≡ self.now.buses }
        ensures same { SameSeat seat.old seat.new }
        ensures me { PassStep (reference_added self.now.buses) (Note.References bus result) seat.old.me seat.new.me }
        ensures told { has bus seat.old.me.0.reading.walked ≡ false }
    {
        self.table
            .shared
            .fetch_add::<AddsReference>(seat, 3 * (bus as usize) + 2, 1)
    }

    /// The feed that was lent goes back to its cell.
    pub(crate) fn return_feed(&self, seat: &mut ListSeat<T>, bus: u32)
        requires seat { IsPassOf self.now seat.old }
        requires borrowed { (bus ≡ seat.old.me.0.reading.borrowed) × (bus < self.now.buses) }
        requires has { seat.old.me.1 ≡ (bus, seat.old.me.0.reading.borrowed_feed) ∷ [] }
        ensures same { SameSeat seat.old seat.new }
        ensures me { seat.new.me
            ≡ (after_pass_step (feed_returned self.now.buses seat.old.me.0.reading) (Note.Feed bus) seat.old.me.0, []) }
    {
        self.table
            .shared
            .load::<ReturnsFeed>(seat, 3 * (bus as usize));
    }

    /// A subtraction from the reference count of the bus that is left.
    pub(crate) fn subtract_reference(&self, seat: &mut ListSeat<T>, bus: u32) -> u64
        requires seat { IsPassOf self.now seat.old }
        requires previous { (bus ≡ seat.old.me.0.reading.previous) × (bus < self.now.buses) }
        requires returned { seat.old.me.0.reading.borrowed ≢ bus }
        ensures same { SameSeat seat.old seat.new }
        ensures me { PassStep (reference_dropped self.now.buses) (Note.References bus result) seat.old.me seat.new.me }
    {
        self.table
            .shared
            .fetch_sub::<SubtractsReference>(seat, 3 * (bus as usize) + 2, 1)
    }

    /// A subtraction from the step counter.
    pub(crate) fn leave_step(&self, seat: &mut ListSeat<T>) -> u64
        requires seat { IsPassOf self.now seat.old }
        requires stepping { seat.old.me.0.reading.stepping ≡ true }
        requires aim { seat.old.me.0.reading.aim ≡ self.now.buses }
        ensures same { SameSeat seat.old seat.new }
        ensures me { PassStep step_left (Note.Steps result) seat.old.me seat.new.me }
    {
        self.table
            .shared
            .fetch_sub::<LeavesStep>(seat, 3 * (self.buses as usize) + 2, 1)
    }

    /// A load of the flag of the bus that is held. Where it is set the visit gives the bus, with some
    /// feed, which is in its cell.
    pub(crate) fn load_flag(&self, seat: &mut ListSeat<T>, bus: u32) -> u64
        requires seat { IsPassOf self.now seat.old }
        requires held { (bus ≡ seat.old.me.0.reading.held) × (bus < self.now.buses) }
        requires not_loaded { seat.old.me.0.reading.flag_state ≡ FlagState.NotLoaded }
        ensures same { SameSeat seat.old seat.new }
        ensures told { (x : Option T) × (result ≡ bit (is_some x)) × (has bus (buses_of seat.old.me.0.reading.given) ≡ false)
            × PassStep (flag_loaded x) (Note.Flag bus result) seat.old.me seat.new.me }
    {
        self.table
            .shared
            .load::<LoadsFlag>(seat, 3 * (bus as usize) + 1)
    }

    /// The feed of the bus that the visit gave last is taken out of its cell.
    pub(crate) fn take_feed(&self, seat: &mut ListSeat<T>, bus: u32)
        requires seat { IsPassOf self.now seat.old }
        requires held { (bus ≡ seat.old.me.0.reading.held) × (bus < self.now.buses) }
        requires found_set { seat.old.me.0.reading.flag_state ≡ FlagState.FoundSet }
        requires borrowed { seat.old.me.0.reading.borrowed ≡ self.now.buses }
        ensures same { SameSeat seat.old seat.new }
        ensures told { (f : T) × ((ps : List (ℕ × T)) × (seat.old.me.0.reading.given ≡ ps ++ (bus, f) ∷ []))
            × (seat.new.me
            ≡ (after_pass_step (feed_taken f seat.old.me.0.reading) (Note.Feed bus) seat.old.me.0, (bus, Some f) ∷ seat.old.me.1)) }
    {
        self.table
            .shared
            .load::<TakesFeed>(seat, 3 * (bus as usize));
    }

    /// A load of the count of edits, which closes a visit.
    pub(crate) fn end(&self, seat: &mut ListSeat<T>) -> u64
        requires seat { IsPassOf self.now seat.old }
        requires opened { seat.old.me.0.reading.opened ≡ true }
        requires settled { (seat.old.me.0.reading.aim ≡ self.now.buses)
            × (seat.old.me.0.reading.previous ≡ self.now.buses)
            × (seat.old.me.0.reading.flag_state ≡ FlagState.Settled) }
        ensures same { SameSeat seat.old seat.new }
        ensures me { PassStep (visit_closed self.now.buses result) (Note.Edits result) seat.old.me seat.new.me }
        ensures told { seat.old.me.0.reading.last_count ≤ result }
    {
        self.table
            .shared
            .load::<EndsVisit>(seat, 3 * (self.buses as usize) + 1)
    }
}
