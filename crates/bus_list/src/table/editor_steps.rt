//! The steps of the editor, in the order of an attach and then of a detach.
ghost use Rattle.std.specs.Prelude.{Option, ◌≡◌, ◌⊎◌, ℕ, ◌+◌, ◌*◌, ◌<◌, ◌≤◌, ◌||◌, ◌==◌, [], ◌∷◌, true, false, length, slice_index, is_some, Some, None};

use super::{ListSeat, ListTable};
use crate::rule::{
    ClearsFlag, EmptiesCell, FillsCell, LoadsReferences, LoadsSteps, OpensCell, SetsFlag,
    StoresDummyLink, StoresEdits, StoresOwnLink, StoresPredecessorLink, TakesCell,
};
use crate::view::{Note, Phase};

impl<T> ListTable<T> {
    ghost use Rattle.bus_list.specs.Visits.{attached_feed};
    ghost use Rattle.bus_list.specs.Invariant.{bit};
    ghost use Rattle.bus_list.specs.Transitions.{at, inserted, flag_set, flag_cleared, unlinked, quiesced, unreferenced};
    ghost use Rattle.bus_list.specs.Steps.{EditorStep, LinkStore, Route, after_editor_step, top_slot, payload};
    ghost use Rattle.bus_list.specs.Seats.{IsEditorOf, SameSeat, IsPredecessor};

    /// A store of the link of a bus that isn't in the list.
    pub(crate) fn store_own_link(&self, seat: &mut ListSeat<T>, bus: u32, link: u32)
        requires seat { IsEditorOf self.now seat.old }
        requires idle { seat.old.me.0.editing.phase ≡ Phase.Idle }
        requires bus { (bus < self.now.buses) × (attached_feed seat.old.me.0.editing.history bus ≡ None) }
        requires link { link ≡ slice_index seat.old.me.0.links self.now.buses }
        ensures same { SameSeat seat.old seat.new }
        ensures me { LinkStore bus link (at (Phase.Linked bus)) (Note.OwnLink bus link) seat.old.me seat.new.me }
    {
        self.table
            .shared
            .store::<StoresOwnLink>(seat, 3 * (bus as usize), link as u64);
    }

    /// The empty cell of that bus comes to the editor.
    pub(crate) fn open_cell(&self, seat: &mut ListSeat<T>, bus: u32)
        requires seat { IsEditorOf self.now seat.old }
        requires bus { bus < self.now.buses }
        requires phase { seat.old.me.0.editing.phase ≡ Phase.Linked bus }
        ensures same { SameSeat seat.old seat.new }
        ensures me { seat.new.me
            ≡ (after_editor_step (at (Phase.Filling bus) seat.old.me.0.editing) (Note.Feed bus) seat.old.me.0, (bus, None) ∷ seat.old.me.1) }
    {
        self.table
            .shared
            .load::<OpensCell>(seat, 3 * (bus as usize));
    }

    /// The cell goes back, with a feed in it.
    pub(crate) fn fill_cell(&self, seat: &mut ListSeat<T>, bus: u32)
        requires seat { IsEditorOf self.now seat.old }
        requires bus { bus < self.now.buses }
        requires phase { seat.old.me.0.editing.phase ≡ Phase.Filling bus }
        requires has { (f : T) × (seat.old.me.1 ≡ (bus, Some f) ∷ []) }
        ensures same { SameSeat seat.old seat.new }
        ensures me { seat.new.me
            ≡ (after_editor_step (at (Phase.Filled bus (top_slot seat.old.me.1)) seat.old.me.0.editing) (Note.Feed bus) seat.old.me.0, []) }
    {
        self.table
            .shared
            .load::<FillsCell>(seat, 3 * (bus as usize));
    }

    /// A store of the dummy's link, which puts the bus at the front.
    pub(crate) fn store_dummy_link(&self, seat: &mut ListSeat<T>, bus: u32)
        requires seat { IsEditorOf self.now seat.old }
        requires phase { (x : Option T) × (seat.old.me.0.editing.phase ≡ Phase.Filled bus x) }
        ensures same { SameSeat seat.old seat.new }
        ensures me { LinkStore self.now.buses bus (inserted seat.old.me.0.editing.phase) (Note.DummyLink bus) seat.old.me seat.new.me }
    {
        self.table
            .shared
            .store::<StoresDummyLink>(seat, 3 * (self.buses as usize), bus as u64);
    }

    /// A store of 1 to the flag: the bus is attached.
    pub(crate) fn set_flag(&self, seat: &mut ListSeat<T>, bus: u32)
        requires seat { IsEditorOf self.now seat.old }
        requires bus { bus < self.now.buses }
        requires phase { (f : T) × (seat.old.me.0.editing.phase ≡ Phase.Inserted bus (Some f)) }
        ensures same { SameSeat seat.old seat.new }
        ensures me { EditorStep (flag_set seat.old.me.0.editing.phase) (Note.FlagStored bus) seat.old.me seat.new.me }
    {
        self.table
            .shared
            .store::<SetsFlag>(seat, 3 * (bus as usize) + 1, 1);
    }

    /// A store of the count of edits, which ends an attach or a detach.
    pub(crate) fn store_edits(&self, seat: &mut ListSeat<T>, bus: u32, edits: u64)
        requires seat { IsEditorOf self.now seat.old }
        requires phase { (seat.old.me.0.editing.phase ≡ Phase.FlagSet bus) ⊎ (seat.old.me.0.editing.phase ≡ Phase.Emptied bus) }
        requires edits { edits ≡ length seat.old.me.0.editing.history }
        ensures same { SameSeat seat.old seat.new }
        ensures me { EditorStep (at Phase.Idle) (Note.EditsStored edits) seat.old.me seat.new.me }
    {
        self.table
            .shared
            .store::<StoresEdits>(seat, 3 * (self.buses as usize) + 1, edits);
    }

    /// A store of 0 to the flag: the bus is detached. It is still in the list.
    pub(crate) fn clear_flag(&self, seat: &mut ListSeat<T>, bus: u32)
        requires seat { IsEditorOf self.now seat.old }
        requires bus { (bus < self.now.buses) × (is_some (attached_feed seat.old.me.0.editing.history bus) ≡ true) }
        requires idle { seat.old.me.0.editing.phase ≡ Phase.Idle }
        ensures same { SameSeat seat.old seat.new }
        ensures me { EditorStep (flag_cleared bus) (Note.FlagStored bus) seat.old.me seat.new.me }
        ensures told { Route self.now.buses seat.old.me.0.links seat.old.me.0.editing.chain bus }
    {
        self.table
            .shared
            .store::<ClearsFlag>(seat, 3 * (bus as usize) + 1, 0);
    }

    /// A store of the predecessor's link, which leads past the bus from now on.
    pub(crate) fn store_predecessor_link(
        &self,
        seat: &mut ListSeat<T>,
        bus: u32,
        predecessor: u32,
        link: u32,
    )
        requires seat { IsEditorOf self.now seat.old }
        requires phase { (x : Option T) × (seat.old.me.0.editing.phase ≡ Phase.FlagCleared bus x) }
        requires predecessor { (predecessor ≤ self.now.buses) × IsPredecessor self.now.buses bus predecessor seat.old.me.0.editing.chain }
        requires link { link ≡ slice_index seat.old.me.0.links bus }
        ensures same { SameSeat seat.old seat.new }
        ensures me { LinkStore predecessor link (unlinked seat.old.me.0.editing.phase) (Note.PredecessorLink predecessor link) seat.old.me seat.new.me }
    {
        self.table
            .shared
            .store::<StoresPredecessorLink>(seat, 3 * (predecessor as usize), link as u64);
    }

    /// A load of the step counter, for a detach.
    pub(crate) fn load_steps(&self, seat: &mut ListSeat<T>, bus: u32) -> u64
        requires seat { IsEditorOf self.now seat.old }
        requires phase { (x : Option T) × (seat.old.me.0.editing.phase ≡ Phase.Unlinked bus x) }
        ensures same { SameSeat seat.old seat.new }
        ensures me { EditorStep (at (quiesced result seat.old.me.0.editing.phase)) (Note.Steps result) seat.old.me seat.new.me }
        ensures told { seat.old.me.0.reads ≡ true → result ≡ bit seat.old.me.0.reading.stepping }
    {
        self.table
            .shared
            .load::<LoadsSteps>(seat, 3 * (self.buses as usize) + 2)
    }

    /// A load of the bus's reference count, for a detach that has found no step.
    pub(crate) fn load_references(&self, seat: &mut ListSeat<T>, bus: u32) -> u64
        requires seat { IsEditorOf self.now seat.old }
        requires bus { bus < self.now.buses }
        requires phase { (x : Option T) × (seat.old.me.0.editing.phase ≡ Phase.Quiescent bus x) }
        ensures same { SameSeat seat.old seat.new }
        ensures me { EditorStep (at (unreferenced result seat.old.me.0.editing.phase)) (Note.References bus result) seat.old.me seat.new.me }
        ensures told { seat.old.me.0.reads ≡ true
            → result ≡ bit ((bus == seat.old.me.0.reading.held) || (bus == seat.old.me.0.reading.previous)) }
    {
        self.table
            .shared
            .load::<LoadsReferences>(seat, 3 * (bus as usize) + 2)
    }

    /// The cell of a bus that nobody holds comes to the editor, with the feed in it.
    pub(crate) fn take_cell(&self, seat: &mut ListSeat<T>, bus: u32)
        requires seat { IsEditorOf self.now seat.old }
        requires bus { bus < self.now.buses }
        requires phase { (x : Option T) × (seat.old.me.0.editing.phase ≡ Phase.Unreferenced bus x) }
        ensures same { SameSeat seat.old seat.new }
        ensures me { seat.new.me
            ≡ (after_editor_step (at (Phase.Emptying bus) seat.old.me.0.editing) (Note.Feed bus) seat.old.me.0, (bus, payload seat.old.me.0.editing.phase) ∷ seat.old.me.1) }
    {
        self.table
            .shared
            .load::<TakesCell>(seat, 3 * (bus as usize));
    }

    /// The cell goes back, empty.
    pub(crate) fn empty_cell(&self, seat: &mut ListSeat<T>, bus: u32)
        requires seat { IsEditorOf self.now seat.old }
        requires bus { bus < self.now.buses }
        requires phase { seat.old.me.0.editing.phase ≡ Phase.Emptying bus }
        requires has { seat.old.me.1 ≡ (bus, None) ∷ [] }
        ensures same { SameSeat seat.old seat.new }
        ensures me { seat.new.me
            ≡ (after_editor_step (at (Phase.Emptied bus) seat.old.me.0.editing) (Note.Feed bus) seat.old.me.0, []) }
    {
        self.table
            .shared
            .load::<EmptiesCell>(seat, 3 * (bus as usize));
    }
}
