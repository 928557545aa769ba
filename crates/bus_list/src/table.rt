//! The table of a list, and one function for each kind of atomic step: the pass's in `pass_steps`, the
//! editor's in `editor_steps`. Only these modules see the table, so no other body makes a step.
ghost use Rattle.std.specs.Prelude.{Option, ◌≡◌, ℕ, ◌+◌, ◌*◌, ◌<◌, ◌≤◌, [], ◌∷◌, true, false, IfOk};
ghost use Rattle.std.specs.Arc.{arc_value};

mod editor_steps;
mod pass_steps;

use crate::rule::{BusListRule, LearnsVisits, Sides};
use crate::view::{Phase, View};
use atomic_table::{Seat, Table};
use plain_data::OutOfMemory;
use std::alloc::Global;
use std::sync::Arc;

type RuledTable<T> = Table<Option<T>, View<T>, u32, BusListRule, Global>;

pub(crate) type ListSeat<T> = Seat<Option<T>, View<T>>;

/// An owner of the table, with the number of buses.
#[derive(Drop)]
pub(crate) struct ListTable<T> {
    table: Arc<RuledTable<T>, Global>,
    pub buses: u32,
    pub ghost keyed: { (arc_value table).shared.key ≡ buses },
    pub ghost words: { (arc_value table).shared.table_id.words ≡ 3 * buses + 3 },
    pub ghost slots: { (arc_value table).shared.table_id.slots ≡ buses },
}

/// What is no step of a visit or of an edit.
impl<T> ListTable<T> {
    ghost use Rattle.bus_list.specs.Visits.{LawfulFrom};
    ghost use Rattle.bus_list.specs.Rule.{editor_part, pass_part, joined};
    ghost use Rattle.bus_list.specs.Seats.{IsAt, IsEditorOf, IsPassOf, SameSeat};

    /// A new seat takes the pass's part, and the editor's part stays.
    pub(crate) fn split(&self, seat: &mut ListSeat<T>) -> ListSeat<T>
        requires seat { IsEditorOf self.now seat.old × IsPassOf self.now seat.old }
        requires idle { (seat.old.me.0.editing.phase ≡ Phase.Idle) × (seat.old.me.0.reading.opened ≡ false) }
        ensures same { SameSeat seat.old seat.new }
        ensures me { seat.new.me ≡ (editor_part seat.old.me.0, seat.old.me.1) }
        ensures other { IsAt self.now result × (result.me ≡ (pass_part seat.old.me.0, [])) }
    {
        self.table.shared.split_seat::<Sides>(seat)
    }

    /// The pass's part comes back to the editor's seat.
    pub(crate) fn join(&self, seat: &mut ListSeat<T>, other: ListSeat<T>)
        requires seat { IsEditorOf self.now seat.old }
        requires other { IsPassOf self.now other × (other.me.1 ≡ []) }
        ensures same { SameSeat seat.old seat.new }
        ensures me { seat.new.me ≡ (joined seat.old.me.0 other.me.0, seat.old.me.1) }
    {
        self.table.shared.join_seat::<Sides>(seat, other)
    }

    /// A load after a join. It makes no note, and tells what the rule says of the visits.
    pub(crate) fn learn_visits(&self, seat: &mut ListSeat<T>)
        requires seat { IsEditorOf self.now seat.old × IsPassOf self.now seat.old }
        ensures same { SameSeat seat.old seat.new }
        ensures me { seat.new.me ≡ seat.old.me }
        ensures told { LawfulFrom seat.new.me.0.editing.history seat.new.me.0.reading.start seat.new.me.0.reading.visits seat.new.me.0.reading.last_count }
    {
        self.table.shared.load::<LearnsVisits>(seat, 0);
    }

    /// Exchanges the value of the cell that the seat has.
    pub(crate) fn exchange_cell(
        &self,
        seat: &mut ListSeat<T>,
        bus: u32,
        new: Option<T>,
    ) -> Option<T>
        requires at { IsAt self.now seat.old }
        requires has { (x : Option T) × (seat.old.me.1 ≡ (bus, x) ∷ []) }
        ensures same { SameSeat seat.old seat.new }
        ensures me { (seat.old.me.1 ≡ (bus, result) ∷ []) × (seat.new.me ≡ (seat.old.me.0, (bus, new) ∷ [])) }
    {
        self.table.shared.exchange(seat, bus as usize, new)
    }
}

impl<T: Drop> ListTable<T> {
    ghost use Rattle.bus_list.specs.Seats.{IsAt};
    ghost use Rattle.bus_list.specs.Rule.{first_view};
    ghost use Rattle.bus_list.specs.Limits.{most_buses};

    /// A new table for two owners, and its first seat.
    pub(crate) fn open(
        alloc: Global,
        buses: u32,
    ) -> Result<(ListTable<T>, ListTable<T>, ListSeat<T>), OutOfMemory>
        requires { (0 < buses) × (buses ≤ most_buses) }
        ensures { IfOk result (λ r. (r.0.buses ≡ buses) × (r.1.buses ≡ buses) × IsAt r.0 r.2 × IsAt r.1 r.2 × (r.2.me ≡ (first_view buses, []))) }
    {
        let mut words = vec![in alloc; 0u64; 3 * (buses as usize) + 3]?;
        words[3 * (buses as usize)] = buses as u64;
        let (table, seat) = Table::vacant(alloc, &words, buses as usize, &buses)?;
        let table = Arc::new(alloc, table)?;
        let other = Arc::try_clone(&table)?;
        Ok((
            ListTable { table, buses },
            ListTable {
                table: other,
                buses,
            },
            seat,
        ))
    }
}
