ghost use Rattle.std.specs.Prelude.{◌≡◌, ◌≤◌, ℕ, true, [], IfOk, drop, length, take, vec_capacity};
ghost use Rattle.bus_list.specs.Limits.{most_buses};
ghost use Rattle.bus_list.specs.ListViews.{history_of, buses_of_list};
ghost use Rattle.node_graph.specs.ListData.{AreListed, data_of, is_kept, list_numbers};
ghost use Rattle.node_graph.specs.ListChanges.{CanAttach, CanDetach, with_edit};

use crate::feed::Feed;
use crate::visit::visit;
use bus_list::{Both, BusList};
use plain_data::OutOfMemory;
use std::alloc::Global;

/// So many edits a list can count.
const MOST_EDITS: u64 = 1 << 62;

/// A linked list of buses, with the numbers that its last visit gave for as long as no edit comes: so
/// a list is visited once between two edits, however often it is asked for. Once it had as many edits
/// as it can count it isn't kept any more, and takes none.
#[derive(Drop)]
pub(crate) struct VisitedList {
    list: Both<Feed>,
    edits: u64,
    numbers: Vec<u32>,
    pub(crate) is_visited: bool,
    ghost edits_are: { edits ≡ length (history_of list) },
    ghost room: { buses_of_list list ≤ vec_capacity numbers },
    ghost visited: { is_visited ≡ true → AreListed (history_of list) numbers.items × (length numbers.items ≤ buses_of_list list) },
}

impl VisitedList {
    ghost use Rattle.bus_list.specs.declared.history.Entry.TheVariants.{On, Off};

    /// An empty list for the numbers of so many buses, or for one number where there are none.
    ///
    /// # Errors
    ///
    /// [`OutOfMemory`] where there is no memory.
    pub(crate) fn empty(alloc: Global, buses: u32) -> Result<Self, OutOfMemory>
        requires { buses ≤ most_buses }
        ensures { IfOk result (λ v. data_of v.list ≡ record { numbers = list_numbers buses; history = [] }) }
    {
        let buses = buses.max(1);
        let list = BusList::new(alloc, buses)?;
        let numbers = Vec::with_capacity(alloc, buses as usize)?;
        Ok(VisitedList {
            list,
            edits: 0,
            numbers,
            is_visited: false,
        })
    }

    /// The list itself.
    pub(crate) fn into_list(self) -> Both<Feed>
        ensures { data_of result ≡ data_of self.list }
    {
        self.list
    }

    /// Whether the list had fewer edits than it can count.
    pub(crate) fn is_kept(&self) -> bool
        ensures { result ≡ is_kept (data_of self.now.list) }
    {
        self.edits < MOST_EDITS
    }

    /// Puts a bus at the front, where the list is kept.
    pub(crate) fn attach(&mut self, feed: Feed)
        requires { is_kept (data_of self.old.list) ≡ true → CanAttach feed.bus (data_of self.old.list) }
        ensures { data_of self.new.list ≡ with_edit (On feed.bus feed) (data_of self.old.list) }
    {
        if self.edits < MOST_EDITS {
            self.is_visited = false;
            self.edits += 1;
            self.list.attach(feed.bus, feed);
        }
    }

    /// Takes a bus out, where the list is kept.
    pub(crate) fn detach(&mut self, bus: u32)
        requires { is_kept (data_of self.old.list) ≡ true → CanDetach bus (data_of self.old.list) }
        ensures { data_of self.new.list ≡ with_edit (Off bus) (data_of self.old.list) }
    {
        if self.edits < MOST_EDITS {
            self.is_visited = false;
            self.edits += 1;
            self.list.detach(bus);
        }
    }

    /// Visits the list, unless no edit came since the last visit.
    pub(crate) fn visited(self) -> Self
        ensures list { data_of result.list ≡ data_of self.list }
        ensures visited { result.is_visited ≡ true }
    {
        if self.is_visited {
            return self;
        }
        let VisitedList {
            list,
            edits,
            mut numbers,
            is_visited: _,
        } = self;
        let list = visit(list, &mut numbers);
        VisitedList {
            list,
            edits,
            numbers,
            is_visited: true,
        }
    }

    /// Writes the numbers of the buses that stand in the list, each once and the last that was attached
    /// first, to the front of a slice that has room for all numbers, and answers how many they are. The
    /// rest of the slice stays as it was. The list is visited.
    pub(crate) fn write_to(&self, into: &mut [u32]) -> usize
        requires visited { self.now.is_visited ≡ true }
        requires room { buses_of_list self.now.list ≤ length into.old }
        ensures listed { AreListed (history_of self.now.list) (take result into.new) }
        ensures count { result ≤ length into.old }
        ensures rest { drop result into.new ≡ drop result into.old }
    {
        let numbers = self.numbers.as_slice();
        into[..numbers.len()].copy_from_slice(numbers);
        numbers.len()
    }
}
