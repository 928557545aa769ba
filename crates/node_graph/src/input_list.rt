ghost use Rattle.std.specs.Prelude.{◌≡◌, ◌≤◌, ℕ, true, false, Option, Some, None, [], IfOk, IfSome, drop, length, take};
ghost use Rattle.std.specs.Option.{option_map, option_map_or};
ghost use Rattle.bus_list.specs.Limits.{most_buses};
ghost use Rattle.node_graph.specs.ListChanges.{CanAttach, CanDetach, with_edit};
ghost use Rattle.node_graph.specs.ListData.{ListData, AreListed, data_of, is_kept, list_numbers};

use crate::feed::Feed;
use crate::visited_list::VisitedList;
use bus_list::Both;
use plain_data::OutOfMemory;
use std::alloc::Global;
use std::marker::Model;

/// The linked list of the buses that are attached to an input. A node without an input has none.
#[derive(Drop)]
pub(crate) struct InputList {
    list: Option<VisitedList>,
}

impl Model for InputList {
    ghost use Rattle.std.specs.Prelude.{Option};
    ghost use Rattle.std.specs.Option.{option_map};
    ghost use Rattle.node_graph.specs.ListData.{ListData, data_of};
    ghost use Rattle.node_graph.specs.declared.visited_list.VisitedList.{VisitedList};

    ghost Value = { Option ListData };

    ghost view = { λ i. option_map (λ (v : VisitedList). data_of v.list) i.list };
}

impl InputList {
    ghost use Rattle.bus_list.specs.declared.history.Entry.TheVariants.{On, Off};

    /// What stands for a node without an input.
    pub(crate) fn none() -> Self
        ensures { result ≡ None }
    {
        InputList { list: None }
    }

    /// An empty list for the numbers of so many buses, or for one number where there are none. It
    /// takes all the memory that it will ever need.
    ///
    /// # Errors
    ///
    /// [`OutOfMemory`] where there is no memory.
    pub(crate) fn empty(alloc: Global, buses: u32) -> Result<Self, OutOfMemory>
        requires { buses ≤ most_buses }
        ensures { IfOk result (λ list. list ≡ Some (record { numbers = list_numbers buses; history = [] })) }
    {
        let list = VisitedList::empty(alloc, buses)?;
        Ok(InputList { list: Some(list) })
    }

    /// The list itself, if there is one.
    pub(crate) fn into_list(self) -> Option<Both<Feed>>
        ensures { option_map data_of result ≡ self }
    {
        match self.list {
            Some(list) => Some(list.into_list()),
            None => None,
        }
    }

    /// Whether there is a list, and it had fewer edits than it can count.
    pub(crate) fn is_kept(&self) -> bool
        ensures { result ≡ option_map_or is_kept self.now false }
    {
        match &self.list {
            Some(list) => list.is_kept(),
            None => false,
        }
    }

    /// Puts a bus at the front of the list, where there is one that is kept.
    pub(crate) fn attach(&mut self, feed: Feed)
        requires { IfSome self.old (λ list. is_kept list ≡ true → CanAttach feed.bus list) }
        ensures { self.new ≡ option_map (with_edit (On feed.bus feed)) self.old }
    {
        if let Some(list) = &mut self.list {
            list.attach(feed);
        }
    }

    /// Takes a bus out of the list, where there is one that is kept.
    pub(crate) fn detach(&mut self, bus: u32)
        requires { IfSome self.old (λ list. is_kept list ≡ true → CanDetach bus list) }
        ensures { self.new ≡ option_map (with_edit (Off bus)) self.old }
    {
        if let Some(list) = &mut self.list {
            list.detach(bus);
        }
    }

    /// Writes the numbers of the buses that stand in the list, each once and the last that was attached
    /// first, to the front of a slice that has room for all numbers, and answers how many they are. The
    /// rest of the slice stays as it was. There are none where there is no list.
    pub(crate) fn visit(&mut self, into: &mut [u32]) -> usize
        requires { IfSome self.old (λ list. list.numbers ≤ length into.old) }
        ensures listed { IfSome self.old (λ list. AreListed list.history (take result into.new)) }
        ensures count { result ≤ length into.old }
        ensures rest { drop result into.new ≡ drop result into.old }
        ensures same { self.new ≡ self.old }
    {
        if let Some(list) = &self.list {
            if list.is_visited {
                return list.write_to(into);
            }
        }
        let Some(list) = self.list.take() else {
            return 0;
        };
        let list = list.visited();
        let count = list.write_to(into);
        self.list = Some(list);
        count
    }
}
