ghost use Rattle.std.specs.Prelude.{◌≡◌, ℕ, ◌<◌, ◌≤◌, [], IfOk};

use crate::both::Both;
use crate::table::ListTable;
use plain_data::OutOfMemory;
use std::alloc::Global;
use std::marker::PhantomData;

/// The lists of buses whose feeds are of the type `T`. It has no values.
pub struct BusList<T> {
    feed: PhantomData<T>,
}

impl<T: Drop> BusList<T> {
    ghost use Rattle.bus_list.specs.ListViews.{history_of, buses_of_list};
    ghost use Rattle.bus_list.specs.Limits.{most_buses};

    /// An empty list for the bus numbers below `buses`, which are 1 to 256. It takes all the memory
    /// that the list will ever need.
    ///
    /// [`OutOfMemory`] where there is no memory.
    pub fn new(alloc: Global, buses: u32) -> Result<Both<T>, OutOfMemory>
        requires { (0 < buses) × (buses ≤ most_buses) }
        ensures { IfOk result (λ b. (history_of b ≡ []) × (buses_of_list b ≡ buses)) }
    {
        let mut links = vec![in alloc; 0u32; buses as usize + 1]?;
        links[buses as usize] = buses;
        let (table, other, seat) = ListTable::open(alloc, buses)?;
        Ok(Both::new(table, other, seat, links))
    }
}
