ghost use Rattle.std.specs.Prelude.{◌≡◌, ℕ, ◌+◌, ◌≤◌, length};
ghost use Rattle.bus_list.specs.Steps.{Route};
ghost use Rattle.bus_list.specs.Seats.{IsPredecessor};

use crate::table::ListSeat;

/// The bus whose link leads to `bus`, or the dummy, found in the editor's copy of the links.
pub(crate) fn find_predecessor<T>(links: &[u32], seat: &ListSeat<T>, buses: u32, bus: u32) -> u32
    requires route { Route buses links.now seat.now.me.0.editing.chain bus }
    requires size { length links.now ≡ buses + 1 }
    ensures { (result ≤ buses) × IsPredecessor buses bus result seat.now.me.0.editing.chain }
{
    let mut at = buses;
    while links[at as usize] != bus {
        at = links[at as usize];
    }
    at
}
