//! Visits and edits in rounds.
ghost use Rattle.std.specs.Prelude.{◌≡◌, ℕ, ◌<◌, ◌≤◌, ◌+◌, ◌^◌, length, true, false, IfOk, None};
ghost use Rattle.bus_list.specs.Visits.{attached_feed};
ghost use Rattle.bus_list.specs.Limits.{most_buses};
ghost use Rattle.bus_list.specs.PassViews.{is_visiting};
ghost use Rattle.bus_list.specs.ListViews.{history_of, history_of_editor, buses_of_list, buses_of_editor};

use bus_list::{Both, BusList, Editor, Pass};
use plain_data::OutOfMemory;
use std::alloc::Global;
use std::sync::Wait;

/// A list for so many buses, to the first of which others are attached, in order. The feed of a bus is
/// its number and 1.
pub fn filled(alloc: Global, attached: u32, buses: u32) -> Result<Both<u32>, OutOfMemory>
    requires { (0 < buses) × (buses ≤ most_buses) × (attached ≤ buses) }
    ensures { IfOk result (λ both. (buses_of_list both ≡ buses) × (length (history_of both) ≡ attached)
        × (attached_feed (history_of both) attached ≡ None)) }
{
    let mut both = BusList::<u32>::new(alloc, buses)?;
    for bus in 0..attached {
        both.attach(bus, bus + 1);
    }
    Ok(both)
}

/// Visits the list so often, and mixes the feeds into a number.
pub fn visit_rounds(pass: &mut Pass<u32>, rounds: u32) -> u32
    requires { is_visiting pass.old ≡ false }
{
    let mut sum = 0;
    for _ in 0..rounds {
        sum = visit(pass, sum);
    }
    sum
}

/// Visits the list, and mixes the feeds into a number.
fn visit(pass: &mut Pass<u32>, sum: u32) -> u32
    requires { is_visiting pass.old ≡ false }
    ensures { is_visiting pass.new ≡ false }
{
    let mut sum: u32 = sum;
    let _from = pass.begin();
    for _ in 0..257u32 {
        match pass.next() {
            Some(held) => sum = sum.wrapping_mul(31).wrapping_add(*held.feed()),
            None => break,
        }
    }
    let _window = pass.end();
    sum
}

/// Attaches a bus and detaches it so often, and mixes the feeds into a number.
pub fn edit_rounds<R: Wait>(rt: &R, editor: &mut Editor<u32>, bus: u32, rounds: u32) -> u32
    requires bus { bus < buses_of_editor editor.old }
    requires off { attached_feed (history_of_editor editor.old) bus ≡ None }
{
    let mut sum: u32 = 0;
    for round in 0..rounds {
        sum = sum
            .wrapping_mul(31)
            .wrapping_add(edit(rt, editor, bus, round | 1));
    }
    sum
}

/// Attaches the bus and detaches it, and gives its feed.
pub fn edit<R: Wait>(rt: &R, editor: &mut Editor<u32>, bus: u32, feed: u32) -> u32
    requires bus { bus < buses_of_editor editor.old }
    requires off { attached_feed (history_of_editor editor.old) bus ≡ None }
    ensures bus { buses_of_editor editor.new ≡ buses_of_editor editor.old }
    ensures off { attached_feed (history_of_editor editor.new) bus ≡ None }
{
    if editor.edits() < MOST_EDITS {
        editor.attach(bus, feed);
        return editor.detach(rt, bus);
    }
    0
}

/// No more edits than these are begun.
const MOST_EDITS: u64 = 1 << 61;
