//! A visit of a list under which no edit comes.

ghost use Rattle.std.specs.Prelude.{◌≡◌, ◌≤◌, ℕ, [], true, false, MatchOption, length, vec_capacity};
ghost use Rattle.bus_list.specs.ListViews.{history_of, buses_of_list};
ghost use Rattle.bus_list.specs.PassViews.{Next, HasEnded, Gave, buses_of_pass, is_visiting, visits_of};
ghost use Rattle.node_graph.specs.ListData.{AreListed, data_of};
ghost use Rattle.node_graph.specs.Walks.{IsWalk};

use crate::feed::Feed;
use bus_list::{Both, Pass};

/// The numbers of the buses that stand in a list, each once and in the list's order, in place of those
/// that were in `numbers`, which has room for them. It gives the list back as it was.
pub(crate) fn visit(list: Both<Feed>, numbers: &mut Vec<u32>) -> Both<Feed>
    requires { buses_of_list list ≤ vec_capacity numbers.old }
    ensures listed { AreListed (history_of list) numbers.new.items }
    ensures few { length numbers.new.items ≤ buses_of_list list }
    ensures capacity { vec_capacity numbers.new ≡ vec_capacity numbers.old }
    ensures list { data_of result ≡ data_of list }
{
    let (editor, mut pass) = list.split();
    walk(&mut pass, numbers);
    Both::join(editor, pass)
}

/// Visits a list from its first bus to its end, and keeps the numbers of the buses.
fn walk(pass: &mut Pass<Feed>, numbers: &mut Vec<u32>)
    requires shut { is_visiting pass.old ≡ false }
    requires first { visits_of pass.old ≡ [] }
    requires room { buses_of_pass pass.old ≤ vec_capacity numbers.old }
    ensures walk { IsWalk pass.old pass.new numbers.new.items }
    ensures capacity { vec_capacity numbers.new ≡ vec_capacity numbers.old }
{
    numbers.clear();
    pass.begin();
    while let Some(bus) = next_bus(pass) {
        numbers.push_reserved(bus);
    }
    pass.end();
}

/// Goes on to the next bus of the visit.
fn next_bus(pass: &mut Pass<Feed>) -> Option<u32>
    requires { is_visiting pass.old ≡ true }
    ensures next { Next pass.old pass.new }
    ensures bus { MatchOption result (HasEnded pass.old pass.new) (λ bus. (feed : Feed) × Gave pass.old pass.new bus feed) }
{
    match pass.next() {
        Some(held) => Some(held.bus()),
        None => None,
    }
}
