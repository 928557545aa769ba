//! Visits as a test sees them.
ghost use Rattle.std.specs.Prelude.{◌≡◌, true, false};
ghost use Rattle.bus_list.specs.PassViews.{is_visiting, list_of_pass};

use bus_list::{Pass, Window};
use std::alloc::Global;

/// What a visit gave.
#[derive(Drop)]
pub(crate) struct Visited {
    pub window: Window,
    pub pairs: Vec<(u32, u32)>,
    pub whole: bool,
}

/// The next bus of the visit, with its feed.
pub(crate) fn next_pair(pass: &mut Pass<u32>) -> Option<(u32, u32)>
    requires { is_visiting pass.old ≡ true }
    ensures { (is_visiting pass.new ≡ true) × (list_of_pass pass.new ≡ list_of_pass pass.old) }
{
    match pass.next() {
        Some(held) => Some((held.bus(), *held.feed())),
        None => None,
    }
}

/// A visit of a list of at most 8 buses. It stops early where there is no memory for a pair.
pub(crate) fn visit(alloc: Global, pass: &mut Pass<u32>) -> Visited
    requires { is_visiting pass.old ≡ false }
    ensures { (is_visiting pass.new ≡ false) × (list_of_pass pass.new ≡ list_of_pass pass.old) }
{
    let mut pairs = Vec::new(alloc);
    let mut whole = false;
    let _from = pass.begin();
    for _ in 0..9u32 {
        match next_pair(pass) {
            Some(pair) => {
                if pairs.push(pair).is_err() {
                    break;
                }
            }
            None => {
                whole = true;
                break;
            }
        }
    }
    Visited {
        window: pass.end(),
        pairs,
        whole,
    }
}
