//! Gates with lists of events, and calls of them.

use plain_data::OutOfMemory;
use snd_io::{Event, Gate, HoldGate};
use std::alloc::Global;

/// As many turns as no test uses up where its events can come in their order.
pub const AMPLE_TURNS: u32 = 10_000_000;

/// One call of each kind, no two arguments of a call alike.
pub const ONE_OF_EACH: [Event; 7] = [
    Event::BeforeJob {
        resource: 1,
        page: 2,
    },
    Event::AfterJob {
        resource: 3,
        page: 4,
    },
    Event::BeforeEdit { editor: 5, k: 6 },
    Event::AfterEdit { editor: 7, k: 8 },
    Event::BeforeBlock { n: 9 },
    Event::AfterBlock { n: 10 },
    Event::BeforeVisit { n: 11, node: 12 },
];

/// A gate that holds these events in their order.
pub fn holding(alloc: Global, order: &[Event], turns: u32) -> Result<HoldGate, OutOfMemory> {
    let order = Vec::from_slice(alloc, order)?;
    HoldGate::new(alloc, order, turns)
}

/// Makes the calls of `ONE_OF_EACH`, in their order.
pub fn call_each<G: Gate>(gate: &G) {
    gate.before_job(1, 2);
    gate.after_job(3, 4);
    gate.before_edit(5, 6);
    gate.after_edit(7, 8);
    gate.before_block(9);
    gate.after_block(10);
    gate.before_visit(11, 12);
}
