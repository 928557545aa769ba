//! The tickets of a clip of three pages, run once each in every order on one thread.

use crate::clips::pcm_clip;
use crate::tickets::{opened, run_one};
use std::alloc::Global;
use std::process::Abort;
use std::test::Fail;

/// An order of the numbers, and what each run in turn answers: the pointer where it is early.
type Case = ([u32; 3], [Option<u32>; 3]);

const ORDERS: [Case; 6] = [
    ([0, 1, 2], [None, None, None]),
    ([0, 2, 1], [None, Some(1), None]),
    ([1, 0, 2], [Some(0), None, Some(1)]),
    ([1, 2, 0], [Some(0), Some(0), None]),
    ([2, 0, 1], [Some(0), None, None]),
    ([2, 1, 0], [Some(0), Some(0), None]),
];

/// Runs the tickets of three pages in this order, and gives what each run answered.
fn answers(rt: &impl Abort, alloc: Global, order: &[u32; 3]) -> Result<Vec<Option<u32>>, Fail> {
    let (mut tickets, _reader) = opened(rt, alloc, pcm_clip(alloc, 20_000)?, 3)?;
    let mut answers = Vec::new(alloc);
    for number in order {
        answers.push(run_one(&mut tickets, *number)?)?;
    }
    Ok(answers)
}

#[test]
fn a_ticket_is_early_until_those_before_it_have_run(rt: HostRuntime) -> Result<(), Fail> {
    for (order, want) in ORDERS {
        let found = answers(&rt, rt.alloc(), &order)?;
        assert!(rt;
            found.as_slice() == want.as_slice(),
            "in the order {order:?}"
        );
    }
    Ok(())
}
