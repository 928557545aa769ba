//! Gates on one thread: no event is waited for in vain, since each wait ends with its turns.

use crate::events::{ONE_OF_EACH, call_each, holding};
use snd_io::{Event, FreeGate, Gate};
use std::test::*;

const FEW_TURNS: u32 = 100;

const FIRST: Event = Event::BeforeBlock { n: 0 };

const SECOND: Event = Event::AfterBlock { n: 0 };

#[test]
fn a_free_gate_lets_each_call_pass(_rt: HostRuntime) -> Result<(), Fail> {
    call_each(&FreeGate);
    Ok(())
}

#[test]
fn each_call_is_the_event_of_its_name_and_arguments(rt: HostRuntime) -> Result<(), Fail> {
    let gate = holding(rt.alloc(), &ONE_OF_EACH, 0)?;
    assert!(rt; !gate.kept());
    call_each(&gate);
    assert!(rt; gate.kept());
    Ok(())
}

#[test]
fn an_event_before_its_turn_is_late_once_its_turns_have_run_out(
    rt: HostRuntime,
) -> Result<(), Fail> {
    for turns in [0, FEW_TURNS] {
        let gate = holding(rt.alloc(), &[FIRST, SECOND], turns)?;
        gate.after_block(0);
        gate.before_block(0);
        assert!(rt; !gate.kept());
    }
    Ok(())
}

#[test]
fn the_order_is_not_kept_before_the_last_event_has_come(rt: HostRuntime) -> Result<(), Fail> {
    let gate = holding(rt.alloc(), &[FIRST, SECOND], FEW_TURNS)?;
    gate.before_block(0);
    assert!(rt; !gate.kept());
    gate.after_block(0);
    assert!(rt; gate.kept());
    Ok(())
}

#[test]
fn an_empty_list_is_kept(rt: HostRuntime) -> Result<(), Fail> {
    let gate = holding(rt.alloc(), &[], FEW_TURNS)?;
    assert!(rt; gate.kept());
    call_each(&gate);
    assert!(rt; gate.kept());
    Ok(())
}

#[test]
fn an_event_that_comes_twice_is_kept(rt: HostRuntime) -> Result<(), Fail> {
    let gate = holding(rt.alloc(), &[FIRST, SECOND], FEW_TURNS)?;
    gate.before_block(0);
    gate.before_block(0);
    gate.after_block(0);
    gate.before_block(0);
    assert!(rt; gate.kept());
    Ok(())
}

#[test]
fn a_late_event_stays_late_when_it_comes_again(rt: HostRuntime) -> Result<(), Fail> {
    let gate = holding(rt.alloc(), &[FIRST, SECOND], FEW_TURNS)?;
    gate.after_block(0);
    gate.before_block(0);
    gate.after_block(0);
    assert!(rt; !gate.kept());
    Ok(())
}

#[test]
fn events_with_other_arguments_are_not_listed(rt: HostRuntime) -> Result<(), Fail> {
    let gate = holding(rt.alloc(), &[FIRST, SECOND], FEW_TURNS)?;
    gate.after_block(1);
    gate.before_block(1);
    gate.before_visit(0, 0);
    assert!(rt; !gate.kept());
    gate.before_block(0);
    gate.after_block(0);
    assert!(rt; gate.kept());
    Ok(())
}
