//! Tables at their limits: one take of each slot, the highest last number, and the most groups.
use crate::tables::{given_back, is_full, opened, taken, turn};
use std::test::*;

#[test]
fn slots_with_the_last_number_are_used_up(rt: HostRuntime) -> Result<(), Fail> {
    let (table, mut seat) = opened(rt.alloc(), 1, 1)?;
    let tags = taken(rt.alloc(), &table, &mut seat, 32)?;
    assert_eq!(rt; tags.len(), 32);
    assert_eq!(rt; given_back(&table, &mut seat, tags), 496);
    assert!(rt; is_full(&table, &mut seat, 5));
    Ok(())
}

#[test]
fn slots_are_free_again_below_the_highest_last_number(rt: HostRuntime) -> Result<(), Fail> {
    let (table, mut seat) = opened(rt.alloc(), 1, 4_294_967_295)?;
    let tags = taken(rt.alloc(), &table, &mut seat, 40)?;
    assert_eq!(rt; tags.len(), 32);
    assert_eq!(rt; given_back(&table, &mut seat, tags), 496);
    assert_eq!(rt; turn(&table, &mut seat, 1), Some(8_589_934_592));
    assert_eq!(rt; turn(&table, &mut seat, 2), Some(12_884_901_888));
    Ok(())
}

#[test]
fn most_groups_have_1024_slots(rt: HostRuntime) -> Result<(), Fail> {
    let (table, mut seat) = opened(rt.alloc(), 32, 3)?;
    let tags = taken(rt.alloc(), &table, &mut seat, 1024)?;
    assert_eq!(rt; tags.len(), 1024);
    for (slot, tag) in tags.iter().enumerate() {
        assert_eq!(rt; tag.value(), 4_294_967_296 + slot as u64);
    }
    assert!(rt; is_full(&table, &mut seat, 5));
    Ok(())
}
