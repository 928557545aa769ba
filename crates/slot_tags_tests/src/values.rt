//! The values of tags, and the jobs under them.
use crate::tables::{is_full, opened, taken, through, turn};
use slot_tags::SlotTable;
use std::test::*;

#[test]
fn a_slot_is_given_until_its_last_number(rt: HostRuntime) -> Result<(), Fail> {
    let (table, mut seat) = opened(rt.alloc(), 1, 2)?;
    assert_eq!(rt; turn(&table, &mut seat, 7), Some(4_294_967_296));
    assert_eq!(rt; turn(&table, &mut seat, 8), Some(8_589_934_592));
    assert_eq!(rt; turn(&table, &mut seat, 9), Some(4_294_967_297));
    Ok(())
}

#[test]
fn a_full_table_hands_the_job_back(rt: HostRuntime) -> Result<(), Fail> {
    let (table, mut seat) = opened(rt.alloc(), 1, 9)?;
    let tags = taken(rt.alloc(), &table, &mut seat, 32)?;
    assert_eq!(rt; tags.len(), 32);
    for (slot, tag) in tags.iter().enumerate() {
        assert_eq!(rt; tag.value(), 4_294_967_296 + slot as u64);
        assert!(rt; tag.is_full());
    }
    assert!(rt; is_full(&table, &mut seat, 33));
    Ok(())
}

#[test]
fn a_tag_is_emptied_and_filled(rt: HostRuntime) -> Result<(), Fail> {
    let (table, mut seat) = opened(rt.alloc(), 1, 9)?;
    let mut tag = table.take(&mut seat, 1)?;
    assert!(rt; tag.is_full());
    assert_eq!(rt; table.lift(&mut seat, &mut tag), 1);
    assert!(rt; !tag.is_full());
    table.put(&mut seat, &mut tag, 2);
    assert!(rt; tag.is_full());
    assert_eq!(rt; table.lift(&mut seat, &mut tag), 2);
    assert_eq!(rt; tag.value(), 4_294_967_296);
    table.give(&mut seat, tag);
    Ok(())
}

#[test]
fn a_job_may_own_memory(rt: HostRuntime) -> Result<(), Fail> {
    let (table, mut seats) = SlotTable::<String>::new(rt.alloc(), 1, 2, 1)?;
    let mut seat = seats.pop().ok_or("no seat")?;
    let job = format!(in rt.alloc(); "a job of {} words", 5)?;
    let job = through(&table, &mut seat, job);
    assert_eq!(rt; job.as_str(), "a job of 5 words");
    Ok(())
}
