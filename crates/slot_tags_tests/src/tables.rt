//! Tables with one seat, and what the tests do with them.
ghost use Rattle.std.specs.Prelude.{◌≡◌, ◌≤◌, All, true, is_some, IfOk};
ghost use Rattle.slot_tags.specs.Tags.{IsSeatOf, IsTagOf, job_of};

use plain_data::OutOfMemory;
use slot_tags::{Full, SlotSeat, SlotTable, SlotTag};
use std::alloc::{AllocError, Global};

/// A table and its only seat.
pub fn opened(
    alloc: Global,
    groups: u32,
    last: u32,
) -> Result<(SlotTable<u64>, SlotSeat<u64>), OutOfMemory>
    requires { (1 ≤ groups) × (groups ≤ 32) × (1 ≤ last) }
    ensures { IfOk result (λ r. IsSeatOf r.0 r.1) }
{
    let (table, mut seats) = SlotTable::new(alloc, groups, last, 1)?;
    let Some(seat) = seats.pop() else {
        unreachable!()
    };
    Ok((table, seat))
}

/// Takes a tag with `job`, lifts the job and gives the tag back. Tells the tag's value, if a slot was
/// free and the job that was lifted is the one that was given.
pub fn turn(table: &SlotTable<u64>, seat: &mut SlotSeat<u64>, job: u64) -> Option<u64>
    requires { IsSeatOf table.now seat.old }
    ensures { IsSeatOf table.now seat.new }
{
    let mut tag = match table.take(seat, job) {
        Ok(tag) => tag,
        Err(Full { job: _ }) => return None,
    };
    let value = tag.value();
    let lifted = table.lift(seat, &mut tag);
    table.give(seat, tag);
    if lifted == job { Some(value) } else { None }
}

/// Takes a tag with `job`, lifts the job again and gives the tag back. The job comes back in any case.
pub fn through<J>(table: &SlotTable<J>, seat: &mut SlotSeat<J>, job: J) -> J
    requires { IsSeatOf table.now seat.old }
    ensures seat { IsSeatOf table.now seat.new }
    ensures job { result ≡ job }
{
    match table.take(seat, job) {
        Ok(mut tag) => {
            let lifted = table.lift(seat, &mut tag);
            table.give(seat, tag);
            lifted
        }
        Err(full) => {
            let Full { job } = full;
            job
        }
    }
}

/// Whether a take is refused, and hands its job back.
pub fn is_full(table: &SlotTable<u64>, seat: &mut SlotSeat<u64>, job: u64) -> bool
    requires { IsSeatOf table.now seat.old }
    ensures { IsSeatOf table.now seat.new }
{
    match table.take(seat, job) {
        Ok(_tag) => false,
        Err(full) => full.job == job,
    }
}

/// Takes `count` tags, whose jobs are 0 and on.
pub fn taken(
    alloc: Global,
    table: &SlotTable<u64>,
    seat: &mut SlotSeat<u64>,
    count: u64,
) -> Result<Vec<SlotTag>, AllocError>
    requires { IsSeatOf table.now seat.old }
    ensures seat { IsSeatOf table.now seat.new }
    ensures tags { IfOk result (λ v. All (λ t. IsTagOf table.now t × (is_some (job_of t) ≡ true)) v.items) }
{
    let mut tags = Vec::new(alloc);
    for job in 0..count {
        if let Ok(tag) = table.take(seat, job) {
            tags.push(tag)?;
        }
    }
    Ok(tags)
}

/// Lifts the jobs of these tags and gives the tags back, the last first. Tells the sum of the jobs.
pub fn given_back(table: &SlotTable<u64>, seat: &mut SlotSeat<u64>, mut tags: Vec<SlotTag>) -> u64
    requires seat { IsSeatOf table.now seat.old }
    requires tags { All (λ t. IsTagOf table.now t × (is_some (job_of t) ≡ true)) tags.items }
    ensures { IsSeatOf table.now seat.new }
{
    let mut sum: u64 = 0;
    while let Some(mut tag) = tags.pop() {
        sum = sum.wrapping_add(table.lift(seat, &mut tag));
        table.give(seat, tag);
    }
    sum
}
