//! Where there is room for a job, and where there is none.
use crate::queues::{opened, posted, refused, sum_of, worked_off};
use job_queue::Place;
use std::test::*;

#[test]
fn full_slots_hand_the_job_back(rt: HostRuntime) -> Result<(), Fail> {
    let (queue, mut seat) = opened(rt.alloc(), 9)?;
    assert_eq!(rt; posted(&rt, &queue, &mut seat, 32), 32);
    assert_eq!(rt;
        refused(&rt, &queue, &mut seat, 33),
        Some((33, Place::Slots))
    );
    assert_eq!(rt; sum_of(&rt, &queue, &mut seat, 40), 496);
    Ok(())
}

#[test]
fn a_slot_is_free_again_once_its_job_is_done(rt: HostRuntime) -> Result<(), Fail> {
    let (queue, mut seat) = opened(rt.alloc(), 9)?;
    assert_eq!(rt; posted(&rt, &queue, &mut seat, 32), 32);
    let (tag, job) = queue.next(&rt, &mut seat).ok_or("no job")?;
    assert_eq!(rt; job, 0);
    assert_eq!(rt;
        refused(&rt, &queue, &mut seat, 33),
        Some((33, Place::Slots))
    );
    queue.done(&mut seat, tag);
    assert_eq!(rt; refused(&rt, &queue, &mut seat, 33), None);
    assert_eq!(rt;
        worked_off(&rt, &queue, &mut seat),
        Some((4_294_967_297, 1))
    );
    Ok(())
}
