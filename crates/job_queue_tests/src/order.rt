//! The order in which jobs come out, and the tags under which they lie.
use crate::queues::{opened, refused, taken, worked_off};
use std::test::*;

#[test]
fn jobs_come_out_in_order_and_once_more_under_their_tag(rt: HostRuntime) -> Result<(), Fail> {
    let (queue, mut seat) = opened(rt.alloc(), 9)?;
    for job in 7..10u64 {
        assert_eq!(rt; refused(&rt, &queue, &mut seat, job), None);
    }
    let (tag, job) = queue.next(&rt, &mut seat).ok_or("no job")?;
    assert_eq!(rt; (tag.value(), job), (4_294_967_296, 7));
    assert!(rt; queue.post_again(&rt, &mut seat, tag, 7).is_ok());
    assert_eq!(rt; taken(&rt, &queue, &mut seat), Some(8));
    assert_eq!(rt; taken(&rt, &queue, &mut seat), Some(9));
    let (tag, job) = queue.next(&rt, &mut seat).ok_or("no job")?;
    assert_eq!(rt; (tag.value(), job), (4_294_967_296, 7));
    assert_eq!(rt; taken(&rt, &queue, &mut seat), None);
    queue.done(&mut seat, tag);
    assert_eq!(rt; refused(&rt, &queue, &mut seat, 5), None);
    assert_eq!(rt;
        worked_off(&rt, &queue, &mut seat),
        Some((8_589_934_592, 5))
    );
    Ok(())
}

#[test]
fn a_job_may_own_memory(rt: HostRuntime) -> Result<(), Fail> {
    let (queue, mut seat) = opened::<String>(rt.alloc(), 2)?;
    let job = format!(in rt.alloc(); "a job of {} words", 5)?;
    assert!(rt; queue.post(&rt, &mut seat, job).is_ok());
    let (tag, job) = queue.next(&rt, &mut seat).ok_or("no job")?;
    assert_eq!(rt; job.as_str(), "a job of 5 words");
    queue.done(&mut seat, tag);
    Ok(())
}
