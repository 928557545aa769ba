//! The rule of the ring, and what each kind of step tells.
ghost use Rattle.atomic_table.specs.Seated.{TableId};

use crate::view::JobView;
use crossbeam_queue::protocol::{Lesson, Outcome, Protocol, Split};
use slot_tags::SlotTag;
use std::marker::{Brand, PhantomData};

/// The rule of the ring.
pub struct RingRule;

impl<J> Protocol<SlotTag, JobView<J>> for RingRule {
    ghost use Rattle.job_queue.specs.Rule.{Queued};
    ghost use Rattle.job_queue.specs.Steps.{first_view};

    ghost holds = { Queued J.row.coded.code };

    ghost first = { first_view };
}

/// Which slot table the job seats of a ring name.
pub trait NamesTable {
    ghost table: { TableId };
}

impl NamesTable for Brand {
    ghost use Rattle.job_queue.specs.Steps.{no_table};

    ghost table = { no_table };
}

/// A job seat's pass is split off the first one.
pub struct SplitsSeat<B: NamesTable> {
    of: PhantomData<B>,
}

impl<J, B: NamesTable> Split<JobView<J>> for SplitsSeat<B> {
    ghost use Rattle.job_queue.specs.Steps.{after_split, new_seat};

    ghost left = { after_split B.table };

    ghost right = { new_seat B.table };
}

/// A push of a tag at the back, or a look at a full ring.
pub struct PushesTag;

impl<J> Outcome<SlotTag, JobView<J>> for PushesTag {
    ghost use Rattle.job_queue.specs.Steps.{Pushed};

    ghost then = { Pushed J.row.coded.code };
}

impl<J> Lesson<SlotTag, JobView<J>> for PushesTag {
    ghost use Rattle.job_queue.specs.Steps.{Stood};

    ghost fact = { Stood J.row.coded.code };
}

/// A pop of the tag at the front, or a look at an empty ring.
pub struct PopsTag;

impl<J> Outcome<SlotTag, JobView<J>> for PopsTag {
    ghost use Rattle.job_queue.specs.Steps.{Popped};

    ghost then = { Popped J.row.coded.code };
}

impl<J> Lesson<SlotTag, JobView<J>> for PopsTag {
    ghost use Rattle.job_queue.specs.Steps.{Stood};

    ghost fact = { Stood J.row.coded.code };
}
