//! Jobs that wait for a worker.
//!
//! A [`JobQueue`] is a ring of jobs that threads share without a lock. Jobs come out in the order in which
//! they went in, each once. A job lies in a slot of a table of tagged slots (`slot_tags`), and the ring, an
//! `ArrayQueue` of `crossbeam_queue`, carries the slot's tag: [`JobQueue::post`] takes a slot, puts the job
//! into it and pushes the tag to the back, and [`JobQueue::next`] pops the tag at the front and lifts the
//! job out from under it. Whoever took a job holds its tag, which is empty: [`JobQueue::post_again`] posts a
//! job under the same tag, and [`JobQueue::done`] ends the tag, so that its slot is free again. The ring has
//! as many places as there are slots. Where there is no room, [`NoRoom`] hands the job back and says
//! [`Place`].
//!
//! Each thread has a [`JobSeat`] with a number of its own. Contracts see three lists of it: what it posted,
//! as jobs with their tags; what it took, as jobs with their tags, the seat that posted them and the number
//! of that post; and the notes of the steps that it made at the slots. All memory is taken when a queue is
//! opened. `post`, `next` and `post_again` may wait for another thread that is in the middle of a push or a
//! pop.
//!
//! All this holds over every interleaving of the steps of all threads: `specs/Rule.antt` has the rule of
//! the ring, which each push and each pop keeps, and `proofs/RuleLaws.antt` what it says in sentences of its
//! own. The ring is private to one module, which has one function for each kind of step; the calls stand
//! over these.
#![tactic(auto)]

mod job_ring;
mod queue;
mod rule;
mod view;

pub use queue::{JobQueue, JobSeat, NoRoom, Place};
pub use view::{Post, Posted, TagData};
