//! Libraries: the pages of clips as jobs that threads share.

ghost use Rattle.std.specs.Prelude.{◌≡◌, ◌≤◌, All, length, map, IfOk, MatchResult};
ghost use Rattle.clip_decode.specs.ClipData.{ClipData};
ghost use Rattle.clip_decode.specs.Limits.{most_sound_bytes};
ghost use Rattle.job_queue.specs.Queues.{took_of};
ghost use Rattle.resource_mgr.specs.Desks.{new_desk, seat_of, desk_number, kept_of, ended_of, IsDeskOf};
ghost use Rattle.resource_mgr.specs.Posting.{PostsQuit, PostsRest};
ghost use Rattle.resource_mgr.specs.Shelves.{IsNewShelf};
ghost use Rattle.resource_mgr.specs.Workers.{most_workers};
ghost use Rattle.resource_mgr.specs.contracts.work.Work.{the_row};
ghost use Rattle.scene_model.specs.Limits as limits;

use crate::desk::Desk;
use crate::poster::{Posted, Poster};
use crate::reels::open_sources;
use crate::tape::Tape;
use crate::work::Work;
use clip_decode::Clip;
use job_queue::{JobQueue, JobSeat, NoRoom, Place};
use plain_data::OutOfMemory;
use std::alloc::Global;
use std::sync::Wait;

/// The most workers that decode at once.
pub const MAX_WORKERS: u32 = 16;

/// Groups of 32 slots, in which the jobs lie that wait.
const GROUPS: u32 = 32;

/// The jobs of the pages of clips, which threads share by reference: each page is decoded once, in its turn.
///
/// Its calls take no memory, but for [`Library::open`].
#[derive(Drop)]
pub struct Library {
    pub(crate) queue: JobQueue<Work>,
}

/// A library, with what its jobs are posted with, what they are run at, and the tapes that show what was decoded.
#[derive(Drop)]
pub struct Shelf {
    pub library: Library,
    pub poster: Poster,
    /// One for each worker and one more.
    pub desks: Vec<Desk>,
    /// By the number of the resource.
    pub tapes: Vec<Tape>,
}

impl Library {
    /// Opens a reel of each clip, at most 64 clips of at most 67108864 bytes each, with the memory of all pages. None is
    /// decoded yet, and no job is posted: page 0 of each clip in order is to be posted first, then page 1 of each, and so
    /// on. There is a desk for each of at most 16 workers, and one more. At most 1024 jobs wait at once.
    ///
    /// # Errors
    ///
    /// [`OutOfMemory`] where there is no memory.
    pub fn open(alloc: Global, clips: Vec<Clip>, workers: u32) -> Result<Shelf, OutOfMemory>
        requires workers { workers ≤ most_workers }
        requires few { length clips.items ≤ limits.most_resources }
        requires sizes { All (λ (clip : ClipData). length clip.bytes ≤ most_sound_bytes) clips.items }
        ensures { IfOk result (λ shelf. IsNewShelf clips.items workers shelf) }
    {
        let (mut sources, tapes) = open_sources(alloc, clips)?;
        let poster = Poster::new(alloc, sources.as_mut_slice(), tapes.as_slice())?;
        let (queue, seats) = JobQueue::new(alloc, GROUPS, u32::MAX, workers + 1)?;
        let desks = desks_of(alloc, seats)?;
        Ok(Shelf {
            library: Library { queue },
            poster,
            desks,
            tapes,
        })
    }

    /// Posts the jobs of the pages that weren't posted yet, in their order, until there is no room for one. It takes no
    /// job.
    ///
    /// [`Posted::Some`] comes only where a post of this call had no room at that place, and the page of that post is the
    /// next one still. [`Posted::All`] comes exactly where no page is left to post.
    pub fn post_some<R: Wait>(&self, rt: &R, poster: &mut Poster, desk: &mut Desk) -> Posted
        requires { IsDeskOf self.now desk.old }
        ensures desk { IsDeskOf self.now desk.new × (desk_number desk.new ≡ desk_number desk.old) }
        ensures posted { PostsRest the_row.coded.code self.now poster.old poster.new desk.old desk.new result }
        ensures took { took_of (seat_of desk.new) ≡ took_of (seat_of desk.old) }
        ensures same { (kept_of desk.new ≡ kept_of desk.old) × (ended_of desk.new ≡ ended_of desk.old) }
    {
        while let Some(work) = poster.next() {
            if let Err(NoRoom { job, place }) = self.queue.post(rt, &mut desk.seat, work) {
                poster.put_back(job);
                return Posted::Some { place };
            }
        }
        Posted::All
    }

    /// Posts a [`Work::Quit`]. It takes no job.
    ///
    /// # Errors
    ///
    /// The place at which it had no room. Nothing was posted then.
    pub fn post_quit<R: Wait>(&self, rt: &R, desk: &mut Desk) -> Result<(), Place>
        requires { IsDeskOf self.now desk.old }
        ensures desk { IsDeskOf self.now desk.new × (desk_number desk.new ≡ desk_number desk.old) }
        ensures posted { PostsQuit the_row.coded.code self.now (seat_of desk.old) (seat_of desk.new) result }
        ensures took { took_of (seat_of desk.new) ≡ took_of (seat_of desk.old) }
        ensures same { (kept_of desk.new ≡ kept_of desk.old) × (ended_of desk.new ≡ ended_of desk.old) }
    {
        match self.queue.post(rt, &mut desk.seat, Work::Quit) {
            Ok(()) => Ok(()),
            Err(NoRoom { place, .. }) => Err(place),
        }
    }
}

/// A desk for each seat.
fn desks_of(alloc: Global, seats: Vec<JobSeat<Work>>) -> Result<Vec<Desk>, OutOfMemory>
    ensures { IfOk result (λ desks. desks.items ≡ map new_desk seats.items) }
{
    let mut desks = Vec::with_capacity(alloc, seats.len())?;
    for seat in seats {
        desks.push(Desk {
            seat,
            kept: None,
            ended: None,
        })?;
    }
    Ok(desks)
}
