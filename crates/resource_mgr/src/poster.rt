//! The page jobs of a library that are left to post.

ghost use Rattle.std.specs.Prelude.{◌≡◌, ◌+◌, ◌++◌, ◌∷◌, ◌<◌, ◌≤◌, [], Some, All, length, map, IfOk, OnOk, MatchOption};
ghost use Rattle.std.specs.VecDeque.{deque_len, deque_capacity};
ghost use Rattle.resource_mgr.specs.PageOrder.{all_pages, most_pages, pages_at, pages_of_source, pages_of_tape, IsDrawnTo};
ghost use Rattle.resource_mgr.specs.Works.{page_in};
ghost use Rattle.scene_model.specs.Limits as limits;

use crate::source::Source;
use crate::tape::Tape;
use crate::work::Work;
use job_queue::Place;
use plain_data::OutOfMemory;
use std::alloc::Global;
use std::collections::VecDeque;

/// The jobs of the pages that weren't posted yet, in the order in which they are posted.
#[derive(Drop)]
pub struct Poster {
    pub(crate) jobs: VecDeque<Work>,
}

/// What [`Library::post_some`](crate::Library::post_some) posted.
#[derive(Clone, Copy, Debug, PartialEq, Eq)]
pub enum Posted {
    /// Some pages are left, since there was no room for the next one at this place.
    Some { place: Place },
    /// No page is left to post.
    All,
}

impl Poster {
    ghost use Rattle.resource_mgr.specs.Desks.{left_of, RoomForOne};

    /// The jobs of all pages of the reels, none of which was drawn yet.
    pub(crate) fn new(
        alloc: Global,
        sources: &mut [Source],
        tapes: &[Tape],
    ) -> Result<Poster, OutOfMemory>
        requires few { length sources.old ≤ limits.most_resources }
        requires drawn { All (IsDrawnTo 0) sources.old }
        requires same { map pages_of_source sources.old ≡ map pages_of_tape tapes.now }
        ensures { IfOk result (λ poster. map page_in (left_of poster) ≡ map (λ page. Some page) (all_pages (map pages_of_tape tapes.now))) }
    {
        let mut jobs = VecDeque::new(alloc);
        for page in 0..most_pages(tapes) {
            draw_pages(sources, page, &mut jobs)?;
        }
        Ok(Poster { jobs })
    }

    /// The job that is posted next, if one is left. It has room to come back.
    pub(crate) fn next(&mut self) -> Option<Work>
        ensures { MatchOption result
            ((left_of self.old ≡ []) × (left_of self.new ≡ []))
            (λ work. (left_of self.old ≡ work ∷ left_of self.new) × RoomForOne self.new) }
    {
        self.jobs.pop_front()
    }

    /// A job comes back, for which there was no room.
    pub(crate) fn put_back(&mut self, work: Work)
        requires { RoomForOne self.old }
        ensures { left_of self.new ≡ work ∷ left_of self.old }
    {
        self.jobs.push_front_reserved(work);
    }
}

/// The pages of the tape that has most.
fn most_pages(tapes: &[Tape]) -> u32
    ensures { result ≡ most_pages (map pages_of_tape tapes.now) }
{
    let mut most: u32 = 0;
    for tape in tapes {
        most = most.max(tape.pages());
    }
    most
}

/// Draws this page of each reel that has it, in their order, and puts their jobs behind the others.
fn draw_pages(
    sources: &mut [Source],
    page: u32,
    jobs: &mut VecDeque<Work>,
) -> Result<(), OutOfMemory>
    requires few { length sources.old ≤ limits.most_resources }
    requires drawn { All (IsDrawnTo page) sources.old }
    ensures same { OnOk result (map pages_of_source sources.new ≡ map pages_of_source sources.old) }
    ensures drawn { OnOk result (All (IsDrawnTo (page + 1)) sources.new) }
    ensures jobs { OnOk result (map page_in jobs.new.items
        ≡ map page_in jobs.old.items ++ map (λ page. Some page) (pages_at page (map pages_of_source sources.old))) }
{
    for resource in 0..sources.len() {
        if let Some(ticket) = sources[resource].draw() {
            let resource = resource as u32;
            jobs.push_back(Work::Page { resource, ticket })?;
        }
    }
    Ok(())
}
