//! The jobs of a library, and what became of them.

use exec_reel::Ticket;

/// A job of a [`Library`](crate::Library).
#[derive(Drop)]
pub enum Work {
    /// A page is to be decoded: the number of its resource, and its ticket, whose number is the page's.
    Page { resource: u32, ticket: Ticket },
    /// Each worker that takes it stops. It goes back to the others.
    Quit,
}

/// What [`Library::work_one`](crate::Library::work_one) did. Resources and pages are numbered from 0.
#[derive(Clone, Copy, Debug, PartialEq, Eq)]
pub enum Worked {
    /// It decoded this page of this resource.
    Ran {
        resource: u32,
        page: u32,
    },
    /// The turn of this page hadn't come: `pointer` pages of this resource, at most `page`, were shown. The job waits again.
    Early {
        resource: u32,
        page: u32,
        pointer: u32,
    },
    /// It came by a [`Work::Quit`], which waits again.
    Quit,
    /// There was no job.
    Empty,
}
