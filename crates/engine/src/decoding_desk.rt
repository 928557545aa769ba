//! The desk at which the renderer of a scene posts the jobs of its pages, and runs some of them.

ghost use Rattle.resource_mgr.specs.declared.tape.Tape.{Tape};

use crate::page_source::PageSource;
use crate::renderer::Renderer;
use resource_mgr::{Desk, Library, Poster, Worked};
use snd_io::Gate;
use std::sync::Wait;
use std::thread;

/// A desk, with what jobs are posted with.
#[derive(Drop)]
pub(crate) struct PostingDesk {
    pub(crate) poster: Poster,
    pub(crate) desk: Desk,
}

impl PostingDesk {
    ghost use Rattle.resource_mgr.specs.Desks.{IsDeskOf};

    fn post<R: Wait>(&mut self, rt: &R, library: &Library)
        requires { IsDeskOf library.now self.old.desk }
        ensures { IsDeskOf library.now self.new.desk }
    {
        library.post_some(rt, &mut self.poster, &mut self.desk);
    }
}

/// A desk of a library while its pages are rendered. Workers run jobs at other desks.
#[derive(Drop)]
pub(crate) struct DecodingDesk<'a, R, G> {
    pub(crate) rt: &'a R,
    pub(crate) library: &'a Library,
    pub(crate) own: &'a mut PostingDesk,
    pub(crate) gate: &'a G,
}

impl<R: Wait, G: Gate> DecodingDesk<'_, R, G> {
    ghost use Rattle.engine.specs.DecodingDesks.{IsOwnDesk};

    /// Posts the jobs of the pages that weren't posted yet, as far as there is room.
    pub(crate) fn post(&mut self)
        requires { IsOwnDesk self.old }
        ensures { IsOwnDesk self.new }
    {
        self.own.post(self.rt, self.library);
    }

    /// Has all workers stop once they have run the jobs that were posted. Where there is no room for the job that stops
    /// them, it runs others.
    pub(crate) fn stop(&mut self)
        requires { IsOwnDesk self.old }
        ensures { IsOwnDesk self.new }
    {
        for _ in self.rt.forever() {
            if self.library.post_quit(self.rt, &mut self.own.desk).is_ok() {
                break;
            }
            self.work_one();
        }
    }

    /// Runs a job, if there is one whose turn has come.
    fn work_one(&mut self)
        requires { IsOwnDesk self.old }
        ensures { IsOwnDesk self.new }
    {
        match self
            .library
            .work_one(self.rt, &mut self.own.desk, self.gate)
        {
            Worked::Ran { .. } => {}
            Worked::Early { .. } | Worked::Quit | Worked::Empty => thread::yield_now(),
        }
    }
}

impl<R: Wait, G: Gate> PageSource for DecodingDesk<'_, R, G> {
    ghost use Rattle.engine.specs.DecodingDesks.{IsOwnDesk};

    ghost shows = { λ desk _. IsOwnDesk desk };

    fn make_ready(&mut self, renderer: &mut Renderer) {
        for _ in self.rt.forever() {
            if renderer.ready().is_ok() {
                break;
            }
            self.post();
            self.work_one();
        }
    }
}
