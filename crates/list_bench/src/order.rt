//! What the command line asks for.
ghost use Rattle.std.specs.Prelude.{◌≤◌, ◌<◌};
ghost use Rattle.std.specs.Thread.{IsSync};

use crate::beside::visit_beside_edits;
use crate::lists::{edit_rounds, filled, visit_rounds};
use plain_data::OutOfMemory;
use std::alloc::Global;
use std::sync::Wait;
use std::thread::Threads;

/// What is done in each round.
#[derive(Clone, Copy)]
pub enum Work {
    Visits,
    Edits,
    Beside,
}

/// So many rounds, on a list to which so many buses are attached.
#[derive(Clone, Copy)]
pub struct Order {
    pub work: Work,
    pub buses: u32,
    pub rounds: u32,
}

impl Order {
    /// The order that three words give. `None` for any other words.
    pub fn read(words: &[String]) -> Option<Order> {
        let [work, buses, rounds] = words else {
            return None;
        };
        let work = match work.as_str() {
            "visits" => Work::Visits,
            "edits" => Work::Edits,
            "beside" => Work::Beside,
            _ => return None,
        };
        Some(Order {
            work,
            buses: buses.parse::<u32>().ok()?,
            rounds: rounds.parse::<u32>().ok()?,
        })
    }

    /// Does the work, and answers a number made of the feeds that came. 0 for a number of buses that is
    /// out of range.
    pub fn run<R: Threads + Wait + Sync>(self, rt: &R, alloc: Global) -> Result<u32, OutOfMemory>
        requires { IsSync R.row }
    {
        let spare = match self.work {
            Work::Visits => 0,
            Work::Edits | Work::Beside => 1,
        };
        if self.buses < 1 || 256 < self.buses || 256 < self.buses + spare {
            return Ok(0);
        }
        let both = filled(alloc, self.buses, self.buses + spare)?;
        let (mut editor, mut pass) = both.split();
        Ok(match self.work {
            Work::Visits => visit_rounds(&mut pass, self.rounds),
            Work::Edits => edit_rounds(rt, &mut editor, self.buses, self.rounds),
            Work::Beside => visit_beside_edits(rt, editor, pass, self.buses, self.rounds),
        })
    }
}
