//! Tickets, as the tests draw and run them.
ghost use Rattle.std.specs.Prelude.{◌≡◌, IfOk};
ghost use Rattle.exec_reel.specs.ClipPages.{page_total};
ghost use Rattle.exec_reel.specs.Reels.{clip_of_reader, IsDrawerOf};

use clip_decode::{Clip, pages};
use exec_reel::{Drawer, Opened, Ran, Reader, Reel, Ticket};
use plain_data::OutOfMemory;
use std::alloc::Global;
use std::process::Abort;
use std::test::Fail;

/// The next tickets, so many of them, or fewer where no more are left.
fn drawn(
    alloc: Global,
    reel: &Reel,
    drawer: &mut Drawer,
    most: u32,
) -> Result<Vec<Ticket>, OutOfMemory>
    requires { IsDrawerOf reel.now drawer.old }
{
    let mut tickets = Vec::new(alloc);
    for _ in 0..most {
        let Some(ticket) = reel.draw(drawer) else {
            break;
        };
        tickets.push(ticket)?;
    }
    Ok(tickets)
}

/// Opens a reel of a clip of so many pages. Gives all its tickets, in the order in which they were drawn, and
/// its reader.
pub(crate) fn opened(
    rt: &impl Abort,
    alloc: Global,
    clip: Clip,
    count: u32,
) -> Result<(Vec<Ticket>, Reader), Fail>
    ensures { IfOk result (λ r. page_total (clip_of_reader r.1) ≡ count) }
{
    assert!(rt; clip.bytes().len() <= 67_108_864);
    assert!(rt; pages(clip.wave()) == u64::from(count));
    let Opened {
        reel,
        mut drawer,
        reader,
    } = Reel::open(alloc, clip)?;
    let tickets = drawn(alloc, &reel, &mut drawer, 16_385)?;
    Ok((tickets, reader))
}

/// The numbers of tickets, in their order.
pub(crate) fn numbers(alloc: Global, tickets: &[Ticket]) -> Result<Vec<u32>, OutOfMemory> {
    let mut numbers = Vec::new(alloc);
    for ticket in tickets {
        numbers.push(ticket.number())?;
    }
    Ok(numbers)
}

/// Runs the ticket of a number. It comes back where it is early: the answer is then the pointer, and else
/// `None`.
pub(crate) fn run_one(tickets: &mut Vec<Ticket>, number: u32) -> Result<Option<u32>, Fail> {
    let place = tickets
        .iter()
        .position(|ticket| ticket.number() == number)
        .ok_or("no such ticket")?;
    match Reel::run(tickets.swap_remove(place)) {
        Ran::Early { ticket, pointer } => {
            tickets.push(ticket)?;
            Ok(Some(pointer))
        }
        Ran::Done { ended: _ } => Ok(None),
    }
}
