//! Reels, and how they are opened.
ghost use Rattle.std.specs.Prelude.{◌≡◌, ◌+◌, ◌≤◌, [], length, All, vec_len, IfOk};
ghost use Rattle.std.specs.Arc.{arc_value};
ghost use Rattle.clip_decode.specs.Limits.{most_sound_bytes};
ghost use Rattle.exec_reel.specs.ClipPages.{page_total};
ghost use Rattle.exec_reel.specs.Seats.{IsAt};

use crate::drawer::Drawer;
use crate::opening::open_table;
use crate::reader::Reader;
use crate::reel_table::ReelTable;
use crate::ticket::{Ended, Ran, Ticket};
use clip_decode::Clip;
use plain_data::OutOfMemory;
use std::alloc::Global;
use std::sync::Arc;

/// The pages of one clip, which threads decode, each page once and in the order of their numbers.
///
/// Each ticket and the reader own the reel's shared part too, so that they work without the reel.
#[derive(Drop)]
pub struct Reel {
    shared: Arc<ReelTable, Global>,
}

/// A reel that was opened, with what its tickets are drawn with and what its pages are read with.
#[derive(Drop)]
pub struct Opened {
    pub reel: Reel,
    pub drawer: Drawer,
    pub reader: Reader,
}

impl Reel {
    ghost use Rattle.exec_reel.specs.Reels.{clip_of_reader, shown_of, taken_of, notes_of_reader, IsOpened, IsDrawerOf, Draws};
    ghost use Rattle.exec_reel.specs.Tickets.{IsOutcome};

    /// A reel of a clip of at most 67108864 bytes, with the memory of all its pages. None is decoded yet.
    ///
    /// # Errors
    ///
    /// [`OutOfMemory`] where there is no memory.
    pub fn open(alloc: Global, clip: Clip) -> Result<Opened, OutOfMemory>
        requires { length clip.bytes ≤ most_sound_bytes }
        ensures { IfOk result (λ opened. IsOpened clip opened) }
    {
        let (shared, mut seat) = open_table(alloc, clip, false)?;
        let reader_seat = shared.split_reader(&mut seat);
        let reader = Reader::new(alloc, Arc::try_clone(&shared)?, reader_seat, 0)?;
        let owners = owners(alloc, &shared, shared.pages)?;
        let drawer = Drawer {
            shared: Arc::try_clone(&shared)?,
            seat,
            owners,
        };
        Ok(Opened {
            reel: Reel { shared },
            drawer,
            reader,
        })
    }

    /// Decodes all pages of a clip of at most 67108864 bytes on the calling thread, and gives a reader
    /// that was shown all of them.
    ///
    /// # Errors
    ///
    /// [`OutOfMemory`] where there is no memory.
    pub fn whole(alloc: Global, clip: Clip) -> Result<Reader, OutOfMemory>
        requires { length clip.bytes ≤ most_sound_bytes }
        ensures clip { IfOk result (λ reader. clip_of_reader reader ≡ clip) }
        ensures shown { IfOk result (λ reader. shown_of reader ≡ page_total clip) }
        ensures new { IfOk result (λ reader. (taken_of reader ≡ []) × (notes_of_reader reader ≡ [])) }
    {
        let (shared, mut seat) = open_table(alloc, clip, true)?;
        let reader_seat = shared.split_reader(&mut seat);
        let shown = shared.pages;
        Reader::new(alloc, shared, reader_seat, shown)
    }

    /// Gives the ticket of the next page, from page 0 on: the execution counter, which rises by 1.
    /// `None` comes exactly where as many were drawn as the clip has pages. The drawer is the one of
    /// this reel.
    ///
    /// It takes no memory, and waits for nobody.
    pub fn draw(&self, drawer: &mut Drawer) -> Option<Ticket>
        requires { IsDrawerOf self.now drawer.old }
        ensures drawer { IsDrawerOf self.now drawer.new }
        ensures drawn { Draws self.now drawer.old drawer.new result }
    {
        let Some(shared) = drawer.owners.pop() else {
            return None;
        };
        let number = self.shared.draw_number(&mut drawer.seat);
        let seat = self.shared.split_ticket(&mut drawer.seat);
        Some(Ticket {
            shared,
            seat,
            number: number as u32,
        })
    }

    /// Runs the job of a ticket: where it is the turn of its page, the page is decoded and shown. Each
    /// page has its turn once those before it are shown.
    ///
    /// `Early` comes only where the pointer that this call loaded is less than the ticket's number.
    /// Nothing has changed then, and the same ticket comes back. `Done` comes only where this call found
    /// the pointer at the ticket's number, put that page home and then stored the number plus 1.
    ///
    /// It takes no memory, and waits for nobody.
    pub fn run(ticket: Ticket) -> Ran
        ensures { IsOutcome ticket result }
    {
        let Ticket {
            shared,
            mut seat,
            number,
        } = ticket;
        let pointer = shared.load_pointer(&mut seat);
        if pointer != u64::from(number) {
            return Ran::Early {
                ticket: Ticket {
                    shared,
                    seat,
                    number,
                },
                pointer: pointer as u32,
            };
        }
        shared.decode_page(&mut seat, number);
        shared.store_pointer(&mut seat, pointer + 1);
        Ran::Done {
            ended: Ended { seat },
        }
    }
}

/// So many owners of the shared part.
fn owners(
    alloc: Global,
    shared: &Arc<ReelTable, Global>,
    count: u32,
) -> Result<Vec<Arc<ReelTable, Global>>, OutOfMemory>
    ensures count { IfOk result (λ owners. vec_len owners ≡ count) }
    ensures one { IfOk result (λ owners. All (λ a. arc_value a ≡ arc_value shared.now) owners.items) }
{
    let mut owners = Vec::with_capacity(alloc, count as usize)?;
    for _ in 0..count {
        owners.push(Arc::try_clone(shared)?)?;
    }
    Ok(owners)
}
