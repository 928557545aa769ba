//! A table is made for a clip, with the memory of all its pages.
ghost use Rattle.std.specs.Prelude.{◌≡◌, ◌+◌, ◌^◌, ◌<◌, ◌≤◌, [], length, true, cond, IfOk};
ghost use Rattle.std.specs.Arc.{arc_value};
ghost use Rattle.clip_decode.specs.Cursors.{StandsAt};
ghost use Rattle.clip_decode.specs.Limits.{most_sound_bytes};
ghost use Rattle.exec_reel.specs.Cells.{AreCells, ComesAfter, LiesAt};
ghost use Rattle.exec_reel.specs.ClipPages.{page_total, page_of, empty_page};
ghost use Rattle.exec_reel.specs.Seats.{IsAt};
ghost use Rattle.exec_reel.specs.Steps.{first_view};

use crate::cell::Cell;
use crate::reel_table::{ReelSeat, ReelTable};
use crate::view::Opening;
use clip_decode::{Clip, Cursor, Page, fill, pages};
use plain_data::OutOfMemory;
use std::alloc::Global;
use std::sync::Arc;

/// A table for a clip, with its first seat. Either all pages are filled, or none is.
pub(crate) fn open_table(
    alloc: Global,
    clip: Clip,
    is_whole: bool,
) -> Result<(Arc<ReelTable, Global>, ReelSeat), OutOfMemory>
    requires { length clip.bytes ≤ most_sound_bytes }
    ensures table { IfOk result (λ r. (arc_value r.0).opening ≡ record { clip = clip; filled = cond is_whole (page_total clip) 0 }) }
    ensures seat { IfOk result (λ r. IsAt (arc_value r.0) r.1
        × (r.1.me ≡ (first_view record { clip = clip; filled = cond is_whole (page_total clip) 0 }, []))) }
{
    let count = page_number(&clip);
    let filled = if is_whole { count } else { 0 };
    let cells = cells(alloc, &clip, count, filled)?;
    let (table, seat) = ReelTable::new(alloc, Opening { clip, filled }, count, cells)?;
    let shared = Arc::new(alloc, table)?;
    Ok((shared, seat))
}

/// The pages of a clip, of which the first are filled, and behind them the cursor.
fn cells(alloc: Global, clip: &Clip, count: u32, filled: u32) -> Result<Vec<Cell>, OutOfMemory>
    requires count { count ≡ page_total clip.now }
    requires filled { filled ≤ count }
    ensures { IfOk result (λ cells. AreCells clip.now filled cells.items) }
{
    let mut cells = Vec::with_capacity(alloc, count as usize + 1)?;
    let mut cursor = Cursor::start();
    for k in 0..count {
        let page = page(alloc, clip, &mut cursor, k, filled)?;
        cells.push(Cell::Page(page))?;
    }
    cells.push(Cell::Decoder(cursor))?;
    Ok(cells)
}

/// Page `k`, filled where it is below `filled`.
fn page(
    alloc: Global,
    clip: &Clip,
    cursor: &mut Cursor,
    k: u32,
    filled: u32,
) -> Result<Page, OutOfMemory>
    requires there { k < page_total clip.now }
    requires comes { ComesAfter clip.now filled k cursor.old }
    ensures comes { IfOk result (λ _. ComesAfter clip.now filled (k + 1) cursor.new) }
    ensures page { IfOk result (λ page. LiesAt clip.now filled k page) }
{
    let mut page = Page::new(alloc, clip.wave().channels)?;
    if k < filled {
        fill(cursor, clip, &mut page);
    }
    Ok(page)
}

/// The number of pages of a clip of at most 64 MiB.
fn page_number(clip: &Clip) -> u32
    requires { length clip.now.bytes ≤ most_sound_bytes }
    ensures { result ≡ page_total clip.now }
{
    pages(clip.wave()) as u32
}
