//! The reels of clips.

ghost use Rattle.std.specs.Prelude.{◌≡◌, ◌≤◌, All, length, map, IfOk};
ghost use Rattle.clip_decode.specs.ClipData.{ClipData};
ghost use Rattle.clip_decode.specs.Limits.{most_sound_bytes};
ghost use Rattle.resource_mgr.specs.PageOrder.{IsDrawnTo, pages_of_source, pages_of_tape};
ghost use Rattle.resource_mgr.specs.Tapes.{clip_of};

use crate::source::Source;
use crate::tape::Tape;
use clip_decode::Clip;
use exec_reel::{Opened, Reel};
use plain_data::OutOfMemory;
use std::alloc::Global;

/// Opens a reel of each clip, with the memory of all pages. Gives what their tickets are drawn with, of which none is drawn
/// yet, and their tapes, both in the order of the clips.
pub(crate) fn open_sources(
    alloc: Global,
    clips: Vec<Clip>,
) -> Result<(Vec<Source>, Vec<Tape>), OutOfMemory>
    requires { All (λ (clip : ClipData). length clip.bytes ≤ most_sound_bytes) clips.items }
    ensures clips { IfOk result (λ opened. map clip_of opened.1.items ≡ clips.items) }
    ensures pages { IfOk result (λ opened. map pages_of_source opened.0.items ≡ map pages_of_tape opened.1.items) }
    ensures drawn { IfOk result (λ opened. All (IsDrawnTo 0) opened.0.items) }
{
    let mut sources = Vec::new(alloc);
    let mut tapes = Vec::new(alloc);
    for clip in clips {
        let (source, tape) = open_reel(alloc, clip)?;
        sources.push(source)?;
        tapes.push(tape)?;
    }
    Ok((sources, tapes))
}

/// Opens a reel of a clip.
fn open_reel(alloc: Global, clip: Clip) -> Result<(Source, Tape), OutOfMemory>
    requires { length clip.bytes ≤ most_sound_bytes }
    ensures clip { IfOk result (λ opened. clip_of opened.1 ≡ clip) }
    ensures pages { IfOk result (λ opened. pages_of_source opened.0 ≡ pages_of_tape opened.1) }
    ensures drawn { IfOk result (λ opened. IsDrawnTo 0 opened.0) }
{
    let Opened {
        reel,
        drawer,
        reader,
    } = Reel::open(alloc, clip)?;
    Ok((Source { reel, drawer }, Tape::of(reader)))
}
