//! The file that segments of a clip are written to, in pieces.

ghost use Rattle.std.specs.Prelude.{◌≡◌, ◌≤◌, ◌++◌, ℕ, ℤ, List, [], None, Some, IfOk, OnOk, IsSome, length};
ghost use Rattle.engine.specs.RunAnswers.{answer_of};
ghost use Rattle.mix_model.specs.Output.{padding};
ghost use Rattle.snd_io.specs.Answers.{put_failed};
ghost use Rattle.snd_io.specs.Faults.{CountsFaults};
ghost use Rattle.snd_io.specs.Runs.{RunOfAppends, SetsFile};
ghost use Rattle.wave_write.specs.Header.{data_bytes};
ghost use Rattle.wave_write.specs.Samples.{packed};
ghost use Rattle.cut_render.specs.Cut.{cut_channels, cut_samples, cut_summary, cut_wav, file_bytes, piece, summary_of, width};
ghost use Rattle.cut_render.specs.Reading.{IsReading};
ghost use Rattle.cut_render.specs.Segments.{CanBeCut, last_place, most_frames, total_frames};

use crate::pieces::Pieces;
use crate::segment::{Segment, total_frames};
use crate::wav_file::{WIDTH, channels_of, is_padded};
use clip_decode::Clip;
use engine::RunFault;
use engine::open_file::{append, done, without_memory};
use mix_model::Summary;
use plain_data::OutOfMemory;
use snd_io::Depot;
use std::alloc::Global;
use wave_write::header;

/// The most frames of a piece.
const PIECE_FRAMES: u32 = 512;

/// Sets OUT to the WAVE file of segments of a clip, one after the other: at its rate, in 24 bits, and in one channel where the
/// clip has one. Else it has two, and of more than two channels the first two are heard. Past the end of the clip there are
/// frames of 0. The answer is the summary of the samples that are written.
///
/// No segment begins after frame 140737488355327, and together they have at most 16777216 frames. OUT is created, gets one
/// append for the 44-byte header, one for each piece of at most 512 frames of a segment and one for the pad byte if there is
/// one, and is finished. All memory but that of a piece is taken before OUT is created.
///
/// # Errors
///
/// [`RunFault::DepotFault`] where the store failed, and [`RunFault::OutOfMemory`] where there was no memory. Then the
/// files are as before, or have OUT set to a prefix of its bytes. On every answer no file is open, and every other file
/// is as before.
pub fn render_cut<D: Depot>(
    alloc: Global,
    clip: Clip,
    segments: &[Segment],
    depot: &mut D,
    out: &str,
) -> Result<Summary, RunFault>
    requires segments { CanBeCut segments.now }
    requires closed { D.writing depot.old ≡ None }
    ensures after { SetsFile (answer_of result) out.now (cut_wav clip.bytes segments.now) (D.files depot.old) (D.files depot.new) }
    ensures closed { D.writing depot.new ≡ None }
    ensures cause { CountsFaults (D.faults depot.old) (D.faults depot.new) (put_failed (answer_of result)) }
    ensures summary { IfOk result (λ summary. summary ≡ cut_summary clip.bytes segments.now) }
    ensures size { OnOk result (length (cut_wav clip.bytes segments.now) ≡ file_bytes (cut_channels clip.bytes) (total_frames segments.now)) }
{
    let mut pieces = Pieces::open(alloc, clip)?;
    write_out(alloc, &mut pieces, segments, depot, out)
}

/// Sets OUT to the WAVE file of segments.
fn write_out<D: Depot>(
    alloc: Global,
    pieces: &mut Pieces,
    segments: &[Segment],
    depot: &mut D,
    out: &str,
) -> Result<Summary, RunFault>
    requires reading { IsReading pieces.old.reader }
    requires start { pieces.old.summary ≡ summary_of [] }
    requires segments { CanBeCut segments.now }
    requires closed { D.writing depot.old ≡ None }
    ensures after { SetsFile (answer_of result) out.now (cut_wav pieces.old.reader.clip.bytes segments.now) (D.files depot.old) (D.files depot.new) }
    ensures closed { D.writing depot.new ≡ None }
    ensures cause { CountsFaults (D.faults depot.old) (D.faults depot.new) (put_failed (answer_of result)) }
    ensures summary { IfOk result (λ summary. summary ≡ cut_summary pieces.old.reader.clip.bytes segments.now) }
    ensures size { let bytes = pieces.old.reader.clip.bytes in
        OnOk result (length (cut_wav bytes segments.now) ≡ file_bytes (cut_channels bytes) (total_frames segments.now)) }
{
    done(depot.create(alloc, out))?;
    append_wav(alloc, pieces, segments, depot)?;
    done(depot.finish())?;
    Ok(pieces.summary)
}

/// Appends the header, the segments and the pad byte if there is one to the open file. Where it stops, no file is open.
fn append_wav<D: Depot>(
    alloc: Global,
    pieces: &mut Pieces,
    segments: &[Segment],
    depot: &mut D,
) -> Result<(), RunFault>
    requires reading { IsReading pieces.old.reader }
    requires start { pieces.old.summary ≡ summary_of [] }
    requires segments { CanBeCut segments.now }
    requires writing { IsSome (D.writing depot.old) }
    ensures after { (name : List ℕ) → D.writing depot.old ≡ Some name →
        RunOfAppends (answer_of result) name (cut_wav pieces.old.reader.clip.bytes segments.now)
        (D.files depot.old) (D.files depot.new) (D.writing depot.new) }
    ensures cause { CountsFaults (D.faults depot.old) (D.faults depot.new) (put_failed (answer_of result)) }
    ensures summary { OnOk result (pieces.new.summary ≡ cut_summary pieces.old.reader.clip.bytes segments.now) }
    ensures size { let bytes = pieces.old.reader.clip.bytes in
        OnOk result (length (cut_wav bytes segments.now) ≡ file_bytes (cut_channels bytes) (total_frames segments.now)) }
{
    let wave = pieces.reader.clip.wave();
    let channels = channels_of(wave);
    let count = total_frames(segments);
    append(alloc, depot, &header(channels, wave.rate, WIDTH, count))?;
    append_segments(alloc, pieces, segments, depot)?;
    append_padding(alloc, channels, count, depot)
}

/// Appends all segments.
fn append_segments<D: Depot>(
    alloc: Global,
    pieces: &mut Pieces,
    segments: &[Segment],
    depot: &mut D,
) -> Result<(), RunFault>
    requires reading { IsReading pieces.old.reader }
    requires start { pieces.old.summary ≡ summary_of [] }
    requires segments { CanBeCut segments.now }
    requires writing { IsSome (D.writing depot.old) }
    ensures after { (name : List ℕ) → D.writing depot.old ≡ Some name →
        RunOfAppends (answer_of result) name (packed width (cut_samples pieces.old.reader.clip.bytes segments.now))
        (D.files depot.old) (D.files depot.new) (D.writing depot.new) }
    ensures cause { CountsFaults (D.faults depot.old) (D.faults depot.new) (put_failed (answer_of result)) }
    ensures summary { OnOk result (pieces.new.summary ≡ cut_summary pieces.old.reader.clip.bytes segments.now) }
{
    for segment in segments {
        append_segment(alloc, pieces, *segment, depot)?;
    }
    Ok(())
}

/// Appends a segment, piece by piece.
fn append_segment<D: Depot>(
    alloc: Global,
    pieces: &mut Pieces,
    segment: Segment,
    depot: &mut D,
) -> Result<(), RunFault>
    requires reading { IsReading pieces.old.reader }
    requires place { segment.place ≤ last_place }
    requires writing { IsSome (D.writing depot.old) }
    ensures after { (name : List ℕ) → D.writing depot.old ≡ Some name →
        RunOfAppends (answer_of result) name (packed width (piece pieces.old.reader.clip.bytes segment.place segment.count))
        (D.files depot.old) (D.files depot.new) (D.writing depot.new) }
    ensures cause { CountsFaults (D.faults depot.old) (D.faults depot.new) (put_failed (answer_of result)) }
    ensures reading { OnOk result (IsReading pieces.new.reader) }
    ensures clip { OnOk result (pieces.new.reader.clip ≡ pieces.old.reader.clip) }
    ensures summary { (before : List ℤ) → pieces.old.summary ≡ summary_of before
        → OnOk result (pieces.new.summary ≡ summary_of (before ++ piece pieces.old.reader.clip.bytes segment.place segment.count)) }
{
    let mut written = 0;
    while written < segment.count {
        let count = PIECE_FRAMES.min(segment.count - written);
        match pieces.read(alloc, segment.place + u64::from(written), count) {
            Ok(()) => (),
            Err(OutOfMemory) => return Err(without_memory(depot)),
        }
        append(alloc, depot, pieces.bytes.as_slice())?;
        written += count;
    }
    Ok(())
}

/// Appends what follows the frames: a zero byte where the data have an odd size (RIFF WAVE), and nothing, with
/// no call of the store, where they have an even one.
fn append_padding<D: Depot>(
    alloc: Global,
    channels: u8,
    count: u32,
    depot: &mut D,
) -> Result<(), RunFault>
    requires channels { channels ≤ 2 }
    requires count { count ≤ most_frames }
    requires writing { IsSome (D.writing depot.old) }
    ensures after { (name : List ℕ) → D.writing depot.old ≡ Some name →
        RunOfAppends (answer_of result) name (padding (data_bytes channels width count))
        (D.files depot.old) (D.files depot.new) (D.writing depot.new) }
    ensures cause { CountsFaults (D.faults depot.old) (D.faults depot.new) (put_failed (answer_of result)) }
{
    if is_padded(channels, count) {
        append(alloc, depot, &[0])
    } else {
        Ok(())
    }
}
