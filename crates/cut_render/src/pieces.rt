//! The segments of a file, piece by piece.

ghost use Rattle.std.specs.Prelude.{◌≡◌, ◌+◌, ◌^◌, ◌<◌, ◌++◌, ℤ, List, IfOk, OnOk, []};
ghost use Rattle.wave_write.specs.Samples.{packed};
ghost use Rattle.cut_render.specs.Cut.{piece, summary_of, width};
ghost use Rattle.cut_render.specs.Reading.{IsReading};

use crate::frame_reader::FrameReader;
use crate::wav_file::WIDTH;
use clip_decode::Clip;
use mix_model::Summary;
use plain_data::OutOfMemory;
use std::alloc::Global;
use wave_write::pack;

/// The pieces of a clip, with the samples and the bytes of the one that was read last.
#[derive(Drop)]
pub struct Pieces {
    pub reader: FrameReader,
    /// The samples of the piece, interleaved.
    samples: Vec<i32>,
    /// The same, packed.
    pub bytes: Vec<u8>,
    /// The summary of all pieces so far.
    pub summary: Summary,
}

impl Pieces {
    /// The pieces of a clip, before the first one. It takes the memory of a page.
    pub fn open(alloc: Global, clip: Clip) -> Result<Pieces, OutOfMemory>
        ensures reading { IfOk result (λ pieces. IsReading pieces.reader) }
        ensures clip { IfOk result (λ pieces. pieces.reader.clip ≡ clip) }
        ensures summary { IfOk result (λ pieces. pieces.summary ≡ summary_of []) }
    {
        let reader = FrameReader::open(alloc, clip)?;
        Ok(Pieces {
            reader,
            samples: Vec::new(alloc),
            bytes: Vec::new(alloc),
            summary: Summary::empty(),
        })
    }

    /// Reads the piece of `count` frames from frame `place` on.
    pub fn read(&mut self, alloc: Global, place: u64, count: u32) -> Result<(), OutOfMemory>
        requires reading { IsReading self.old.reader }
        requires place { place + count < 2 ^ 64 }
        ensures reading { OnOk result (IsReading self.new.reader) }
        ensures clip { self.new.reader.clip ≡ self.old.reader.clip }
        ensures bytes { OnOk result (self.new.bytes.items ≡ packed width (piece self.old.reader.clip.bytes place count)) }
        ensures summary { (before : List ℤ) → self.old.summary ≡ summary_of before
            → OnOk result (self.new.summary ≡ summary_of (before ++ piece self.old.reader.clip.bytes place count)) }
    {
        self.samples.clear();
        self.bytes.clear();
        self.reader.read(place, count, &mut self.samples)?;
        pack(alloc, self.samples.as_slice(), WIDTH, &mut self.bytes)?;
        self.summary = self
            .summary
            .extended(self.samples.as_slice(), self.bytes.as_slice());
        Ok(())
    }
}
