//! The effects on a file, block by block.

ghost use Rattle.std.specs.Prelude.{◌≡◌, ◌+◌, ◌^◌, ◌<◌, ◌≤◌, ◌++◌, All, IfOk, OnOk, IsTrue, length};
ghost use Rattle.fx_nodes.specs.Effects.{is_in_range, most_effects};
ghost use Rattle.fx_nodes.specs.Stages.{effects_in};
ghost use Rattle.wave_write.specs.Samples.{packed};
ghost use Rattle.fx_render.specs.Blocks.{IsRendering};
ghost use Rattle.fx_render.specs.Effected.{effected, width};

use crate::stereo_reader::StereoReader;
use crate::wav_file::WIDTH;
use clip_decode::Clip;
use fx_nodes::{Chain, Effect};
use mix_model::Summary;
use plain_data::OutOfMemory;
use std::alloc::Global;
use wave_write::pack;

/// The effects on the frames of a clip, in blocks, with the samples and the bytes of the current block.
#[derive(Drop)]
pub(crate) struct Blocks {
    /// The frames of the clip, before the first one behind the block.
    pub(crate) reader: StereoReader,
    pub(crate) chain: Chain,
    /// The samples of the block, interleaved.
    samples: Vec<i32>,
    /// The same, packed.
    pub(crate) bytes: Vec<u8>,
    /// The summary of all blocks so far.
    pub(crate) summary: Summary,
}

impl Blocks {
    /// The effects on a clip, at most 16 and in range, before the first block. It takes the memory of all delays and of
    /// a page.
    pub(crate) fn open(alloc: Global, clip: Clip, effects: &[Effect]) -> Result<Blocks, OutOfMemory>
        requires count { length effects.now ≤ most_effects }
        requires numbers { All (λ effect. IsTrue (is_in_range effect)) effects.now }
        ensures rendering { IfOk result IsRendering }
        ensures clip { IfOk result (λ blocks. blocks.reader.clip ≡ clip) }
        ensures effects { IfOk result (λ blocks. effects_in blocks.chain ≡ effects.now) }
        ensures start { IfOk result (λ blocks. blocks.reader.next ≡ 0) }
    {
        let reader = StereoReader::open(alloc, clip)?;
        let chain = Chain::open(alloc, effects)?;
        Ok(Blocks {
            reader,
            chain,
            samples: Vec::new(alloc),
            bytes: Vec::new(alloc),
            summary: Summary::empty(),
        })
    }

    /// Renders the next block, of `count` frames.
    pub(crate) fn next(&mut self, alloc: Global, count: u32) -> Result<(), OutOfMemory>
        requires rendering { IsRendering self.old }
        requires clock { self.old.reader.next + count < 2 ^ 32 }
        ensures rendering { OnOk result (IsRendering self.new) }
        ensures clip { OnOk result (self.new.reader.clip ≡ self.old.reader.clip) }
        ensures effects { OnOk result (effects_in self.new.chain ≡ effects_in self.old.chain) }
        ensures next { OnOk result (self.new.reader.next ≡ self.old.reader.next + count) }
        ensures bytes { OnOk result (packed width (effected self.old.reader.clip.bytes (effects_in self.old.chain) self.new.reader.next)
            ≡ packed width (effected self.old.reader.clip.bytes (effects_in self.old.chain) self.old.reader.next) ++ self.new.bytes.items) }
    {
        self.samples.clear();
        self.bytes.clear();
        self.reader.read(count, &mut self.samples)?;
        self.chain.block(self.samples.as_mut_slice());
        pack(alloc, self.samples.as_slice(), WIDTH, &mut self.bytes)?;
        self.summary = self
            .summary
            .extended(self.samples.as_slice(), self.bytes.as_slice());
        Ok(())
    }
}
