//! The first frames of a clip, kept as they are needed.

ghost use Rattle.std.specs.Prelude.{◌≡◌, ◌≤◌, ◌<◌, ◌+◌, ◌-◌, ◌*◌, ◌/◌, ◌%◌, ℕ, Option, List, None, Some, length, slice_index_or, IfOk, OnOk, IfErr};
ghost use Rattle.clip_decode.specs.Pages.{PageData};
ghost use Rattle.mix_fixed.specs.Kernels.{at, AreSamples};
ghost use Rattle.scene_clips.specs.ClipFrames.{clip_length, clip_sample};
ghost use Rattle.scene_clips.specs.FilePages.{AreThere, IsMadeOf, pages_to};
ghost use Rattle.resource_mgr.specs.Tapes.{HasPages, IsLater, WasNotShown, bytes_of};
ghost use Rattle.engine.specs.Cached.{IsCached, most_cached_frames};

use crate::need::Missing;
use clip_decode::Page;
use plain_data::OutOfMemory;
use resource_mgr::Tape;
use scene_clips::PagedClip;
use std::alloc::Global;

/// The first frames of a clip, at the scene's rate and in its channels.
#[derive(Drop)]
pub(crate) struct KeptFrames {
    /// How many frames may be kept.
    pub(crate) most: usize,
    /// How many are kept so far.
    pub(crate) frames: usize,
    /// Their samples, interleaved, and room for those of the others.
    pub(crate) cells: Vec<i32>,
}

impl KeptFrames {
    /// None yet, with room for `most` frames of a clip.
    pub(crate) fn new(
        alloc: Global,
        clip: &PagedClip,
        most: usize,
    ) -> Result<KeptFrames, OutOfMemory>
        requires there { most ≤ clip_length clip.now.bytes clip.now.rate }
        requires few { most ≤ most_cached_frames }
        ensures { IfOk result (λ kept. IsCached clip.now kept) }
    {
        let places = most * usize::from(clip.channels());
        Ok(KeptFrames {
            most,
            frames: 0,
            cells: vec![in alloc; 0i32; places]?,
        })
    }

    /// Keeps the frames of the clip before frame `end`, which may be kept.
    pub(crate) fn keep_to(
        &mut self,
        clip: &PagedClip,
        tape: &mut Tape,
        end: usize,
    ) -> Result<(), Missing>
        requires kept { IsCached clip.now self.old }
        requires tape { bytes_of tape.old ≡ clip.now.bytes }
        requires room { end ≤ self.old.most }
        ensures kept { IsCached clip.now self.new }
        ensures enough { OnOk result (end ≤ self.new.frames) }
        ensures later { OnOk result (IsLater tape.old tape.new) }
        ensures missing { IfErr result (λ m. WasNotShown tape.old tape.new m.page m.shown) }
        ensures some { IfErr result (λ _. 0 < end) }
        ensures made { IfErr result (λ m. IsMadeOf clip.now.bytes clip.now.rate (end - 1) m.page) }
    {
        let first = self.frames;
        if end <= first {
            return Ok(());
        }
        fetch(clip, tape, end as u64 - 1)?;
        let cells = self.cells.as_mut_slice();
        write_frames(clip, tape.given(), first, end - first, cells);
        self.frames = end;
        Ok(())
    }

    /// Copies `count` of the frames that are kept, from frame `from` on.
    pub(crate) fn copy(&self, from: usize, count: usize, channels: usize, out: &mut [i32])
        requires kept { from + count ≤ self.now.frames }
        requires long { self.now.frames * channels ≤ length self.now.cells.items }
        requires room { length out.old ≡ count * channels }
        ensures values { (j : ℕ) → j < count * channels → at out.new j ≡ at self.now.cells.items (from * channels + j) }
    {
        let first = from * channels;
        out.copy_from_slice(&self.cells.as_slice()[first..first + count * channels]);
    }
}

/// Asks the tape of a clip for the pages that frame `n` and those before it are made of.
pub(crate) fn fetch(clip: &PagedClip, tape: &mut Tape, n: u64) -> Result<(), Missing>
    requires tape { bytes_of tape.old ≡ clip.now.bytes }
    requires below { n < clip_length clip.now.bytes clip.now.rate }
    ensures later { OnOk result (IsLater tape.old tape.new) }
    ensures there { OnOk result ((m : ℕ) → m ≤ n → HasPages (pages_to clip.now.bytes clip.now.rate m) tape.new) }
    ensures missing { IfErr result (λ m. WasNotShown tape.old tape.new m.page m.shown) }
    ensures made { IfErr result (λ m. IsMadeOf clip.now.bytes clip.now.rate n m.page) }
{
    let count = clip.pages_to(n);
    match tape.ask_first(count) {
        Ok(()) => Ok(()),
        Err(early) => Err(Missing {
            page: count - 1,
            shown: early.shown,
        }),
    }
}

/// Writes `count` frames of a clip to their places, from frame `first` on.
fn write_frames(
    clip: &PagedClip,
    pages: &[Option<Page>],
    first: usize,
    count: usize,
    cells: &mut [i32],
)
    requires frames { first + count ≤ clip_length clip.now.bytes clip.now.rate }
    requires there { (n : ℕ) → n < first + count → AreThere clip.now.bytes pages.now (pages_to clip.now.bytes clip.now.rate n) }
    requires room { (first + count) * clip.now.channels ≤ length cells.old }
    requires range { AreSamples cells.old }
    ensures here { (j : ℕ) → j < count * clip.now.channels → at cells.new (first * clip.now.channels + j)
        ≡ clip_sample clip.now.bytes clip.now.rate clip.now.channels (first + j / clip.now.channels) (j % clip.now.channels) }
    ensures before { (j : ℕ) → j < first * clip.now.channels → at cells.new j ≡ at cells.old j }
    ensures range { AreSamples cells.new }
{
    let channels = usize::from(clip.channels());
    let part = &mut cells[first * channels..(first + count) * channels];
    clip.run(pages, first as u64, count, part);
}
