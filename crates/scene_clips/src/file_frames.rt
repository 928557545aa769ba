//! The frames of a file, as its pages have them.

ghost use Rattle.std.specs.Prelude.{◌≡◌, ◌+◌, ◌/◌, ◌%◌, ◌^◌, ◌<◌, ◌≤◌, ℕ, pos, length, slice_index_or, All, take, drop};
ghost use Rattle.clip_decode.specs.Frames.{frames};
ghost use Rattle.mix_fixed.specs.Sound.{Is24};
ghost use Rattle.wave_read.specs.Wave.{wave};
ghost use Rattle.wave_read.specs.Laws.{IsWaveOf};
ghost use Rattle.scene_clips.specs.FilePages.{AreThere, file_page, frame_or_silence};

use crate::file_content::FileContent;
use clip_decode::{Clip, FRAMES_PER_PAGE, Page};
use std::marker::Model;
use wave_read::Wave;

/// A frame of 0 in the most channels that a file has.
const SILENCE: &[i32] = &[0, 0, 0, 0, 0, 0, 0, 0];

/// Where the frames of a file stand in its pages. Neither its bytes nor its pages are kept.
///
/// Contracts see it as the clip: the `bytes` of the file and its `wave`.
#[derive(Drop)]
pub struct FileFrames {
    content: FileContent,
    wave: Wave,
}

impl Model for FileFrames {
    ghost use Rattle.clip_decode.specs.ClipData.{ClipData, IsClip};

    ghost Value = { ClipData };

    ghost view = { λ f. record { bytes = f.content.bytes; wave = f.wave } };

    ghost invariant = { λ f. IsClip f.content.bytes f.wave };
}

/// The frame of `count` samples from place `place` on.
fn frame_at(samples: &[i32], place: usize, count: usize) -> &[i32]
    requires { place + count ≤ length samples.now }
    ensures value { result.now ≡ take count (drop place samples.now) }
    ensures len { length result.now ≡ count }
    ensures range { All (λ sample. Is24 sample) samples.now → All (λ sample. Is24 sample) result.now }
{
    &samples[place..place + count]
}

/// The samples from place `place` on.
fn samples_behind(samples: &[i32], place: usize) -> &[i32]
    requires { place ≤ length samples.now }
    ensures value { result.now ≡ drop place samples.now }
    ensures range { All (λ sample. Is24 sample) samples.now → All (λ sample. Is24 sample) result.now }
{
    &samples[place..]
}

impl FileFrames {
    /// The frames of this clip.
    pub(crate) fn of(clip: &Clip) -> FileFrames
        ensures { result ≡ clip.now }
    {
        FileFrames {
            content: FileContent::of(clip.bytes()),
            wave: *clip.wave(),
        }
    }

    /// What the file says of its sound, as the clip answers it.
    pub(crate) fn wave(&self) -> &Wave
        ensures value { result.now ≡ self.now.wave }
        ensures surveyed { wave self.now.bytes ≡ Ok self.now.wave }
        ensures lawful { IsWaveOf self.now.bytes self.now.wave }
    {
        &self.wave
    }

    /// The frame of number `n`, counted from 0 and below the number of the file's frames, and the next one: one sample of
    /// 24 bits a channel of the file, which has 1 to 8. After the last frame of the file stands a frame of 0. Their pages
    /// are there.
    pub(crate) fn frame_and_next<'a>(
        &self,
        pages: &'a [Option<Page>],
        n: u64,
    ) -> (&'a [i32], &'a [i32])
        requires below { n < self.now.wave.frames }
        requires near { n < 2 ^ 62 }
        requires first { AreThere self.now.bytes pages.now (n / 8192 + 1) }
        requires next { n + 1 < self.now.wave.frames → AreThere self.now.bytes pages.now ((n + 1) / 8192 + 1) }
        ensures first { result.0.now ≡ frame_or_silence self.now.wave.channels (frames self.now.bytes) n }
        ensures next { result.1.now ≡ frame_or_silence self.now.wave.channels (frames self.now.bytes) (n + 1) }
        ensures least { (1 ≤ length result.0.now) × (1 ≤ length result.1.now) }
        ensures most { (length result.0.now ≤ 8) × (length result.1.now ≤ 8) }
        ensures range { All (λ sample. Is24 sample) result.0.now × All (λ sample. Is24 sample) result.1.now }
    {
        let count = usize::from(self.wave().channels);
        let samples = self.page(pages, n / FRAMES_PER_PAGE).samples();
        let place = (n % FRAMES_PER_PAGE) as usize * count;
        let first = frame_at(samples, place, count);
        if place + 2 * count > samples.len() {
            return (first, self.frame(pages, n + 1));
        }
        (first, frame_at(samples, place + count, count))
    }

    /// Frame `n`, whose page is there, or one of 0 past the end.
    fn frame<'a>(&self, pages: &'a [Option<Page>], n: u64) -> &'a [i32]
        requires { n < self.now.wave.frames → AreThere self.now.bytes pages.now (n / 8192 + 1) }
        ensures value { result.now ≡ frame_or_silence self.now.wave.channels (frames self.now.bytes) n }
        ensures least { 1 ≤ length result.now }
        ensures most { length result.now ≤ 8 }
        ensures range { All (λ sample. Is24 sample) result.now }
    {
        let wave = self.wave();
        if n >= wave.frames {
            return frame_at(SILENCE, 0, usize::from(wave.channels));
        }
        let count = usize::from(wave.channels);
        let place = (n % FRAMES_PER_PAGE) as usize * count;
        frame_at(
            self.page(pages, n / FRAMES_PER_PAGE).samples(),
            place,
            count,
        )
    }

    /// The samples from frame `n` on, below the number of the file's frames, as far as its page goes, which is
    /// there: one frame after the other, in the file's channels.
    pub(crate) fn samples_from<'a>(&self, pages: &'a [Option<Page>], n: u64) -> &'a [i32]
        requires below { n < self.now.wave.frames }
        requires there { AreThere self.now.bytes pages.now (n / 8192 + 1) }
        ensures some { self.now.wave.channels ≤ length result.now }
        ensures values { (j : ℕ) → j < length result.now → slice_index_or result.now j (pos 0)
            ≡ slice_index_or (frame_or_silence self.now.wave.channels (frames self.now.bytes) (n + j / self.now.wave.channels)) (j % self.now.wave.channels) (pos 0) }
        ensures range { All (λ sample. Is24 sample) result.now }
    {
        let page = self.page(pages, n / FRAMES_PER_PAGE);
        let place = (n % FRAMES_PER_PAGE) as usize * usize::from(self.wave.channels);
        samples_behind(page.samples(), place)
    }

    /// The page of number `k`, which is there.
    fn page<'a>(&self, pages: &'a [Option<Page>], k: u64) -> &'a Page
        requires { AreThere self.now.bytes pages.now (k + 1) }
        ensures { result.now ≡ file_page self.now.bytes k }
    {
        match &pages[k as usize] {
            Some(page) => page,
            None => unreachable!(),
        }
    }
}
