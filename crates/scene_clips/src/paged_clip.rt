//! A clip at a scene's rate and in its channels, whose pages lie elsewhere.

ghost use Rattle.std.specs.Prelude.{◌≡◌, ◌+◌, ◌*◌, ◌/◌, ◌%◌, ◌^◌, ◌<◌, ◌≤◌, ℕ, pos, length, slice_index_or};
ghost use Rattle.clip_decode.specs.Frames.{frames};
ghost use Rattle.clip_decode.specs.Limits.{most_sound_bytes};
ghost use Rattle.clip_decode.specs.Pages.{page_count};
ghost use Rattle.mix_fixed.specs.Sound.{Is24};
ghost use Rattle.scene_clips.specs.ClipFrames.{clip_length, clip_sample, file_rate};
ghost use Rattle.scene_clips.specs.FilePages.{AreThere, IsMadeOf, pages_through, pages_to};
ghost use Rattle.scene_clips.specs.Walked.{IsWalkOf};
ghost use Rattle.rate_fit.specs.Points.{point_at};

use crate::converter::Converter;
use crate::file_frames::FileFrames;
use clip_decode::{Clip, FRAMES_PER_PAGE, Page};
use rate_fit::{Point, Walker};
use std::marker::Model;

/// A clip that is read at a scene's rate and in its channels, out of pages that somebody else keeps.
///
/// Each call takes the clip's pages by their numbers, of which the first ones are there: as many as
/// `pages_to` of the last frame that it reads.
///
/// Contracts see it as the `bytes` of the file and the scene's `rate` and `channels`.
#[derive(Drop)]
pub struct PagedClip {
    pub(crate) file: FileFrames,
    pub(crate) converter: Converter,
    /// Whether the file has the scene's rate and channels.
    pub(crate) unchanged: bool,
}

impl Model for PagedClip {
    ghost use Rattle.scene_clips.specs.SceneClipData.{SceneClipData, IsSceneClip};

    ghost Value = { SceneClipData };

    ghost view = { λ s. record { bytes = s.file.bytes; rate = s.converter.conversion.output_rate; channels = s.converter.channels } };

    ghost invariant = { λ s. IsSceneClip s.file s.converter s.unchanged };
}

/// Puts a frame of two channels into its place.
fn put_pair(out: &mut [i32], k: usize, pair: (i32, i32))
    requires { 2 * k + 1 < length out.old }
    ensures left { slice_index_or out.new (2 * k) (pos 0) ≡ pair.0 }
    ensures right { slice_index_or out.new (2 * k + 1) (pos 0) ≡ pair.1 }
    ensures before { (j : ℕ) → j < 2 * k → slice_index_or out.new j (pos 0) ≡ slice_index_or out.old j (pos 0) }
{
    out[2 * k] = pair.0;
    out[2 * k + 1] = pair.1;
}

impl PagedClip {
    /// The clip of a file of at most 67108864 bytes, for a scene of `rate` frames a second, 1 to 768000,
    /// and `channels` channels, 1 or 2. It takes no memory.
    pub fn of(clip: &Clip, rate: u32, channels: u8) -> PagedClip
        requires bytes { length clip.now.bytes ≤ most_sound_bytes }
        requires rate_least { 1 ≤ rate }
        requires rate_most { rate ≤ 768000 }
        requires channels_least { 1 ≤ channels }
        requires channels_most { channels ≤ 2 }
        ensures { result ≡ record { bytes = clip.now.bytes; rate = rate; channels = channels } }
    {
        let file = FileFrames::of(clip);
        let wave = file.wave();
        let unchanged = wave.rate == rate && wave.channels == channels;
        let converter = Converter::new(wave, rate, channels);
        PagedClip {
            file,
            converter,
            unchanged,
        }
    }

    /// The scene's channels, 1 or 2.
    pub fn channels(&self) -> u8
        ensures value { result ≡ self.now.channels }
        ensures least { 1 ≤ result }
        ensures most { result ≤ 2 }
    {
        self.converter.channels()
    }

    /// The number of frames at the scene's rate: the file's, times the scene's rate, divided by the
    /// file's rate and rounded up.
    pub fn len(&self) -> u64
        ensures value { result ≡ clip_length self.now.bytes self.now.rate }
        ensures most { result ≤ 2 ^ 28 * 768000 }
    {
        self.converter.len()
    }

    /// How many of the clip's first pages frame `n` and those before it are made of.
    pub fn pages_to(&self, n: u64) -> u32
        requires { n < clip_length self.now.bytes self.now.rate }
        ensures value { result ≡ pages_to self.now.bytes self.now.rate n }
        ensures before { (m : ℕ) → m ≤ n → pages_to self.now.bytes self.now.rate m ≤ result }
        ensures last { (k : ℕ) → k + 1 ≡ result → IsMadeOf self.now.bytes self.now.rate n k }
        ensures some { 0 < result }
        ensures most { result ≤ page_count (length (frames self.now.bytes)) }
    {
        let first = self.converter.point(n).first;
        let through = (first + 2).min(self.file.wave().frames);
        through.div_ceil(FRAMES_PER_PAGE) as u32
    }

    /// The sample of a channel in a frame, both counted from 0, at the scene's rate: a number of 24
    /// bits, -8388608 to 8388607.
    ///
    /// It is interpolated linearly between two frames of the file and rounded down. After the last
    /// frame of the file stands a frame of 0. Each of the two is brought to the scene's channels
    /// first: one is the mean of all, rounded down, two are the only one twice or else the first two.
    pub fn sample(&self, pages: &[Option<Page>], n: u64, channel: u8) -> i32
        requires frame { n < clip_length self.now.bytes self.now.rate }
        requires there { AreThere self.now.bytes pages.now (pages_to self.now.bytes self.now.rate n) }
        requires channel { channel < self.now.channels }
        ensures value { result
            ≡ clip_sample self.now.bytes self.now.rate self.now.channels n channel }
        ensures range { Is24 result }
    {
        self.sample_at(pages, self.converter.point(n), channel)
    }

    /// Writes `count` frames from frame `from` on into `out`: the sample of each channel of the scene,
    /// one frame after the other, as `sample` answers them. It divides only where it begins, and copies whole
    /// pages where there is nothing to convert.
    pub fn run(&self, pages: &[Option<Page>], from: u64, count: usize, out: &mut [i32])
        requires frames { from + count ≤ clip_length self.now.bytes self.now.rate }
        requires there { (n : ℕ) → n < from + count → AreThere self.now.bytes pages.now (pages_to self.now.bytes self.now.rate n) }
        requires room { length out.old ≡ count * self.now.channels }
        ensures values { (j : ℕ) → j < count * self.now.channels → slice_index_or out.new j (pos 0)
            ≡ clip_sample self.now.bytes self.now.rate self.now.channels
            (from + j / self.now.channels) (j % self.now.channels) }
        ensures samples { (j : ℕ) → j < count * self.now.channels → Is24 (slice_index_or out.new j (pos 0)) }
    {
        if self.is_unchanged() {
            self.copies(pages, from, count, out);
        } else if self.channels() == 2 {
            self.pairs(pages, from, count, out);
        } else {
            self.singles(pages, from, count, out);
        }
    }

    /// Writes `count` frames from frame `from` on, in two channels, into `out`.
    fn pairs(&self, pages: &[Option<Page>], from: u64, count: usize, out: &mut [i32])
        requires two { self.now.channels ≡ 2 }
        requires frames { from + count ≤ clip_length self.now.bytes self.now.rate }
        requires there { (n : ℕ) → n < from + count → AreThere self.now.bytes pages.now (pages_to self.now.bytes self.now.rate n) }
        requires room { length out.old ≡ 2 * count }
        ensures values { (j : ℕ) → j < 2 * count → slice_index_or out.new j (pos 0)
            ≡ clip_sample self.now.bytes self.now.rate self.now.channels (from + j / 2) (j % 2) }
        ensures samples { (j : ℕ) → j < 2 * count → Is24 (slice_index_or out.new j (pos 0)) }
    {
        let mut walker = self.walk(from);
        for k in 0..count {
            let Some(point) = walker.next() else { return };
            put_pair(out, k, self.pair_at(pages, point));
        }
    }

    /// Writes `count` frames from frame `from` on, in one channel, into `out`.
    fn singles(&self, pages: &[Option<Page>], from: u64, count: usize, out: &mut [i32])
        requires one { self.now.channels ≡ 1 }
        requires frames { from + count ≤ clip_length self.now.bytes self.now.rate }
        requires there { (n : ℕ) → n < from + count → AreThere self.now.bytes pages.now (pages_to self.now.bytes self.now.rate n) }
        requires room { length out.old ≡ count }
        ensures values { (j : ℕ) → j < count → slice_index_or out.new j (pos 0)
            ≡ clip_sample self.now.bytes self.now.rate self.now.channels (from + j) 0 }
        ensures samples { (j : ℕ) → j < count → Is24 (slice_index_or out.new j (pos 0)) }
    {
        let mut walker = self.walk(from);
        for k in 0..count {
            let Some(point) = walker.next() else { return };
            out[k] = self.sample_at(pages, point, 0);
        }
    }

    /// A walk over the places of the frames from frame `from` on.
    fn walk(&self, from: u64) -> Walker
        requires { from ≤ clip_length self.now.bytes self.now.rate }
        ensures { IsWalkOf self.now from result }
    {
        self.converter.walk(from)
    }

    /// The sample of a channel at a point.
    fn sample_at(&self, pages: &[Option<Page>], point: Point, channel: u8) -> i32
        requires channel { channel < self.now.channels }
        requires there { AreThere self.now.bytes pages.now (pages_through self.now.bytes point.first) }
        requires weighted { point.weight < self.now.rate }
        requires near { point.first < 2 ^ 62 }
        requires inside { point.first < length (frames self.now.bytes) }
        ensures value { (n : ℕ) → point ≡ point_at (file_rate self.now.bytes) self.now.rate n →
            result ≡ clip_sample self.now.bytes self.now.rate self.now.channels n channel }
        ensures range { Is24 result }
    {
        let (first, second) = self.file.frame_and_next(pages, point.first);
        self.converter.sample(first, second, point.weight, channel)
    }

    /// The frame at a point, in two channels.
    fn pair_at(&self, pages: &[Option<Page>], point: Point) -> (i32, i32)
        requires two { self.now.channels ≡ 2 }
        requires there { AreThere self.now.bytes pages.now (pages_through self.now.bytes point.first) }
        requires weighted { point.weight < self.now.rate }
        requires near { point.first < 2 ^ 62 }
        requires inside { point.first < length (frames self.now.bytes) }
        ensures left { (n : ℕ) → point ≡ point_at (file_rate self.now.bytes) self.now.rate n →
            result.0 ≡ clip_sample self.now.bytes self.now.rate self.now.channels n 0 }
        ensures right { (n : ℕ) → point ≡ point_at (file_rate self.now.bytes) self.now.rate n →
            result.1 ≡ clip_sample self.now.bytes self.now.rate self.now.channels n 1 }
        ensures left_range { Is24 result.0 }
        ensures right_range { Is24 result.1 }
    {
        let (first, second) = self.file.frame_and_next(pages, point.first);
        self.converter.pair(first, second, point.weight)
    }
}
