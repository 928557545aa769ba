//! A clip whose file has the scene's rate and channels: its frames are copied.

ghost use Rattle.std.specs.Prelude.{◌≡◌, ◌+◌, ◌*◌, ◌/◌, ◌%◌, ◌<◌, ◌≤◌, ℕ, pos, true, length, slice_index_or};
ghost use Rattle.mix_fixed.specs.Sound.{Is24};
ghost use Rattle.scene_clips.specs.ClipFrames.{clip_length, clip_sample};
ghost use Rattle.scene_clips.specs.FilePages.{AreThere, pages_to};
ghost use Rattle.scene_clips.specs.Unchanged.{is_unchanged};

use crate::paged_clip::PagedClip;
use clip_decode::Page;

/// Writes samples to their places, from place `place` on.
fn put_samples(out: &mut [i32], place: usize, samples: &[i32])
    requires { place + length samples.now ≤ length out.old }
    ensures here { (j : ℕ) → j < length samples.now → slice_index_or out.new (place + j) (pos 0) ≡ slice_index_or samples.now j (pos 0) }
    ensures before { (j : ℕ) → j < place → slice_index_or out.new j (pos 0) ≡ slice_index_or out.old j (pos 0) }
{
    out[place..place + samples.len()].copy_from_slice(samples);
}

impl PagedClip {
    /// Whether the file has the scene's rate and channels, so that its frames are the clip's as they stand.
    pub fn is_unchanged(&self) -> bool
        ensures { result ≡ is_unchanged self.now.bytes self.now.rate self.now.channels }
    {
        self.unchanged
    }

    /// Writes `count` frames from frame `from` on into `out`, page by page.
    pub(crate) fn copies(&self, pages: &[Option<Page>], from: u64, count: usize, out: &mut [i32])
        requires unchanged { is_unchanged self.now.bytes self.now.rate self.now.channels ≡ true }
        requires frames { from + count ≤ clip_length self.now.bytes self.now.rate }
        requires there { (n : ℕ) → n < from + count → AreThere self.now.bytes pages.now (pages_to self.now.bytes self.now.rate n) }
        requires room { length out.old ≡ count * self.now.channels }
        ensures values { (j : ℕ) → j < count * self.now.channels → slice_index_or out.new j (pos 0)
            ≡ clip_sample self.now.bytes self.now.rate self.now.channels
            (from + j / self.now.channels) (j % self.now.channels) }
        ensures samples { (j : ℕ) → j < count * self.now.channels → Is24 (slice_index_or out.new j (pos 0)) }
    {
        let mut done = 0;
        while done < count {
            done += self.copy_next(pages, from, done, count, out);
        }
    }

    /// Writes the next of these frames behind the first `done`, as many as stand in one page of the file. Answers
    /// how many they are.
    fn copy_next(
        &self,
        pages: &[Option<Page>],
        from: u64,
        done: usize,
        count: usize,
        out: &mut [i32],
    ) -> usize
        requires unchanged { is_unchanged self.now.bytes self.now.rate self.now.channels ≡ true }
        requires left { done < count }
        requires frames { from + count ≤ clip_length self.now.bytes self.now.rate }
        requires there { (n : ℕ) → n < from + count → AreThere self.now.bytes pages.now (pages_to self.now.bytes self.now.rate n) }
        requires room { length out.old ≡ count * self.now.channels }
        ensures some { 0 < result }
        ensures most { done + result ≤ count }
        ensures values { (j : ℕ) → j < result * self.now.channels → slice_index_or out.new (done * self.now.channels + j) (pos 0)
            ≡ clip_sample self.now.bytes self.now.rate self.now.channels
            (from + done + j / self.now.channels) (j % self.now.channels) }
        ensures samples { (j : ℕ) → j < result * self.now.channels → Is24 (slice_index_or out.new (done * self.now.channels + j) (pos 0)) }
        ensures before { (j : ℕ) → j < done * self.now.channels → slice_index_or out.new j (pos 0) ≡ slice_index_or out.old j (pos 0) }
    {
        let channels = usize::from(self.channels());
        let samples = self.file.samples_from(pages, from + done as u64);
        let frames = (samples.len() / channels).min(count - done);
        put_samples(out, done * channels, &samples[..frames * channels]);
        frames
    }
}
