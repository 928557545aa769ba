//! A clip that is decoded whole, at a scene's rate and in its channels.

ghost use Rattle.std.specs.Prelude.{◌≡◌, ◌+◌, ◌*◌, ◌/◌, ◌%◌, ◌^◌, ◌<◌, ◌≤◌, ℕ, pos, length, slice_index_or, IfOk};
ghost use Rattle.clip_decode.specs.Cursors.{StandsAt};
ghost use Rattle.clip_decode.specs.Frames.{frames};
ghost use Rattle.clip_decode.specs.Limits.{most_sound_bytes};
ghost use Rattle.clip_decode.specs.Pages.{page_count};
ghost use Rattle.mix_fixed.specs.Sound.{Is24};
ghost use Rattle.scene_clips.specs.ClipFrames.{clip_length, clip_sample};
ghost use Rattle.scene_clips.specs.FilePages.{AreThere, file_page};

use crate::paged_clip::PagedClip;
use clip_decode::{Clip, Cursor, Page, fill, pages};
use plain_data::OutOfMemory;
use std::alloc::Global;
use std::marker::Model;

/// A clip that is decoded whole, and read at a scene's rate and in its channels.
///
/// Contracts see it as the `bytes` of the file and the scene's `rate` and `channels`.
#[derive(Drop)]
pub struct SceneClip {
    paged: PagedClip,
    pages: Vec<Option<Page>>,
}

impl Model for SceneClip {
    ghost use Rattle.std.specs.Prelude.{length};
    ghost use Rattle.clip_decode.specs.Frames.{frames};
    ghost use Rattle.clip_decode.specs.Pages.{page_count};
    ghost use Rattle.scene_clips.specs.FilePages.{AreThere};
    ghost use Rattle.scene_clips.specs.SceneClipData.{SceneClipData};

    ghost Value = { SceneClipData };

    ghost view = { λ s. s.paged };

    ghost invariant = { λ s. AreThere s.paged.bytes s.pages.items (page_count (length (frames s.paged.bytes))) };
}

impl SceneClip {
    /// Decodes all pages of a clip of at most 67108864 bytes, for a scene of `rate` frames a second,
    /// 1 to 768000, and `channels` channels, 1 or 2. It keeps one `i32` a sample of the file, in whole
    /// pages, and not the bytes of the file.
    ///
    /// # Errors
    ///
    /// [`OutOfMemory`] where there is no memory; nothing has changed then.
    pub fn decode(
        alloc: Global,
        clip: &Clip,
        rate: u32,
        channels: u8,
    ) -> Result<SceneClip, OutOfMemory>
        requires bytes { length clip.now.bytes ≤ most_sound_bytes }
        requires rate_least { 1 ≤ rate }
        requires rate_most { rate ≤ 768000 }
        requires channels_least { 1 ≤ channels }
        requires channels_most { channels ≤ 2 }
        ensures { IfOk result (λ decoded. decoded
            ≡ record { bytes = clip.now.bytes; rate = rate; channels = channels }) }
    {
        let pages = decoded_pages(alloc, clip)?;
        Ok(SceneClip {
            paged: PagedClip::of(clip, rate, channels),
            pages,
        })
    }

    /// The scene's channels, 1 or 2.
    pub fn channels(&self) -> u8
        ensures value { result ≡ self.now.channels }
        ensures least { 1 ≤ result }
        ensures most { result ≤ 2 }
    {
        self.paged.channels()
    }

    /// The number of frames at the scene's rate: the file's, times the scene's rate, divided by the
    /// file's rate and rounded up.
    pub fn len(&self) -> u64
        ensures value { result ≡ clip_length self.now.bytes self.now.rate }
        ensures most { result ≤ 2 ^ 28 * 768000 }
    {
        self.paged.len()
    }

    /// The sample of a channel in a frame, as [`PagedClip::sample`] answers it.
    pub fn sample(&self, n: u64, channel: u8) -> i32
        requires frame { n < clip_length self.now.bytes self.now.rate }
        requires channel { channel < self.now.channels }
        ensures value { result
            ≡ clip_sample self.now.bytes self.now.rate self.now.channels n channel }
        ensures range { Is24 result }
    {
        self.paged.sample(self.pages.as_slice(), n, channel)
    }

    /// Writes `count` frames from frame `from` on into `out`, as [`PagedClip::run`] does.
    pub fn run(&self, from: u64, count: usize, out: &mut [i32])
        requires frames { from + count ≤ clip_length self.now.bytes self.now.rate }
        requires room { length out.old ≡ count * self.now.channels }
        ensures values { (j : ℕ) → j < count * self.now.channels → slice_index_or out.new j (pos 0)
            ≡ clip_sample self.now.bytes self.now.rate self.now.channels
            (from + j / self.now.channels) (j % self.now.channels) }
        ensures samples { (j : ℕ) → j < count * self.now.channels → Is24 (slice_index_or out.new j (pos 0)) }
    {
        self.paged.run(self.pages.as_slice(), from, count, out);
    }
}

/// All pages of a clip, by their numbers.
fn decoded_pages(alloc: Global, clip: &Clip) -> Result<Vec<Option<Page>>, OutOfMemory>
    ensures { IfOk result (λ pages. AreThere clip.now.bytes pages.items (page_count (length (frames clip.now.bytes)))) }
{
    let mut cursor = Cursor::start();
    let mut decoded = Vec::new(alloc);
    for _ in 0..pages(clip.wave()) {
        let page = decoded_next(alloc, clip, &mut cursor)?;
        decoded.push(Some(page))?;
    }
    Ok(decoded)
}

/// The next page of a clip.
fn decoded_next(alloc: Global, clip: &Clip, cursor: &mut Cursor) -> Result<Page, OutOfMemory>
    requires below { cursor.old.page < page_count clip.now.wave.frames }
    requires stands { StandsAt clip.now.bytes cursor.old }
    ensures page { IfOk result (λ page. page ≡ file_page clip.now.bytes cursor.old.page) }
    ensures next { IfOk result (λ _. cursor.new.page ≡ cursor.old.page + 1) }
    ensures stands { IfOk result (λ _. StandsAt clip.now.bytes cursor.new) }
{
    let mut page = Page::new(alloc, clip.wave().channels)?;
    fill(cursor, clip, &mut page);
    Ok(page)
}
