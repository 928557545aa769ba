//! A clip that is played out of its tape, with its first frames at hand.

ghost use Rattle.std.specs.Prelude.{◌≡◌, ◌≤◌, ◌<◌, ◌+◌, ◌*◌, ◌/◌, ◌%◌, ◌^◌, ℕ, length, map, IfOk, OnOk, IfErr};
ghost use Rattle.mix_fixed.specs.Kernels.{at, AreSamples};
ghost use Rattle.scene_clips.specs.ClipFrames.{clip_length, clip_sample};
ghost use Rattle.resource_mgr.specs.Tapes.{IsLater, bytes_of};
ghost use Rattle.engine.specs.Cached.{most_cached_frames};
ghost use Rattle.engine.specs.Needs.{IsMissingIn};
ghost use Rattle.engine.specs.TapeClips.{clip_of_tape};

use crate::kept_frames::{KeptFrames, fetch};
use crate::need::Missing;
use plain_data::OutOfMemory;
use resource_mgr::Tape;
use scene_clips::PagedClip;
use std::alloc::Global;
use std::marker::Model;

/// The most frames that are kept of all clips together: 32 MiB in two channels.
const MOST_CACHED_FRAMES: u64 = 4_194_304;

/// A clip whose first frames are kept at the scene's rate and in its channels once they were played, so that
/// sounds which play them copy them. Contracts see the clip.
#[derive(Drop)]
pub(crate) struct CachedClip {
    clip: PagedClip,
    kept: KeptFrames,
}

impl Model for CachedClip {
    ghost use Rattle.scene_clips.specs.SceneClipData.{SceneClipData};
    ghost use Rattle.engine.specs.Cached.{IsCached};

    ghost Value = { SceneClipData };

    ghost view = { λ c. c.clip };

    ghost invariant = { λ c. IsCached c.clip c.kept };
}

/// The clips of tapes at a scene's rate and in its channels, with room for the first frames of each, as long as there are not
/// too many. Of a clip whose file has the scene's rate and channels none are kept, since a run of it is a
/// copy by itself.
pub(crate) fn cached(
    alloc: Global,
    rate: u32,
    channels: u8,
    tapes: &[Tape],
) -> Result<Vec<CachedClip>, OutOfMemory>
    requires rate_least { 1 ≤ rate }
    requires rate_most { rate ≤ 768000 }
    requires channels_least { 1 ≤ channels }
    requires channels_most { channels ≤ 2 }
    ensures { IfOk result (λ all. all.items ≡ map (clip_of_tape rate channels) tapes.now) }
{
    let mut all = Vec::new(alloc);
    let mut left = MOST_CACHED_FRAMES;
    for k in 0..tapes.len() {
        let clip = PagedClip::of(tapes[k].clip(), rate, channels);
        let most = if clip.is_unchanged() {
            0
        } else {
            clip.len().min(left)
        };
        all.push(CachedClip::new(alloc, clip, most as usize)?)?;
        left -= most;
    }
    Ok(all)
}

impl CachedClip {
    /// The clip with room for so many frames.
    fn new(alloc: Global, clip: PagedClip, most: usize) -> Result<CachedClip, OutOfMemory>
        requires there { most ≤ clip_length clip.bytes clip.rate }
        requires few { most ≤ most_cached_frames }
        ensures { IfOk result (λ cached. cached ≡ clip) }
    {
        let kept = KeptFrames::new(alloc, &clip, most)?;
        Ok(CachedClip { clip, kept })
    }

    /// The scene's channels, 1 or 2.
    pub(crate) fn channels(&self) -> u8
        ensures value { result ≡ self.now.channels }
        ensures least { 1 ≤ result }
        ensures most { result ≤ 2 }
    {
        self.clip.channels()
    }

    /// The number of frames at the scene's rate.
    pub(crate) fn len(&self) -> u64
        ensures value { result ≡ clip_length self.now.bytes self.now.rate }
        ensures most { result ≤ 2 ^ 28 * 768000 }
    {
        self.clip.len()
    }

    /// Writes `count` frames from frame `from` on into `out`, interleaved. `tape` is that of the clip.
    ///
    /// # Errors
    ///
    /// [`Missing`] where a page that they are made of isn't shown yet. Then `out` is unchanged.
    pub(crate) fn run(
        &mut self,
        tape: &mut Tape,
        from: u64,
        count: usize,
        out: &mut [i32],
    ) -> Result<(), Missing>
        requires tape { bytes_of tape.old ≡ self.old.bytes }
        requires some { 0 < count }
        requires fits { from + count < 2 ^ 64 }
        requires frames { from + count ≤ clip_length self.old.bytes self.old.rate }
        requires room { length out.old ≡ count * self.old.channels }
        ensures same { self.new ≡ self.old }
        ensures later { OnOk result (IsLater tape.old tape.new) }
        ensures missing { IfErr result (λ m. IsMissingIn self.old from count tape.old tape.new m.page m.shown) }
        ensures values { OnOk result ((j : ℕ) → j < count * self.old.channels → at out.new j
            ≡ clip_sample self.old.bytes self.old.rate self.old.channels
            (from + j / self.old.channels) (j % self.old.channels)) }
        ensures range { AreSamples out.old → AreSamples out.new }
    {
        let end = from + count as u64;
        if end > self.kept.most as u64 {
            fetch(&self.clip, tape, end - 1)?;
            self.clip.run(tape.given(), from, count, out);
            return Ok(());
        }
        self.kept.keep_to(&self.clip, tape, end as usize)?;
        let channels = usize::from(self.clip.channels());
        self.kept.copy(from as usize, count, channels, out);
        Ok(())
    }
}
