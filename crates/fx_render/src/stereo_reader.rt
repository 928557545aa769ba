//! The frames of a file, one after the other, in two channels.

ghost use Rattle.std.specs.Prelude.{◌≡◌, ◌+◌, ◌*◌, ◌/◌, ◌%◌, ◌^◌, ◌<◌, ◌≤◌, ◌++◌, All, IfOk, OnOk, drop, length, take};
ghost use Rattle.clip_decode.specs.Frames.{frames, interleaved};
ghost use Rattle.mix_fixed.specs.Sound.{Is24};
ghost use Rattle.rate_fit.specs.Channels.{in_channels};
ghost use Rattle.scene_clips.specs.ClipFrames.{all_in_channels};
ghost use Rattle.scene_clips.specs.FilePages.{frame_or_silence};
ghost use Rattle.fx_render.specs.Effected.{stereo, stereo_frames};
ghost use Rattle.fx_render.specs.Reading.{IsHeld, IsReading};

use clip_decode::{Clip, Cursor, FRAMES_PER_PAGE, Page, fill};
use plain_data::OutOfMemory;
use rate_fit::to_stereo;
use std::alloc::Global;

/// Reads a clip from its first frame on, decoding one page after the other: the frames in two channels, and frames of 0
/// past the end.
#[derive(Drop)]
pub(crate) struct StereoReader {
    pub(crate) clip: Clip,
    pub(crate) cursor: Cursor,
    /// The page of the last frame that was read.
    pub(crate) page: Page,
    /// The number of the next frame.
    pub(crate) next: u32,
}

impl StereoReader {
    /// A reader before the first frame of a clip. It takes the memory of a page.
    pub(crate) fn open(alloc: Global, clip: Clip) -> Result<StereoReader, OutOfMemory>
        ensures reading { IfOk result IsReading }
        ensures clip { IfOk result (λ reader. reader.clip ≡ clip) }
        ensures start { IfOk result (λ reader. reader.next ≡ 0) }
    {
        let page = Page::new(alloc, clip.wave().channels)?;
        Ok(StereoReader {
            clip,
            cursor: Cursor::start(),
            page,
            next: 0,
        })
    }

    /// Appends the next `count` frames to `samples`, interleaved.
    pub(crate) fn read(&mut self, count: u32, samples: &mut Vec<i32>) -> Result<(), OutOfMemory>
        requires reading { IsReading self.old }
        requires clock { self.old.next + count < 2 ^ 32 }
        requires range { All Is24 samples.old.items }
        ensures reading { OnOk result (IsReading self.new) }
        ensures clip { self.new.clip ≡ self.old.clip }
        ensures next { OnOk result (self.new.next ≡ self.old.next + count) }
        ensures samples { OnOk result (samples.new.items ≡ samples.old.items ++ interleaved (stereo_frames self.old.clip.bytes self.old.next count)) }
        ensures count { OnOk result (length samples.new.items ≡ length samples.old.items + 2 * count) }
        ensures range { OnOk result (All Is24 samples.new.items) }
    {
        for _ in 0..count {
            let frame = self.next_frame();
            samples.extend_from_slice(&frame)?;
        }
        Ok(())
    }

    /// The next frame in two channels, of 0 past the end of the file.
    fn next_frame(&mut self) -> [i32; 2]
        requires reading { IsReading self.old }
        requires clock { self.old.next + 1 < 2 ^ 32 }
        ensures frame { result ≡ frame_or_silence stereo (all_in_channels stereo (frames self.old.clip.bytes)) self.old.next }
        ensures range { All Is24 result }
        ensures reading { IsReading self.new }
        ensures clip { self.new.clip ≡ self.old.clip }
        ensures next { self.new.next ≡ self.old.next + 1 }
    {
        let frame = self.frame();
        self.next += 1;
        frame
    }

    /// The next frame in two channels, of 0 past the end of the file. Its page is held then.
    fn frame(&mut self) -> [i32; 2]
        requires reading { IsReading self.old }
        ensures frame { result ≡ frame_or_silence stereo (all_in_channels stereo (frames self.old.clip.bytes)) self.old.next }
        ensures range { All Is24 result }
        ensures held { IsHeld self.new }
        ensures clip { self.new.clip ≡ self.old.clip }
        ensures next { self.new.next ≡ self.old.next }
    {
        if u64::from(self.next) < self.clip.wave().frames {
            self.hold_page();
            self.held_frame()
        } else {
            [0, 0]
        }
    }

    /// Decodes the page of the next frame, where it is the first frame of its page. Else that page is held.
    fn hold_page(&mut self)
        requires reading { IsReading self.old }
        requires below { self.old.next < self.old.clip.wave.frames }
        ensures held { IsHeld self.new }
        ensures clip { self.new.clip ≡ self.old.clip }
        ensures next { self.new.next ≡ self.old.next }
    {
        if u64::from(self.next) % FRAMES_PER_PAGE == 0 {
            fill(&mut self.cursor, &self.clip, &mut self.page);
        }
    }

    /// The next frame of the file in two channels. Its page is held.
    fn held_frame(&self) -> [i32; 2]
        requires held { IsHeld self.now }
        requires below { self.now.next < self.now.clip.wave.frames }
        ensures frame { result ≡ frame_or_silence stereo (all_in_channels stereo (frames self.now.clip.bytes)) self.now.next }
        ensures range { All Is24 result }
    {
        let channels = usize::from(self.clip.wave().channels);
        let place = (u64::from(self.next) % FRAMES_PER_PAGE) as usize * channels;
        stereo_at(self.page.samples(), place, channels)
    }
}

/// The frame of `channels` samples from place `place` on, in two channels.
fn stereo_at(samples: &[i32], place: usize, channels: usize) -> [i32; 2]
    requires some { 1 ≤ channels }
    requires inside { place + channels ≤ length samples.now }
    ensures frame { result ≡ in_channels stereo (take channels (drop place samples.now)) }
    ensures range { All Is24 samples.now → All Is24 result }
{
    to_stereo(&samples[place..place + channels])
}
