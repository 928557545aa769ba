//! The frames of a file, from any of them on, in one or two channels.

ghost use Rattle.std.specs.Prelude.{◌≡◌, ◌+◌, ◌*◌, ◌/◌, ◌%◌, ◌^◌, ◌<◌, ◌≤◌, ◌++◌, All, IfOk, OnOk, drop, length, pos, replicate, take};
ghost use Rattle.clip_decode.specs.Frames.{interleaved};
ghost use Rattle.clip_decode.specs.Pages.{frames_per_page, page_count, page_frames};
ghost use Rattle.mix_fixed.specs.Sound.{Is24};
ghost use Rattle.rate_fit.specs.Channels.{in_channels};
ghost use Rattle.cut_render.specs.Cut.{channels_for, cut_channels, cut_frame, piece};
ghost use Rattle.cut_render.specs.Reading.{IsReading};

use crate::wav_file::channels_of;
use clip_decode::{Clip, Cursor, FRAMES_PER_PAGE, Page, fill};
use plain_data::OutOfMemory;
use rate_fit::to_stereo;
use std::alloc::Global;

/// Reads frames of a clip in one channel where it has one, and else in two, and frames of 0 past the end. It keeps the page
/// that was decoded last.
#[derive(Drop)]
pub struct FrameReader {
    pub clip: Clip,
    /// It stands behind the page.
    cursor: Cursor,
    page: Page,
}

impl FrameReader {
    /// A reader of a clip. It takes the memory of a page.
    pub fn open(alloc: Global, clip: Clip) -> Result<FrameReader, OutOfMemory>
        ensures reading { IfOk result IsReading }
        ensures clip { IfOk result (λ reader. reader.clip ≡ clip) }
    {
        let page = Page::new(alloc, clip.wave().channels)?;
        Ok(FrameReader {
            clip,
            cursor: Cursor::start(),
            page,
        })
    }

    /// Appends `count` frames from frame `place` on to `samples`, interleaved.
    pub fn read(
        &mut self,
        place: u64,
        count: u32,
        samples: &mut Vec<i32>,
    ) -> Result<(), OutOfMemory>
        requires reading { IsReading self.old }
        requires place { place + count < 2 ^ 64 }
        requires range { All Is24 samples.old.items }
        ensures reading { OnOk result (IsReading self.new) }
        ensures clip { self.new.clip ≡ self.old.clip }
        ensures samples { OnOk result (samples.new.items ≡ samples.old.items ++ piece self.old.clip.bytes place count) }
        ensures range { OnOk result (All Is24 samples.new.items) }
    {
        for number in 0..count {
            self.append_frame(place + u64::from(number), samples)?;
        }
        Ok(())
    }

    /// Appends frame `number` to `samples`.
    fn append_frame(&mut self, number: u64, samples: &mut Vec<i32>) -> Result<(), OutOfMemory>
        requires reading { IsReading self.old }
        requires range { All Is24 samples.old.items }
        ensures reading { IsReading self.new }
        ensures clip { self.new.clip ≡ self.old.clip }
        ensures samples { OnOk result (samples.new.items ≡ samples.old.items ++ cut_frame self.old.clip.bytes number) }
        ensures range { OnOk result (All Is24 samples.new.items) }
    {
        if number < self.clip.wave().frames {
            self.hold_page(number);
            self.append_held(number, samples)
        } else {
            append_silence(channels_of(self.clip.wave()), samples)
        }
    }

    /// Decodes the page of a frame, if it isn't held.
    fn hold_page(&mut self, frame: u64)
        requires reading { IsReading self.old }
        requires below { frame < self.old.clip.wave.frames }
        ensures reading { IsReading self.new }
        ensures clip { self.new.clip ≡ self.old.clip }
        ensures held { self.new.cursor.page ≡ frame / frames_per_page + 1 }
    {
        let number = frame / FRAMES_PER_PAGE;
        if self.cursor.page() == number + 1 {
            return;
        }
        if self.cursor.page() != number {
            self.cursor = Cursor::at(&self.clip, number);
        }
        fill(&mut self.cursor, &self.clip, &mut self.page);
    }

    /// Appends a frame of the file, whose page is held.
    fn append_held(&self, number: u64, samples: &mut Vec<i32>) -> Result<(), OutOfMemory>
        requires reading { IsReading self.now }
        requires held { self.now.cursor.page ≡ number / frames_per_page + 1 }
        requires below { number < self.now.clip.wave.frames }
        requires range { All Is24 samples.old.items }
        ensures samples { OnOk result (samples.new.items ≡ samples.old.items ++ cut_frame self.now.clip.bytes number) }
        ensures range { OnOk result (All Is24 samples.new.items) }
    {
        let channels = usize::from(self.clip.wave().channels);
        let place = (number % FRAMES_PER_PAGE) as usize * channels;
        append_converted(self.page.samples(), place, channels, samples)
    }
}

/// Appends the frame of `channels` samples from place `place` of a page on: its only sample, or else its first two.
fn append_converted(
    page: &[i32],
    place: usize,
    channels: usize,
    samples: &mut Vec<i32>,
) -> Result<(), OutOfMemory>
    requires some { 1 ≤ channels }
    requires inside { place + channels ≤ length page.now }
    requires page { All Is24 page.now }
    requires range { All Is24 samples.old.items }
    ensures samples { OnOk result (samples.new.items ≡ samples.old.items ++ in_channels (channels_for channels) (take channels (drop place page.now))) }
    ensures range { OnOk result (All Is24 samples.new.items) }
{
    if channels == 1 {
        samples.push(page[place])?;
    } else {
        samples.extend_from_slice(&to_stereo(&page[place..place + channels]))?;
    }
    Ok(())
}

/// Appends a frame of 0 in so many channels to `samples`.
fn append_silence(channels: u8, samples: &mut Vec<i32>) -> Result<(), OutOfMemory>
    requires least { 1 ≤ channels }
    requires most { channels ≤ 2 }
    requires range { All Is24 samples.old.items }
    ensures samples { OnOk result (samples.new.items ≡ samples.old.items ++ replicate channels (pos 0)) }
    ensures range { OnOk result (All Is24 samples.new.items) }
{
    samples.push(0)?;
    if channels == 2 {
        samples.push(0)?;
    }
    Ok(())
}
