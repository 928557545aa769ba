//! Decoding a clip, page by page.

ghost use Rattle.std.specs.Prelude.{◌≡◌};

use crate::checksum::mixed;
use crate::clips::make_file;
use crate::kind::Kind;
use clip_decode::{Clip, ClipError, Cursor, Page, fill, pages};
use std::alloc::Global;

/// Decodes the clip of a kind in each round, and answers a number made of the last sample of each
/// page and of all samples of the last page.
pub fn checksum(alloc: Global, kind: Kind, rounds: u32) -> Result<u32, ClipError> {
    let Ok(file) = make_file(alloc, kind) else {
        return Err(ClipError::OutOfMemory);
    };
    let clip = Clip::new(alloc, file)?;
    match Page::new(alloc, clip.wave().channels) {
        Ok(page) => Ok(decode_rounds(&clip, page, rounds)),
        Err(_) => Err(ClipError::OutOfMemory),
    }
}

/// Decodes all pages of the clip `rounds` times.
fn decode_rounds(clip: &Clip, page: Page, rounds: u32) -> u32
    requires { page.channels ≡ clip.now.wave.channels }
{
    let mut page = page;
    let mut sum = 0;
    for _ in 0..rounds {
        sum = decode_pages(clip, &mut page, sum);
    }
    page.samples()
        .iter()
        .fold(sum, |sum, sample| mixed(sum, *sample))
}

/// Decodes one page of the clip after the other.
fn decode_pages(clip: &Clip, page: &mut Page, sum: u32) -> u32
    requires { page.old.channels ≡ clip.now.wave.channels }
    ensures { page.new.channels ≡ clip.now.wave.channels }
{
    let mut cursor = Cursor::start();
    let mut sum = sum;
    for _ in 0..pages(clip.wave()) {
        fill(&mut cursor, clip, page);
        sum = with_last(sum, page.samples());
    }
    sum
}

/// The checksum with the last sample, where there is one.
fn with_last(sum: u32, samples: &[i32]) -> u32 {
    samples.last().map_or(sum, |sample| mixed(sum, *sample))
}
