//! Pages, the parts in which a file is decoded.

ghost use Rattle.std.specs.Prelude.{◌≡◌, [], ◌≤◌, All, IfOk};
ghost use Rattle.clip_decode.specs.Pages.{page_count};
ghost use Rattle.mix_fixed.specs.Sound.{Is24};

use plain_data::OutOfMemory;
use std::alloc::Global;
use std::marker::Model;
use wave_read::Wave;

/// Frames of a page. The last page of a file may have fewer.
pub const FRAMES_PER_PAGE: u64 = 8192;

/// The number of pages of 8192 frames in which a file is decoded: its frames divided by 8192,
/// rounded up.
pub fn pages(wave: &Wave) -> u64
    ensures { result ≡ page_count wave.now.frames }
{
    wave.frames.div_ceil(FRAMES_PER_PAGE)
}

/// Room for a page of a sound of some channels, and the samples that it holds.
///
/// Contracts see a page as its `channels` and its `samples`: the samples of up to 8192 frames,
/// interleaved, as numbers of 24 bits.
#[derive(Drop)]
pub struct Page {
    /// 8192 cells a channel, of which the first `len` are held.
    pub(crate) cells: Vec<i32>,
    pub(crate) len: usize,
    pub(crate) channels: u8,
}

impl Model for Page {
    ghost use Rattle.std.specs.Prelude.{◌≡◌, ◌*◌, ◌≤◌, take, vec_len};
    ghost use Rattle.clip_decode.specs.Pages.{PageData, frames_per_page};
    ghost use Rattle.clip_decode.specs.Cells.{Are24};

    ghost Value = { PageData };

    ghost view = { λ p. record { channels = p.channels; samples = take p.len p.cells.items } };

    ghost invariant = { λ p. record {
      room : vec_len p.cells ≡ frames_per_page * p.channels;
      held : p.len ≤ vec_len p.cells;
      range : Are24 p.len p.cells.items;
    } };
}

impl Page {
    /// A page of no frames yet, with room for 8192 frames of 1 to 8 channels.
    ///
    /// # Errors
    ///
    /// [`OutOfMemory`] where there is no memory.
    pub fn new(alloc: Global, channels: u8) -> Result<Page, OutOfMemory>
        requires least { 1 ≤ channels }
        requires most { channels ≤ 8 }
        ensures { IfOk result (λ page. page ≡ record { channels = channels; samples = [] }) }
    {
        let cells = vec![in alloc; 0i32; FRAMES_PER_PAGE as usize * usize::from(channels)]?;
        Ok(Page {
            cells,
            len: 0,
            channels,
        })
    }

    /// The samples of the frames that the page holds, interleaved in the channels that it was made
    /// for, as numbers of 24 bits, -8388608 to 8388607.
    pub fn samples(&self) -> &[i32]
        ensures value { result.now ≡ self.now.samples }
        ensures range { All (λ sample. Is24 sample) result.now }
    {
        &self.cells[..self.len]
    }

    /// The channels that the page was made for.
    pub fn channels(&self) -> u8
        ensures { result ≡ self.now.channels }
    {
        self.channels
    }
}
