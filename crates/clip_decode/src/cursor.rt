ghost use Rattle.std.specs.Prelude.{◌≡◌, ◌<◌, ℕ, List};
ghost use Rattle.clip_decode.specs.Cursors.{StandsAt};
ghost use Rattle.clip_decode.specs.Pages.{page_count};

use crate::clip::Clip;
use crate::ima::ready_at;
use crate::page::FRAMES_PER_PAGE;
use ima_adpcm::Ima;
use wave_read::Kind;

/// The most channels that a sound has.
const MAX_CHANNELS: usize = 8;

/// A place in the pages of a file: the page that comes next, and what the pages before it left for
/// it.
///
/// `fill` moves it on. It may be used with any clip of the same bytes.
#[derive(Drop)]
pub struct Cursor {
    pub(crate) page: u64,
    /// The decoders of IMA ADPCM, by channel, at the last frame before the page.
    pub(crate) decoders: [Ima; MAX_CHANNELS],
}

impl Cursor {
    /// A cursor at page 0, of whatever file.
    pub fn start() -> Cursor
        ensures page { result.page ≡ 0 }
        ensures stands { (bytes : List ℕ) → StandsAt bytes result }
    {
        let Some(decoder) = Ima::new(0, 0) else {
            unreachable!()
        };
        Cursor {
            page: 0,
            decoders: [decoder; MAX_CHANNELS],
        }
    }

    /// A cursor at page `number` of a clip, counted from 0, for clips of the same bytes. The number is
    /// below that of the clip's pages.
    ///
    /// No memory is taken. For IMA ADPCM the block in which the page begins is decoded up to it; for
    /// all other sounds nothing is read.
    pub fn at(clip: &Clip, number: u64) -> Cursor
        requires below { number < page_count clip.now.wave.frames }
        ensures page { result.page ≡ number }
        ensures stands { StandsAt clip.now.bytes result }
    {
        let bytes = clip.bytes();
        let wave = clip.wave();
        let mut cursor = Cursor::start();
        cursor.page = number;
        if wave.kind == Kind::Ima {
            let frame = FRAMES_PER_PAGE * number;
            ready_at(bytes, wave, frame, &mut cursor.decoders);
        }
        cursor
    }

    /// The number of the page that comes next, counted from 0.
    pub fn page(&self) -> u64
        ensures { result ≡ self.now.page }
    {
        self.page
    }
}
