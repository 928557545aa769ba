//! Pages are filled one after the other.

ghost use Rattle.std.specs.Prelude.{◌≡◌, ℕ, ◌+◌, ◌-◌, ◌*◌, ◌^◌, ◌<◌, ◌≤◌, length, drop, min};
ghost use Rattle.clip_decode.specs.Cells.{Written};
ghost use Rattle.clip_decode.specs.Cursors.{ReadyAt, StandsAt};
ghost use Rattle.clip_decode.specs.Frames.{interleaved};
ghost use Rattle.clip_decode.specs.Pages.{frames_per_page, page_count, page_frames};
ghost use Rattle.clip_decode.specs.Samples.{sample_of};
ghost use Rattle.wave_read.specs.Laws.{IsWaveIn, IsWaveOf};

use crate::clip::Clip;
use crate::companded::{alaw_into, ulaw_into};
use crate::cursor::Cursor;
use crate::ima::ima_into;
use crate::page::{FRAMES_PER_PAGE, Page};
use crate::pcm::samples_into;
use ima_adpcm::Ima;
use std::ops::Range;
use wave_read::{Kind, Wave};

/// The bytes of PCM or G.711 from a frame on.
fn sound_from<'a>(bytes: &'a [u8], wave: &Wave, frame: u64) -> &'a [u8]
    requires inside { wave.now.data_from + wave.now.data_len ≤ length bytes.now }
    requires there { frame * wave.now.align ≤ wave.now.data_len }
    ensures { result.now ≡ drop (wave.now.data_from + frame * wave.now.align) bytes.now }
{
    &bytes[(wave.data_from + frame * u64::from(wave.align)) as usize..]
}

/// Decodes the frames `frames` to the front of `out`, interleaved. Where the sound is IMA ADPCM
/// `decoders` are ready at the first of them, and are left ready at the one after the last.
fn frames_into(bytes: &[u8], wave: &Wave, frames: Range<u64>, decoders: &mut [Ima], out: &mut [i32])
    requires lawful { IsWaveOf bytes.now wave.now }
    requires some { frames.start ≤ frames.end }
    requires there { frames.end ≤ wave.now.frames }
    requires decoders { 8 ≤ length decoders.old }
    requires room { (frames.end - frames.start) * wave.now.channels ≤ length out.old }
    requires ready { wave.now.kind ≡ Kind.Ima → ReadyAt bytes.now wave.now frames.start decoders.old }
    ensures ready { wave.now.kind ≡ Kind.Ima → ReadyAt bytes.now wave.now frames.end decoders.new }
    ensures written { Written wave.now.channels (frames.end - frames.start)
        (λ f c. sample_of bytes.now wave.now (frames.start + f) c) out.new }
{
    let samples = (frames.end - frames.start) as usize * usize::from(wave.channels);
    match wave.kind {
        Kind::Pcm => {
            let containers = sound_from(bytes, wave, frames.start);
            samples_into(wave.width / 8, containers, samples, out);
        }
        Kind::Alaw => alaw_into(sound_from(bytes, wave, frames.start), samples, out),
        Kind::Ulaw => ulaw_into(sound_from(bytes, wave, frames.start), samples, out),
        Kind::Ima => ima_into(bytes, wave, frames, decoders, out),
    }
}

/// Decodes page `page` to the front of `out`, and answers the number of its samples.
fn page_into(bytes: &[u8], wave: &Wave, page: u64, decoders: &mut [Ima], out: &mut [i32]) -> usize
    requires lawful { IsWaveOf bytes.now wave.now }
    requires there { frames_per_page * page < wave.now.frames }
    requires decoders { 8 ≤ length decoders.old }
    requires room { length out.old ≡ frames_per_page * wave.now.channels }
    requires ready { wave.now.kind ≡ Kind.Ima →
        ReadyAt bytes.now wave.now (frames_per_page * page) decoders.old }
    ensures next { page < 2 ^ 63 }
    ensures count { result ≡ min (wave.now.frames - frames_per_page * page) frames_per_page * wave.now.channels }
    ensures ready { wave.now.kind ≡ Kind.Ima → frames_per_page * (page + 1) < wave.now.frames →
        ReadyAt bytes.now wave.now (frames_per_page * (page + 1)) decoders.new }
    ensures written { Written wave.now.channels (min (wave.now.frames - frames_per_page * page) frames_per_page)
        (λ f c. sample_of bytes.now wave.now (frames_per_page * page + f) c) out.new }
{
    let from = FRAMES_PER_PAGE * page;
    let count = (wave.frames - from).min(FRAMES_PER_PAGE);
    frames_into(bytes, wave, from..from + count, decoders, out);
    count as usize * usize::from(wave.channels)
}

/// Writes the page that comes next at `cursor` into `page`, whose samples are then exactly those of
/// the clip's frames from 8192 times its number on, 8192 of them or as many as are left, and moves
/// the cursor to the page after it.
///
/// The cursor stands below the number of the clip's pages, each earlier call with it was on a clip
/// of the same bytes, and the page was made for the clip's channels. No memory is taken. The time
/// grows with the page alone: where a page of IMA ADPCM begins inside a block, its decoders go on
/// from where the page before it ended.
pub fn fill(cursor: &mut Cursor, clip: &Clip, page: &mut Page)
    requires below { cursor.old.page < page_count clip.now.wave.frames }
    requires stands { StandsAt clip.now.bytes cursor.old }
    requires channels { page.old.channels ≡ clip.now.wave.channels }
    ensures page { page.new ≡ record {
      channels = clip.now.wave.channels;
      samples = interleaved (page_frames clip.now.bytes cursor.old.page);
    } }
    ensures next { cursor.new.page ≡ cursor.old.page + 1 }
    ensures stands { StandsAt clip.now.bytes cursor.new }
{
    let bytes = clip.bytes();
    let wave = clip.wave();
    page.len = page_into(
        bytes,
        wave,
        cursor.page,
        &mut cursor.decoders,
        &mut page.cells,
    );
    cursor.page += 1;
}
