//! The format of the WAVE file that a cut is written to.

ghost use Rattle.std.specs.Prelude.{◌≡◌, ◌≤◌, [], ◌∷◌, if◌then◌else◌};
ghost use Rattle.mix_model.specs.Output.{padding};
ghost use Rattle.wave_write.specs.Header.{data_bytes};
ghost use Rattle.cut_render.specs.Cut.{channels_for, file_bytes, width};
ghost use Rattle.cut_render.specs.Segments.{most_frames};

use wave_read::Wave;

/// The bits of its samples.
pub const WIDTH: u8 = 24;

/// Its channels: one where the sound has one, and else two.
pub fn channels_of(wave: &Wave) -> u8
    ensures channels { result ≡ channels_for wave.now.channels }
    ensures least { 1 ≤ result }
    ensures most { result ≤ 2 }
{
    if wave.channels == 1 { 1 } else { 2 }
}

/// Whether a zero byte follows so many frames, at most 16777216, in one or two channels: where their data have an odd size.
pub(crate) fn is_padded(channels: u8, count: u32) -> bool
    requires channels { channels ≤ 2 }
    requires count { count ≤ most_frames }
    ensures { padding (data_bytes channels width count) ≡ if result then 0 ∷ [] else [] }
{
    count * (3 * u32::from(channels)) % 2 == 1
}

/// The number of bytes of the file of at most 16777216 frames in one or two channels: 44 of the header, 3 of each sample, and
/// the pad byte if there is one.
pub fn file_bytes(channels: u8, count: u32) -> u64
    requires channels { channels ≤ 2 }
    requires count { count ≤ most_frames }
    ensures { result ≡ file_bytes channels count }
{
    let size = u64::from(count) * 3 * u64::from(channels);
    44 + size + size % 2
}
