ghost use Rattle.std.specs.Prelude.{◌≡◌, ◌<◌, ◌≤◌, ◌⊎◌, ◌-◌, ◌^◌};
ghost use Rattle.wave_write.specs.Header.{header, data_bytes};

/// The header of PCM, with 0 in each field that depends on the sound.
const TEMPLATE: [u8; 44] =
    *b"RIFF\0\0\0\0WAVEfmt \x10\0\0\0\x01\0\0\0\0\0\0\0\0\0\0\0\0\0\0\0data\0\0\0\0";

/// The 44 bytes before the data of a PCM WAVE file of `frames` frames × `channels` samples at
/// `rate` Hz, each of `width` bits (Microsoft's RIFF WAVE description). Where the data have an odd
/// number of bytes, one byte 0 has to follow them, which the RIFF size counts.
///
/// Channels are at most 2, the rate is at most 768,000 Hz, the width 16 or 24, and the data fit a
/// RIFF file, whose size is below 2^32.
pub fn header(channels: u8, rate: u32, width: u8, frames: u32) -> [u8; 44]
    requires channels { channels ≤ 2 }
    requires rate { rate ≤ 768000 }
    requires width { (width ≡ 16) ⊎ (width ≡ 24) }
    requires frames { data_bytes channels width frames < 2 ^ 32 - 37 }
    ensures { result ≡ header channels rate width frames }
{
    let align = u32::from(channels) * u32::from(width / 8);
    let size = frames * align;
    let mut header = TEMPLATE;
    header[4..8].copy_from_slice(&(36 + size + size % 2).to_le_bytes());
    header[22..24].copy_from_slice(&u16::from(channels).to_le_bytes());
    header[24..28].copy_from_slice(&rate.to_le_bytes());
    header[28..32].copy_from_slice(&(rate * align).to_le_bytes());
    header[32..34].copy_from_slice(&(align as u16).to_le_bytes());
    header[34..36].copy_from_slice(&u16::from(width).to_le_bytes());
    header[40..44].copy_from_slice(&size.to_le_bytes());
    header
}
