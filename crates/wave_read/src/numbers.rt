//! Little-endian numbers at a place of a file.

ghost use Rattle.std.specs.Prelude.{◌≡◌, ◌+◌, ◌≤◌, length};
ghost use Rattle.wave_read.specs.Numbers.{u16_at, u32_at, u64_at};

use byteorder::{ByteOrder, LittleEndian};

#[tactic(auto, unfolding(crate::specs::Numbers::u16_at))]
pub fn u16_at(bytes: &[u8], place: usize) -> u16
    requires { place + 2 ≤ length bytes.now }
    ensures { result ≡ u16_at bytes.now place }
{
    LittleEndian::read_u16(&bytes[place..])
}

#[tactic(auto, unfolding(crate::specs::Numbers::u32_at))]
pub fn u32_at(bytes: &[u8], place: usize) -> u32
    requires { place + 4 ≤ length bytes.now }
    ensures { result ≡ u32_at bytes.now place }
{
    LittleEndian::read_u32(&bytes[place..])
}

#[tactic(auto, unfolding(crate::specs::Numbers::u64_at))]
pub fn u64_at(bytes: &[u8], place: usize) -> u64
    requires { place + 8 ≤ length bytes.now }
    ensures { result ≡ u64_at bytes.now place }
{
    LittleEndian::read_u64(&bytes[place..])
}
