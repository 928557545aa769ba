//! Chunks: an id of four letters, a size, that many bytes, and one pad byte after an odd size.

ghost use Rattle.std.specs.Prelude.{◌≡◌, ◌≢◌, ◌+◌, ◌%◌, ◌<◌, ◌≤◌, ◌⊎◌, length, take, drop, min, MatchBool};
ghost use Rattle.wave_read.specs.Chunks.{chunk_size, data_id};

/// Ids, as the little-endian numbers of their four letters.
pub const RIFF: u32 = 0x4646_4952;

pub const RF64: u32 = 0x3436_4652;

pub const WAVE: u32 = 0x4556_4157;

pub const DS64: u32 = 0x3436_7364;

pub const FMT: u32 = 0x2074_6d66;

pub const DATA: u32 = 0x6174_6164;

pub const FACT: u32 = 0x7463_6166;

/// Bytes of an id and a size.
pub const HEADER_LEN: usize = 8;

/// The place of the first chunk.
pub const FIRST_CHUNK: usize = 12;

/// The size of a `data` chunk of an RF64 file whose size stands in `ds64`.
const SIZE_IN_DS64: u32 = 0xffff_ffff;

/// The size of a chunk with this id and this size after it. `data_size` is the dataSize of an RF64
/// file.
pub fn chunk_size(id: u32, stated: u32, data_size: Option<u64>) -> u64
    ensures { result ≡ chunk_size data_size id stated }
{
    match data_size {
        Some(size) if id == DATA && stated == SIZE_IN_DS64 => size,
        _ => u64::from(stated),
    }
}

/// The `size` bytes from a place, or as many of them as the file has.
pub fn body_at(bytes: &[u8], from: usize, size: u64) -> &[u8]
    requires { from ≤ length bytes.now }
    ensures { result.now ≡ take size (drop from bytes.now) }
{
    let left = &bytes[from..];
    let len = (left.len() as u64).min(size);
    &left[..len as usize]
}

/// Whether the list of chunks ends before a chunk: one other than `data` of which the file has
/// fewer bytes than its size.
pub fn ends_list(id: u32, size: u64, body: &[u8]) -> bool
    ensures { MatchBool result
        ((length body.now < size) × (id ≢ data_id))
        ((size ≤ length body.now) ⊎ (id ≡ data_id)) }
{
    (body.len() as u64) < size && id != DATA
}

/// The place after a body that ends at `end`: after its pad byte, where it has one. The last pad
/// byte may be absent.
pub fn after_pad(bytes: &[u8], end: usize, body_len: usize) -> usize
    requires { end ≤ length bytes.now }
    ensures { result ≡ min (end + body_len % 2) (length bytes.now) }
{
    if body_len % 2 == 1 && end < bytes.len() {
        end + 1
    } else {
        end
    }
}
