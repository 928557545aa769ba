//! The walk over the chunks of a file.

ghost use Rattle.std.specs.Prelude.{◌≡◌, ◌+◌, ◌≤◌, List, length};
ghost use Rattle.wave_read.specs.Chunks.{Chunk, ChunksFrom, first_chunk};
ghost use Rattle.wave_read.specs.Wave.{told_by};

use crate::chunks::{FIRST_CHUNK, HEADER_LEN, after_pad, body_at, chunk_size, ends_list};
use crate::found::Found;
use crate::numbers::u32_at;
use crate::wave::Wave;
use crate::wave_fault::WaveFault;

/// What the chunks say. The walk goes from chunk to chunk by their sizes. It ends where no id and
/// size are left, before a chunk that passes the end of the file, and after a `data` chunk that
/// does, which is taken as far as it goes.
pub fn walk(bytes: &[u8], data_size: Option<u64>) -> Result<Wave, WaveFault>
    requires { first_chunk ≤ length bytes.now }
    ensures { (chunks : List Chunk) → ChunksFrom data_size bytes.now first_chunk chunks →
        result ≡ told_by bytes.now chunks }
{
    let mut found = Found::nothing();
    let mut place = FIRST_CHUNK;
    while bytes.len() - place >= HEADER_LEN {
        let id = u32_at(bytes, place);
        let size = chunk_size(id, u32_at(bytes, place + 4), data_size);
        let from = place + HEADER_LEN;
        let body = body_at(bytes, from, size);
        if ends_list(id, size, body) {
            break;
        }
        found = found.with_chunk(id, from, body)?;
        place = after_pad(bytes, from + body.len(), body.len());
    }
    found.conclude(bytes, place)
}
