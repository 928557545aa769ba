//! The words of a block: four bytes of one channel, with eight codes.

ghost use Rattle.std.specs.Prelude.{◌≡◌, ℕ, ◌+◌, ◌*◌, ◌/◌, ◌<◌, ◌≤◌, length};
ghost use Rattle.ima_adpcm.specs.Blocks.{word_bytes, word_codes, block_frames, code_at};
ghost use Rattle.ima_adpcm.specs.Words.{code_in};

/// The bytes of one channel's word, in the header and in each group.
pub(crate) const WORD_BYTES: usize = 4;

/// The codes of a word.
pub(crate) const WORD_CODES: usize = 8;

/// The word of channel `c` in group `group`, with its first code in the lowest bits.
pub(crate) fn word(block: &[u8], ch: u8, c: u8, group: usize) -> u32
    requires { word_bytes * ch + word_bytes * ch * group + word_bytes * c + word_bytes ≤ length block.now }
    ensures { (i : ℕ) → i < word_codes → code_in result i ≡ code_at block.now ch c (word_codes * group + i) }
{
    let group_bytes = WORD_BYTES * usize::from(ch);
    let place = group_bytes + group_bytes * group + WORD_BYTES * usize::from(c);
    u32::from_le_bytes([
        block[place],
        block[place + 1],
        block[place + 2],
        block[place + 3],
    ])
}

/// Code `i` of a word, from 0 to 7.
pub(crate) fn code_in(word: u32, i: usize) -> u8
    requires { i < word_codes }
    ensures value { result ≡ code_in word i }
    ensures bound { result < 16 }
{
    ((word >> (4 * i)) % 16) as u8
}

/// Code `j`, from 0, of channel `c` in a block of `ch` channels; it makes frame `j + 1` of the
/// channel out of frame `j`.
pub(crate) fn code(block: &[u8], ch: u8, c: u8, j: usize) -> u8
    requires channel { c < ch }
    requires there { j + 1 < block_frames (length block.now) ch }
    ensures value { result ≡ code_at block.now ch c j }
    ensures bound { result < 16 }
{
    code_in(word(block, ch, c, j / WORD_CODES), j % WORD_CODES)
}
