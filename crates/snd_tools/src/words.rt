ghost use Rattle.std.specs.Prelude.{◌≡◌};
ghost use Rattle.snd_tools.specs.Commands as spec;

/// The most bytes of a path.
const MAX_PATH_BYTES: usize = 255;

/// The most bytes of the names that generated files begin with.
const MAX_PREFIX_BYTES: usize = 64;

/// The most digits of NUMBER of `gen`.
pub(crate) const MAX_NUMBER_DIGITS: usize = 10;

/// The greatest NUMBER of `gen`.
pub(crate) const MAX_NUMBER: u32 = 4_294_967_295;

/// The most digits of COUNT of `fx`.
pub(crate) const MAX_COUNT_DIGITS: usize = 8;

pub(crate) fn is_path(word: &str) -> bool
    ensures { result ≡ spec.is_path word.now }
{
    1 <= word.len() && word.len() <= MAX_PATH_BYTES
}

/// Whether a word is 1 to 64 bytes, each an ASCII letter or digit, `_`, `-`, `.` or `/`.
pub(crate) fn is_prefix(word: &str) -> bool
    ensures { result ≡ spec.is_prefix word.now }
{
    1 <= word.len() && word.len() <= MAX_PREFIX_BYTES && has_only_prefix_bytes(word)
}

fn has_only_prefix_bytes(word: &str) -> bool
    ensures { result ≡ spec.has_only_prefix_bytes word.now }
{
    word.bytes().all(|byte| is_prefix_byte(byte))
}

fn is_prefix_byte(byte: u8) -> bool
    ensures { result ≡ spec.is_prefix_byte byte }
{
    byte.is_ascii_alphanumeric() || matches!(byte, b'_' | b'-' | b'.' | b'/')
}
