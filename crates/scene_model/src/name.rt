//! The form of names.

ghost use Rattle.std.specs.Prelude.{◌≡◌};
ghost use Rattle.scene_model.specs.Names as spec;

use crate::limits::{MAX_FILE_NAME_BYTES, MAX_NAME_BYTES};

/// Whether a text may name a resource or a node: 1 to 64 bytes, each an ASCII letter or digit, `_`,
/// `-` or `.`.
pub fn is_name(text: &str) -> bool
    ensures { result ≡ spec.is_name text.now }
{
    !text.is_empty() && text.len() <= MAX_NAME_BYTES && has_only_name_bytes(text)
}

/// Whether a text may name a sound file: 1 to 255 bytes.
pub fn is_file_name(text: &str) -> bool
    ensures { result ≡ spec.is_file_name text.now }
{
    !text.is_empty() && text.len() <= MAX_FILE_NAME_BYTES
}

fn has_only_name_bytes(text: &str) -> bool
    ensures { result ≡ spec.has_only_name_bytes text.now }
{
    text.bytes().all(|byte| is_name_byte(byte))
}

fn is_name_byte(byte: u8) -> bool
    ensures { result ≡ spec.is_name_byte byte }
{
    byte.is_ascii_alphanumeric() || matches!(byte, b'_' | b'-' | b'.')
}
