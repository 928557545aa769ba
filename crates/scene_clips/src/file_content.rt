//! The bytes of a file, which only contracts read.

ghost use Rattle.std.specs.Prelude.{◌≡◌, ℕ, List};
ghost use Rattle.std.specs.Borrow.{ftrue};

use std::marker::Model;

/// The content of a file whose bytes are not kept. It takes no memory: contracts alone read its
/// `bytes`.
#[derive(Drop)]
pub struct FileContent {
    pub ghost bytes: { List ℕ },
}

impl Model for FileContent {
    ghost also_owns = { λ _. ftrue };
}

// A struct with `also_owns` has neither by itself. This one owns nothing.
unsafe impl Send for FileContent {}

unsafe impl Sync for FileContent {}

impl FileContent {
    /// The content of the file of these bytes.
    pub(crate) fn of(_bytes: &[u8]) -> FileContent
        ensures { result.bytes ≡ _bytes.now }
    {
        FileContent {}
    }
}
