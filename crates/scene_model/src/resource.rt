ghost use Rattle.std.specs.Prelude.{◌≡◌, IfOk};

use crate::copies::copied_text;
use plain_data::{OutOfMemory, Text};
use std::alloc::Global;

/// A sound file under the name by which nodes refer to it.
#[derive(Debug, Drop, PartialEq, Eq)]
pub struct Resource {
    /// The name: 1 to 64 bytes of ASCII letters, digits, `_`, `-` and `.`.
    pub name: Text,
    /// The name of the WAVE file: 1 to 255 bytes.
    pub file: Text,
}

impl Resource {
    /// A copy with memory of its own.
    ///
    /// # Errors
    ///
    /// [`OutOfMemory`] where there is no memory.
    pub fn try_clone(&self, alloc: Global) -> Result<Resource, OutOfMemory>
        ensures { IfOk result (λ copy. copy ≡ self.now) }
    {
        Ok(Resource {
            name: copied_text(alloc, &self.name)?,
            file: copied_text(alloc, &self.file)?,
        })
    }
}
