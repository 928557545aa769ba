ghost use Rattle.std.specs.Prelude.{◌≡◌, IfOk};
ghost use Rattle.scene_model.specs.Buses.{outputs};

use crate::copies::copied_text;
use plain_data::{OutOfMemory, Text};
use std::alloc::Global;

/// What a node is, and so how many inputs and outputs it has.
#[derive(Debug, Clone, Copy, PartialEq, Eq)]
pub enum NodeKind {
    /// A sound: no input, one output.
    Sound {
        /// The number of the resource that it plays, from 0.
        resource: u32,
        /// Whether it starts again at the end of the resource.
        looped: bool,
    },
    /// A group: one input, which it passes on to its one output.
    Group,
    /// A splitter: one input, which it passes on to each of its outputs.
    Splitter {
        /// The number of outputs, 2 to 4.
        outputs: u8,
    },
}

/// A node as the script has it, before the first edit. It is active at frame `t` where it is
/// started and `from <= t < until`.
#[derive(Debug, Drop, PartialEq, Eq)]
pub struct Node {
    /// The name: 1 to 64 bytes of ASCII letters, digits, `_`, `-` and `.`.
    pub name: Text,
    /// Sound, group or splitter.
    pub kind: NodeKind,
    /// Whether it is started.
    pub started: bool,
    /// The first frame at which it may be active, 0 to 16777216.
    pub from: u32,
    /// The frame from which on it is no longer active, 0 to 16777216. It is never active where this
    /// is at most `from`.
    pub until: u32,
}

impl NodeKind {
    /// The number of output buses of a node of this kind: one for a sound and a group.
    pub fn outputs(&self) -> u8
        ensures { result ≡ outputs self.now }
    {
        match self {
            NodeKind::Sound { .. } | NodeKind::Group => 1,
            NodeKind::Splitter { outputs } => *outputs,
        }
    }
}

impl Node {
    /// A copy with memory of its own.
    ///
    /// # Errors
    ///
    /// [`OutOfMemory`] where there is no memory.
    pub fn try_clone(&self, alloc: Global) -> Result<Node, OutOfMemory>
        ensures { IfOk result (λ copy. copy ≡ self.now) }
    {
        Ok(Node {
            name: copied_text(alloc, &self.name)?,
            kind: self.kind,
            started: self.started,
            from: self.from,
            until: self.until,
        })
    }
}
