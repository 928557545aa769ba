ghost use Rattle.std.specs.Prelude.{◌≡◌};
ghost use Rattle.scene_model.specs.Plans as spec;

use std::fmt;

/// What came of an edit. On each reply but `Done` nothing changed.
#[derive(Debug, Clone, Copy, PartialEq, Eq)]
pub enum Reply {
    /// The edit was made.
    Done,
    /// The node has no such output.
    NoSuchBus,
    /// The target is a sound, which has no input.
    NoInput,
    /// The bus is attached already, to the node `to`.
    AlreadyAttached { to: u32 },
    /// The bus would lead back to its own node; `node` is the target.
    Cycle { node: u32 },
    /// The bus isn't attached.
    NotAttached,
    /// The gain is above 1048576, which is 16.0.
    GainTooLarge,
    /// The node isn't a sound.
    NotSound,
}

impl Reply {
    /// Whether the edit was made.
    pub fn is_done(&self) -> bool
        ensures { result ≡ spec.is_done self.now }
    {
        matches!(self, Reply::Done)
    }
}

/// The name and then the number, if there is one, in decimal after a space.
impl fmt::Display for Reply {
    ghost use Rattle.std.specs.Prelude.{Some};
    ghost use Rattle.scene_model.specs.ReplyText.{reply_text};

    ghost output = { λ reply. Some (reply_text reply) };

    fn fmt<W: fmt::Write>(&self, f: &mut fmt::Formatter<W>) -> fmt::Result {
        match self {
            Reply::Done => f.write_str("Done"),
            Reply::NoSuchBus => f.write_str("NoSuchBus"),
            Reply::NoInput => f.write_str("NoInput"),
            Reply::AlreadyAttached { to } => write!(f, "AlreadyAttached {to}"),
            Reply::Cycle { node } => write!(f, "Cycle {node}"),
            Reply::NotAttached => f.write_str("NotAttached"),
            Reply::GainTooLarge => f.write_str("GainTooLarge"),
            Reply::NotSound => f.write_str("NotSound"),
        }
    }
}
