ghost use Rattle.std.specs.Prelude.{List, ℕ, Option};
ghost use Rattle.snd_io.specs.Faults.{CountsFaults};
ghost use Rattle.snd_io.specs.Answers.{put_failed, Writes};

use crate::Put;
use std::alloc::Global;

/// A sink of bytes, such as standard output.
pub trait Sink {
    /// All bytes that were written so far, where the sink tells them.
    ghost written: { Self → Option (List ℕ) };

    /// A count of faults, which never falls. A call answers `Failed` only where it rises, or stands
    /// at the last number of a u64, and every other answer leaves it as it was.
    ghost faults: { Self → ℕ };

    /// Writes the bytes, or on every answer but `Done` a prefix of them.
    fn write(&mut self, alloc: Global, bytes: &[u8]) -> Put
        ensures after { Writes result bytes.now (written self.old) (written self.new) }
        ensures cause { CountsFaults (faults self.old) (faults self.new) (put_failed result) };
}
