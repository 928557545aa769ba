ghost use Rattle.std.specs.Prelude.{◌≡◌};

use snd_io::{Put, Sink};
use std::alloc::Global;
use std::io::Write;

/// A stream of the system that takes text, such as standard output. It tells nothing of what was
/// written. Its count of faults rises at each error of the system.
#[derive(Drop)]
pub struct TextOut<W: Write + Drop> {
    stream: W,
    faults: u64,
}

impl<W: Write + Drop> TextOut<W> {
    /// The text that goes to this stream, with no fault so far.
    pub fn new(stream: W) -> Self
        ensures { ⟦<TextOut<W> as Sink>⟧.faults result ≡ 0 }
    {
        TextOut { stream, faults: 0 }
    }
}

impl<W: Write + Drop> Sink for TextOut<W> {
    ghost use Rattle.std.specs.Prelude.{None};

    ghost written = { λ text. None };

    ghost faults = { λ text. text.faults };

    fn write(&mut self, _alloc: Global, bytes: &[u8]) -> Put {
        if self.stream.write_all(bytes).is_ok() && self.stream.flush().is_ok() {
            Put::Done
        } else {
            self.faults = self.faults.saturating_add(1);
            Put::Failed
        }
    }
}
