use std::error::Error;
use std::fmt;

/// The page that comes next was in no buffer that the listener knew.
#[derive(Clone, Copy, Debug, PartialEq, Eq)]
pub struct NotLoaded;

/// `not loaded`.
impl fmt::Display for NotLoaded {
    ghost use Rattle.std.specs.Prelude.{Some};
    ghost use Rattle.stream_reel.specs.NotLoadedText.{not_loaded_text};

    ghost output = { λ _. Some not_loaded_text };

    fn fmt<W: fmt::Write>(&self, f: &mut fmt::Formatter<W>) -> fmt::Result {
        write!(f, "not loaded")
    }
}

impl Error for NotLoaded {}
