use std::error::Error;
use std::fmt;

/// The page that was asked for isn't shown yet.
#[derive(Clone, Copy, Debug, PartialEq, Eq)]
pub struct NotYet {
    /// How many pages were shown when it was asked for: those of the numbers below this one.
    pub shown: u32,
}

/// `not yet: shown ` and the number of pages that were shown.
impl fmt::Display for NotYet {
    ghost use Rattle.std.specs.Prelude.{Some};
    ghost use Rattle.exec_reel.specs.NotYetText.{not_yet_text};

    ghost output = { λ early. Some (not_yet_text early) };

    fn fmt<W: fmt::Write>(&self, f: &mut fmt::Formatter<W>) -> fmt::Result {
        write!(f, "not yet: shown {}", self.shown)
    }
}

impl Error for NotYet {}
