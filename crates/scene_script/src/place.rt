ghost use Rattle.std.specs.Prelude.{◌≡◌};

use crate::fault::{SceneFault, TableKind};

/// A row of a script, by its table and its number there, from 1; the number 0 stands for the table
/// as a whole.
#[derive(Clone, Copy)]
pub(crate) struct Place {
    pub(crate) table: TableKind,
    pub(crate) row: u32,
}

impl Place {
    pub(crate) fn missing_key(self) -> SceneFault
        ensures { result ≡ SceneFault.MissingKey self.table self.row }
    {
        SceneFault::MissingKey {
            table: self.table,
            row: self.row,
        }
    }

    pub(crate) fn wrong_kind(self) -> SceneFault
        ensures { result ≡ SceneFault.WrongKind self.table self.row }
    {
        SceneFault::WrongKind {
            table: self.table,
            row: self.row,
        }
    }

    pub(crate) fn unknown_key(self) -> SceneFault
        ensures { result ≡ SceneFault.UnknownKey self.table self.row }
    {
        SceneFault::UnknownKey {
            table: self.table,
            row: self.row,
        }
    }

    pub(crate) fn unknown_name(self) -> SceneFault
        ensures { result ≡ SceneFault.UnknownName self.table self.row }
    {
        SceneFault::UnknownName {
            table: self.table,
            row: self.row,
        }
    }

    pub(crate) fn double_name(self) -> SceneFault
        ensures { result ≡ SceneFault.DoubleName self.table self.row }
    {
        SceneFault::DoubleName {
            table: self.table,
            row: self.row,
        }
    }
}
