use scene_model::Reply;
use std::error::Error;
use std::fmt;

/// A table of a script: its top level, or a kind of row.
#[derive(Debug, Clone, Copy, PartialEq, Eq)]
pub enum TableKind {
    /// The top level.
    Scene,
    /// `[[resource]]`.
    Resource,
    /// `[[node]]`.
    Node,
    /// `[[bus]]`.
    Bus,
    /// `[[edit]]`.
    Edit,
}

/// A number of a scene that has a limit.
#[derive(Debug, Clone, Copy, PartialEq, Eq)]
pub enum Which {
    /// The sample rate in Hz, 1 to 768000.
    Rate,
    /// The number of channels, 1 to 2.
    Channels,
    /// The bits of a sample of the output, 16 or 24.
    Width,
    /// The length in frames, 0 to 16777216.
    Length,
    /// The number of rows of `resource`, at most 64.
    Resources,
    /// The bytes of the name of a sound file, 1 to 255.
    FileName,
    /// The number of rows of `node`, at most 128.
    Nodes,
    /// The outputs of a splitter, 2 to 4.
    Outputs,
    /// The first frame at which a node may be active, 0 to 16777216.
    From,
    /// The frame from which on a node is no longer active, 0 to 16777216.
    Until,
    /// The number of output buses of all nodes, at most 256.
    Buses,
    /// The number of rows of `bus`, at most 256.
    BusRows,
    /// The number of rows of `edit`, at most 4096.
    Edits,
    /// The number of an output of a node, 0 to 255.
    Out,
    /// The gain of a row of `bus` in 1/65536, 0 to 4294967295.
    Gain,
    /// The frame of an edit, 0 to 16777216.
    At,
    /// The value of an edit: 0 to 4294967295 for a gain, 0 to 16777216 for a time, 0 to
    /// 140737488355327 for a place, 0 to 1 for a loop.
    Value,
    /// The editor of an edit, 0 to 3.
    Editor,
    /// The length of a scene that is played live. No reader of a script gives it.
    LiveLength,
}

/// Why a text is no script of a scene. `row` counts the rows of `table` from 1; the number 0 stands
/// for the table as a whole.
#[derive(Debug, Clone, Copy, PartialEq, Eq)]
pub enum SceneFault {
    /// The bytes aren't a TOML document.
    NotToml,
    /// The version of the script's form is `n`, another than 1.
    Version {
        n: i64,
    },
    /// A key without a default is absent.
    MissingKey {
        table: TableKind,
        row: u32,
    },
    /// A value is of another type than its key has, `kind` or `op` is no known word, a name hasn't
    /// the form of names, or `resource`, `node`, `bus` or `edit` isn't an array of tables.
    WrongKind {
        table: TableKind,
        row: u32,
    },
    /// A key is none of those of its table, or none that its kind of node or edit has.
    UnknownKey {
        table: TableKind,
        row: u32,
    },
    /// The row refers to a resource or a node by a name that no row has.
    UnknownName {
        table: TableKind,
        row: u32,
    },
    /// An earlier row of the table has the name, or a node is named `endpoint`.
    DoubleName {
        table: TableKind,
        row: u32,
    },
    /// A number is out of its limits. `limit` is the greatest that is allowed where `found` is above
    /// it, and the least one otherwise; for the width it is 24.
    Limit {
        which: Which,
        found: i64,
        limit: i64,
    },
    /// An edit that the row stands for isn't made: its reply isn't `Done`.
    EditRefused {
        table: TableKind,
        row: u32,
        reply: Reply,
    },
}

impl TableKind {
    ghost use Rattle.std.specs.Prelude.{◌≡◌};
    ghost use Rattle.scene_script.specs.FaultText.{table_text};

    /// The name of the table, in small letters. It is the key of its rows at the top level.
    pub fn name(self) -> &'static str
        ensures { result.now ≡ table_text self }
    {
        match self {
            TableKind::Scene => "scene",
            TableKind::Resource => "resource",
            TableKind::Node => "node",
            TableKind::Bus => "bus",
            TableKind::Edit => "edit",
        }
    }
}

/// The name of the table, in small letters.
impl fmt::Display for TableKind {
    ghost use Rattle.std.specs.Prelude.{Some};
    ghost use Rattle.scene_script.specs.FaultText.{table_text};

    ghost output = { λ table. Some (table_text table) };

    fn fmt<W: fmt::Write>(&self, f: &mut fmt::Formatter<W>) -> fmt::Result {
        match self {
            TableKind::Scene => f.write_str("scene"),
            TableKind::Resource => f.write_str("resource"),
            TableKind::Node => f.write_str("node"),
            TableKind::Bus => f.write_str("bus"),
            TableKind::Edit => f.write_str("edit"),
        }
    }
}

/// The name of the number.
impl fmt::Display for Which {
    ghost use Rattle.std.specs.Prelude.{Some};
    ghost use Rattle.scene_script.specs.FaultText.{which_text};

    ghost output = { λ which. Some (which_text which) };

    fn fmt<W: fmt::Write>(&self, f: &mut fmt::Formatter<W>) -> fmt::Result {
        match self {
            Which::Rate => f.write_str("Rate"),
            Which::Channels => f.write_str("Channels"),
            Which::Width => f.write_str("Width"),
            Which::Length => f.write_str("Length"),
            Which::Resources => f.write_str("Resources"),
            Which::FileName => f.write_str("FileName"),
            Which::Nodes => f.write_str("Nodes"),
            Which::Outputs => f.write_str("Outputs"),
            Which::From => f.write_str("From"),
            Which::Until => f.write_str("Until"),
            Which::Buses => f.write_str("Buses"),
            Which::BusRows => f.write_str("BusRows"),
            Which::Edits => f.write_str("Edits"),
            Which::Out => f.write_str("Out"),
            Which::Gain => f.write_str("Gain"),
            Which::At => f.write_str("At"),
            Which::Value => f.write_str("Value"),
            Which::Editor => f.write_str("Editor"),
            Which::LiveLength => f.write_str("LiveLength"),
        }
    }
}

/// The fault's name and then its fields in order, each after a space.
impl fmt::Display for SceneFault {
    ghost use Rattle.std.specs.Prelude.{Some};
    ghost use Rattle.scene_script.specs.FaultText.{fault_text};

    ghost output = { λ fault. Some (fault_text fault) };

    fn fmt<W: fmt::Write>(&self, f: &mut fmt::Formatter<W>) -> fmt::Result {
        match *self {
            SceneFault::NotToml => f.write_str("NotToml"),
            SceneFault::Version { n } => write!(f, "Version {n}"),
            SceneFault::MissingKey { table, row } => { write!(f, "MissingKey {table} {row}") }
            SceneFault::WrongKind { table, row } => { write!(f, "WrongKind {table} {row}") }
            SceneFault::UnknownKey { table, row } => { write!(f, "UnknownKey {table} {row}") }
            SceneFault::UnknownName { table, row } => { write!(f, "UnknownName {table} {row}") }
            SceneFault::DoubleName { table, row } => { write!(f, "DoubleName {table} {row}") }
            SceneFault::Limit {
                which,
                found,
                limit,
            } => write!(f, "Limit {which} {found} {limit}"),
            SceneFault::EditRefused { table, row, reply } => {
                write!(f, "EditRefused {table} {row} {reply}")
            }
        }
    }
}

impl Error for SceneFault {}
