ghost use Rattle.std.specs.Prelude.{◌≡◌, IfOk, IfSome, option_map, string_bytes};
ghost use Rattle.scene_script.specs.FaultPlaces.{fault_place};
ghost use Rattle.hints.specs.ScriptHints as spec;

use plain_data::{OutOfMemory, Text};
use scene_model::Reply;
use scene_script::{FaultPlace, RowForm, SceneFault, TableKind, Which, locate};
use std::alloc::Global;
use std::fmt;

/// What is said of the fault of the script in the file of that name: the file, the line, the row, and what is wrong
/// there, in one line. Of a text that isn't TOML it is what the parser says, whose words have no definition.
///
/// # Errors
///
/// Want of memory.
pub fn script_hint(
    alloc: Global,
    name: &str,
    text: &[u8],
    fault: SceneFault,
) -> Result<String, OutOfMemory>
    ensures { IfOk result (λ said. IfSome (fault_place text.now fault) (λ place. string_bytes said ≡ spec.script_text name.now place fault)) }
{
    match locate(alloc, text, fault)? {
        Some(place) => fault_hint(alloc, name, &place, fault),
        None => toml_hint(alloc, name, text),
    }
}

/// What is said of a fault at a place.
fn fault_hint(
    alloc: Global,
    name: &str,
    place: &FaultPlace,
    fault: SceneFault,
) -> Result<String, OutOfMemory>
    ensures { IfOk result (λ said. string_bytes said ≡ spec.script_text name.now place.now fault) }
{
    let hint = ScriptHint { name, place, fault };
    Ok(format!(in alloc; "{hint}")?)
}

/// What the parser says of a text that isn't TOML.
fn toml_hint(alloc: Global, name: &str, text: &[u8]) -> Result<String, OutOfMemory> {
    match toml::table_from_slice(alloc, text) {
        Ok(_) => Ok(String::new(alloc)),
        Err(error) => Ok(format!(in alloc; "{name}: {error}")?),
    }
}

/// A fault of a script at its place, as it is said.
#[derive(Clone, Copy)]
struct ScriptHint<'a> {
    name: &'a str,
    place: &'a FaultPlace,
    fault: SceneFault,
}

impl fmt::Display for ScriptHint<'_> {
    ghost use Rattle.std.specs.Prelude.{Some};
    ghost use Rattle.hints.specs.ScriptHints.{script_text};

    ghost output = { λ h. Some (script_text h.name.now h.place.now h.fault) };

    #[tactic(auto, unfolding(crate::specs::ScriptHints::script_text))]
    fn fmt<W: fmt::Write>(&self, f: &mut fmt::Formatter<W>) -> fmt::Result {
        let ScriptHint { name, place, fault } = *self;
        let head = Head { name, place };
        let what = What { place, fault };
        write!(f, "{head}{what}\n")
    }
}

/// The file, the line and the row.
#[derive(Clone, Copy)]
struct Head<'a> {
    name: &'a str,
    place: &'a FaultPlace,
}

impl fmt::Display for Head<'_> {
    ghost use Rattle.std.specs.Prelude.{Some};
    ghost use Rattle.hints.specs.ScriptHints.{head_text};

    ghost output = { λ h. Some (head_text h.name.now h.place.now) };

    #[tactic(auto, unfolding(crate::specs::ScriptHints::head_text))]
    fn fmt<W: fmt::Write>(&self, f: &mut fmt::Formatter<W>) -> fmt::Result {
        let Head { name, place } = *self;
        let line = Line(place.line);
        let row = Row {
            table: place.table,
            number: place.row,
        };
        write!(f, "{name}{line}: {row}")
    }
}

/// The number of a line behind a colon.
#[derive(Clone, Copy)]
struct Line(Option<usize>);

impl fmt::Display for Line {
    ghost use Rattle.std.specs.Prelude.{Some};
    ghost use Rattle.hints.specs.ScriptHints.{line_text};

    ghost output = { λ line. Some (line_text line.0) };

    fn fmt<W: fmt::Write>(&self, f: &mut fmt::Formatter<W>) -> fmt::Result {
        match self.0 {
            Some(number) => write!(f, ":{number}"),
            None => Ok(()),
        }
    }
}

/// A row, a table as a whole, or the top level.
#[derive(Clone, Copy)]
struct Row {
    table: TableKind,
    number: usize,
}

impl fmt::Display for Row {
    ghost use Rattle.std.specs.Prelude.{Some};
    ghost use Rattle.hints.specs.ScriptHints.{row_text};

    ghost output = { λ r. Some (row_text r.table r.number) };

    fn fmt<W: fmt::Write>(&self, f: &mut fmt::Formatter<W>) -> fmt::Result {
        let Row { table, number } = *self;
        match table {
            TableKind::Scene => f.write_str("the top level"),
            TableKind::Resource | TableKind::Node | TableKind::Bus | TableKind::Edit => {
                let row = NumberedRow {
                    table: table.name(),
                    number,
                };
                write!(f, "{row}")
            }
        }
    }
}

/// A row of a table by its number, or the table as a whole.
#[derive(Clone, Copy)]
struct NumberedRow<'a> {
    table: &'a str,
    number: usize,
}

impl fmt::Display for NumberedRow<'_> {
    ghost use Rattle.std.specs.Prelude.{Some};
    ghost use Rattle.hints.specs.ScriptHints.{numbered_row};

    ghost output = { λ r. Some (numbered_row r.table.now r.number) };

    fn fmt<W: fmt::Write>(&self, f: &mut fmt::Formatter<W>) -> fmt::Result {
        let NumberedRow { table, number } = *self;
        if number == 0 {
            write!(f, "[[{table}]]")
        } else {
            write!(f, "row {number} of [[{table}]]")
        }
    }
}

/// What is wrong at a place.
#[derive(Clone, Copy)]
struct What<'a> {
    place: &'a FaultPlace,
    fault: SceneFault,
}

impl fmt::Display for What<'_> {
    ghost use Rattle.std.specs.Prelude.{Some};
    ghost use Rattle.hints.specs.ScriptHints.{what_text};

    ghost output = { λ h. Some (what_text h.place.now h.fault) };

    #[tactic(auto, unfolding(crate::specs::ScriptHints::what_text))]
    fn fmt<W: fmt::Write>(&self, f: &mut fmt::Formatter<W>) -> fmt::Result {
        let What { place, fault } = *self;
        let key = key_text(&place.key);
        let (what, keys) = (noun(place.form), keys_text(place.form));
        match fault {
            SceneFault::NotToml => f.write_str(" isn't TOML"),
            SceneFault::Version { n } => {
                write!(f, " has the version {n}, and only version 1 is read")
            }
            SceneFault::MissingKey { .. } => write!(f, " lacks the key \"{key}\" ({keys})"),
            SceneFault::WrongKind { .. } => {
                let misfit = Misfit(&place.key);
                write!(f, "{misfit}")
            }
            SceneFault::UnknownKey { .. } => write!(
                f,
                " has the key \"{key}\", which {what} doesn't have ({keys})"
            ),
            SceneFault::UnknownName { .. } => {
                write!(f, " names at \"{key}\" what no row of that name is")
            }
            SceneFault::DoubleName { .. } => f.write_str(
                " has the name of an earlier row, or that of the endpoint: give it another one",
            ),
            SceneFault::Limit { which, found, .. } => {
                let number = Number { key, which };
                let range = range_text(which);
                write!(f, " has {found}{number}, where {range} allowed")
            }
            SceneFault::EditRefused { reply, .. } => {
                let reason = reply_hint(reply);
                write!(f, " {reason}")
            }
        }
    }
}

/// A value of another form than that of its key, or a table that isn't written as rows.
#[derive(Clone, Copy)]
struct Misfit<'a>(&'a Option<Text>);

impl fmt::Display for Misfit<'_> {
    ghost use Rattle.std.specs.Prelude.{Some};
    ghost use Rattle.hints.specs.ScriptHints.{misfit_text};

    ghost output = { λ h. Some (misfit_text h.0.now) };

    fn fmt<W: fmt::Write>(&self, f: &mut fmt::Formatter<W>) -> fmt::Result {
        match self.0 {
            Some(key) => {
                let (key, value) = (key.as_str(), wanted(key.as_str()));
                write!(f, " needs another value at \"{key}\": {value}")
            }
            None => f.write_str(
                " isn't a list of rows: write the name of the table in two brackets, as [[node]], above each row",
            ),
        }
    }
}

/// A number that is out of its limits, at a key or as a count.
#[derive(Clone, Copy)]
struct Number<'a> {
    key: &'a str,
    which: Which,
}

impl fmt::Display for Number<'_> {
    ghost use Rattle.std.specs.Prelude.{Some};
    ghost use Rattle.hints.specs.ScriptHints.{number_text, counted};

    ghost output = { λ h. Some (number_text h.key.now (counted h.which)) };

    fn fmt<W: fmt::Write>(&self, f: &mut fmt::Formatter<W>) -> fmt::Result {
        let Number { key, which } = *self;
        match counted(which) {
            Some(what) => f.write_str(what),
            None => write!(f, " at \"{key}\""),
        }
    }
}

/// The key, where the fault has one.
fn key_text(key: &Option<Text>) -> &str
    ensures { result.now ≡ spec.key_text key.now }
{
    match key {
        Some(key) => key.as_str(),
        None => "",
    }
}

/// What a row of a form is.
#[tactic(auto, unfolding(crate::specs::ScriptHints::noun))]
fn noun(form: RowForm) -> &'static str
    ensures { result.now ≡ spec.noun form }
{
    match form {
        RowForm::Scene => "a scene",
        RowForm::Resource => "a resource",
        RowForm::Node => "a node",
        RowForm::Sound => "a sound",
        RowForm::Group => "a group",
        RowForm::Splitter => "a splitter",
        RowForm::Bus => "a bus",
        RowForm::Edit => "an edit",
        RowForm::Attach => "this op",
        RowForm::Detach => "this op",
        RowForm::Gain => "this op",
        RowForm::Switch => "this op",
        RowForm::Value => "this op",
    }
}

/// The keys that it may have.
#[tactic(auto, unfolding(crate::specs::ScriptHints::keys_text))]
fn keys_text(form: RowForm) -> &'static str
    ensures { result.now ≡ spec.keys_text form }
{
    match form {
        RowForm::Scene => "version, rate, channels, width, length, resource, node, bus, edit",
        RowForm::Resource => "name, file",
        RowForm::Node => "kind",
        RowForm::Sound => "kind, name, resource, loop, started, from, until",
        RowForm::Group => "kind, name, started, from, until",
        RowForm::Splitter => "kind, name, outputs, started, from, until",
        RowForm::Bus => "node, out, to, gain",
        RowForm::Edit => "op",
        RowForm::Attach => "op, at, node, out, to, editor",
        RowForm::Detach => "op, at, node, out, editor",
        RowForm::Gain => "op, at, node, out, value, editor",
        RowForm::Switch => "op, at, node, editor",
        RowForm::Value => "op, at, node, value, editor",
    }
}

/// The values that a key may have.
#[tactic(auto, unfolding(crate::specs::ScriptHints::wanted))]
fn wanted(key: &str) -> &'static str
    ensures { result.now ≡ spec.wanted key.now }
{
    match key {
        "kind" => "sound, group or splitter",
        "op" => "attach, detach, gain, start, stop, from, until, seek or loop",
        "file" => "a text",
        "loop" => "true or false",
        "started" => "true or false",
        "name" => "a text of 1 to 64 letters, digits, `_`, `-` and `.`",
        "resource" => "a text of 1 to 64 letters, digits, `_`, `-` and `.`",
        "node" => "a text of 1 to 64 letters, digits, `_`, `-` and `.`",
        "to" => "a text of 1 to 64 letters, digits, `_`, `-` and `.`",
        _ => "a whole number",
    }
}

/// What a number counts, where it is no value of a key.
#[tactic(auto, unfolding(crate::specs::ScriptHints::counted))]
fn counted(which: Which) -> Option<&'static str>
    ensures { option_map (λ t. t.now) result ≡ spec.counted which }
{
    match which {
        Which::Rate => None,
        Which::Channels => None,
        Which::Width => None,
        Which::Length => None,
        Which::Resources => Some(" rows"),
        Which::FileName => Some(" bytes at \"file\""),
        Which::Nodes => Some(" rows"),
        Which::Outputs => None,
        Which::From => None,
        Which::Until => None,
        Which::Buses => Some(" outputs of its rows together"),
        Which::BusRows => Some(" rows"),
        Which::Edits => Some(" rows"),
        Which::Out => None,
        Which::Gain => None,
        Which::At => None,
        Which::Value => None,
        Which::Editor => None,
        Which::LiveLength => None,
    }
}

/// The numbers that are allowed.
#[tactic(auto, unfolding(crate::specs::ScriptHints::range_text))]
fn range_text(which: Which) -> &'static str
    ensures { result.now ≡ spec.range_text which }
{
    match which {
        Which::Rate => "1 to 768000 Hz are",
        Which::Channels => "1 or 2 is",
        Which::Width => "16 or 24 is",
        Which::Length => "0 to 16777216 frames are",
        Which::Resources => "at most 64 are",
        Which::FileName => "1 to 255 are",
        Which::Nodes => "at most 128 are",
        Which::Outputs => "2 to 4 are",
        Which::From => "0 to 16777216 frames are",
        Which::Until => "0 to 16777216 frames are",
        Which::Buses => "at most 256 are",
        Which::BusRows => "at most 256 are",
        Which::Edits => "at most 4096 are",
        Which::Out => "0 to 255 is",
        Which::Gain => "0 to 1048576 is",
        Which::At => "0 to 16777216 frames are",
        Which::Value =>
            "0 to 1048576 for a gain, 0 to 16777216 for a time, 0 to 140737488355327 for a place and 0 or 1 for a loop is",
        Which::Editor => "0 to 3 is",
        Which::LiveLength => "fewer are",
    }
}

/// Why an edit isn't made, and what to do.
#[tactic(auto, unfolding(crate::specs::ScriptHints::reply_hint))]
fn reply_hint(reply: Reply) -> &'static str
    ensures { result.now ≡ spec.reply_hint reply }
{
    match reply {
        Reply::Done => "is done",
        Reply::NoSuchBus =>
            "names an output that its node doesn't have: a sound and a group have output 0, a splitter 0 up to one less than its outputs",
        Reply::NoInput =>
            "leads to a sound, which has no input: attach to a group, a splitter or the endpoint",
        Reply::AlreadyAttached { .. } =>
            "attaches an output that is attached already: detach it first, or use a splitter",
        Reply::Cycle { .. } => "leads back to its own node: break the ring",
        Reply::NotAttached =>
            "detaches an output that isn't attached there: look at the edits before it",
        Reply::GainTooLarge => "has a gain above 1048576, which is 16.0: lower it",
        Reply::NotSound =>
            "names a group or a splitter, where only a sound has a place to play from",
    }
}
