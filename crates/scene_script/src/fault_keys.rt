//! The keys at which the faults of rows stand.
ghost use Rattle.std.specs.Prelude.{◌≡◌, map, option_map, find, not, string_bytes};
ghost use Rattle.std.specs.BTreeMap.{keys};
ghost use Rattle.std.specs.List.{list_any};
ghost use Rattle.std.specs.Str.{bytes_eq};
ghost use Rattle.toml.specs.Data.{as_str};
ghost use Rattle.toml.specs.View.{table_view, view};
ghost use Rattle.scene_model.specs.Names.{is_name};
ghost use Rattle.scene_script.specs.FaultKeys as spec;

use crate::fault::{SceneFault, TableKind};
use crate::fields::member;
use crate::header::TOP_KEYS;
use crate::node_keys::KindWord;
use crate::op_word::OpWord;
use crate::place::Place;
use toml::{Table, Value};

/// A form of rows, by which they have their keys.
#[derive(Debug, Clone, Copy, PartialEq, Eq)]
pub enum RowForm {
    /// The top level.
    Scene,
    /// `[[resource]]`.
    Resource,
    /// `[[node]]` without a known kind.
    Node,
    /// A node of the kind `sound`.
    Sound,
    /// A node of the kind `group`.
    Group,
    /// A node of the kind `splitter`.
    Splitter,
    /// `[[bus]]`.
    Bus,
    /// `[[edit]]` without a known op.
    Edit,
    /// An edit of the op `attach`.
    Attach,
    /// An edit of the op `detach`.
    Detach,
    /// An edit of the op `gain`.
    Gain,
    /// An edit of the op `start` or `stop`.
    Switch,
    /// An edit of the op `from`, `until`, `seek` or `loop`.
    Value,
}

impl RowForm {
    /// The form of a row of a table.
    #[tactic(auto, unfolding(crate::specs::FaultKeys::row_form))]
    pub(crate) fn of(table: TableKind, row: &Table) -> RowForm
        ensures { result ≡ spec.row_form table (table_view row.now) }
    {
        let place = Place { table, row: 0 };
        match table {
            TableKind::Scene => RowForm::Scene,
            TableKind::Resource => RowForm::Resource,
            TableKind::Node => RowForm::of_node(KindWord::at(row, place)),
            TableKind::Bus => RowForm::Bus,
            TableKind::Edit => RowForm::of_edit(OpWord::at(row, place)),
        }
    }

    fn of_node(word: Result<KindWord, SceneFault>) -> RowForm
        ensures { result ≡ spec.node_form word }
    {
        match word {
            Ok(KindWord::Sound) => RowForm::Sound,
            Ok(KindWord::Group) => RowForm::Group,
            Ok(KindWord::Splitter) => RowForm::Splitter,
            Err(_) => RowForm::Node,
        }
    }

    fn of_edit(word: Result<OpWord, SceneFault>) -> RowForm
        ensures { result ≡ spec.edit_form word }
    {
        match word {
            Ok(OpWord::Attach) => RowForm::Attach,
            Ok(OpWord::Detach) => RowForm::Detach,
            Ok(OpWord::Gain) => RowForm::Gain,
            Ok(OpWord::Start | OpWord::Stop) => RowForm::Switch,
            Ok(OpWord::From | OpWord::Until | OpWord::Seek | OpWord::Loop) => RowForm::Value,
            Err(_) => RowForm::Edit,
        }
    }

    /// The keys that a row of this form may have, in the order in which they are read.
    #[tactic(auto, unfolding(crate::specs::FaultKeys::keys_of))]
    pub fn keys(self) -> &'static [&'static str]
        ensures { map (λ k. k.now) result.now ≡ spec.keys_of self }
    {
        match self {
            RowForm::Scene => &TOP_KEYS,
            RowForm::Resource => &["name", "file"],
            RowForm::Node => &["kind"],
            RowForm::Sound => &[
                "kind", "name", "resource", "loop", "started", "from", "until",
            ],
            RowForm::Group => &["kind", "name", "started", "from", "until"],
            RowForm::Splitter => &["kind", "name", "outputs", "started", "from", "until"],
            RowForm::Bus => &["node", "out", "to", "gain"],
            RowForm::Edit => &["op"],
            RowForm::Attach => &["op", "at", "node", "out", "to", "editor"],
            RowForm::Detach => &["op", "at", "node", "out", "editor"],
            RowForm::Gain => &["op", "at", "node", "out", "value", "editor"],
            RowForm::Switch => &["op", "at", "node", "editor"],
            RowForm::Value => &["op", "at", "node", "value", "editor"],
        }
    }
}

/// The keys that a row of a table may have, in the order in which they are read.
fn row_keys(table: TableKind, row: &Table) -> &'static [&'static str]
    ensures { map (λ k. k.now) result.now ≡ spec.keys_of (spec.row_form table (table_view row.now)) }
{
    RowForm::of(table, row).keys()
}

#[tactic(auto, unfolding(crate::specs::FaultKeys::optional_keys))]
fn optional_keys(table: TableKind) -> &'static [&'static str]
    ensures { map (λ k. k.now) result.now ≡ spec.optional_keys table }
{
    match table {
        TableKind::Scene => &["resource", "node", "bus", "edit"],
        TableKind::Resource => &[],
        TableKind::Node => &["loop", "started", "from", "until"],
        TableKind::Bus => &["out", "to", "gain"],
        TableKind::Edit => &["out", "editor"],
    }
}

fn is_among(keys: &[&str], key: &str) -> bool
    ensures { result ≡ spec.is_among (map (λ k. k.now) keys.now) key.now }
{
    keys.contains(&key)
}

/// The first key that a row lacks and that has no default.
#[tactic(auto, unfolding(crate::specs::FaultKeys::missing_key))]
pub(crate) fn missing_key(table: TableKind, row: &Table) -> Option<&'static str>
    ensures { option_map (λ k. k.now) result ≡ spec.missing_key table (table_view row.now) }
{
    let keys = row_keys(table, row);
    first_missing(table, row, keys)
}

fn first_missing<'a>(table: TableKind, row: &Table, keys: &[&'a str]) -> Option<&'a str>
    ensures { result ≡ find (λ key. spec.is_missing table (table_view row.now) key.now) keys.now }
{
    keys.iter().copied().find(|key| is_missing(table, row, key))
}

fn is_missing(table: TableKind, row: &Table, key: &str) -> bool
    ensures { result ≡ spec.is_missing table (table_view row.now) key.now }
{
    member(row, key).is_none() && !is_among(optional_keys(table), key)
}

/// The first key whose value is of another form than the key has.
#[tactic(auto, unfolding(crate::specs::FaultKeys::unfit_key))]
pub(crate) fn unfit_key(table: TableKind, row: &Table) -> Option<&'static str>
    ensures { option_map (λ k. k.now) result ≡ spec.unfit_key table (table_view row.now) }
{
    let keys = row_keys(table, row);
    first_unfit(row, keys)
}

fn first_unfit<'a>(row: &Table, keys: &[&'a str]) -> Option<&'a str>
    ensures { result ≡ find (λ key. spec.is_unfit (table_view row.now) key.now) keys.now }
{
    keys.iter().copied().find(|key| is_unfit(row, key))
}

fn is_unfit(row: &Table, key: &str) -> bool
    ensures { result ≡ spec.is_unfit (table_view row.now) key.now }
{
    match member(row, key) {
        Some(value) => !ValueForm::of(key).fits(value),
        None => false,
    }
}

/// What the values of a key are.
#[derive(Debug, Clone, Copy, PartialEq, Eq)]
pub(crate) enum ValueForm {
    /// The word for a kind of node.
    Kind,
    /// The word for an op.
    Op,
    /// A text.
    Words,
    /// A boolean.
    Flag,
    /// A text that has the form of a name.
    Name,
    /// An integer.
    Number,
}

impl ValueForm {
    #[tactic(auto, unfolding(crate::specs::FaultKeys::form_of))]
    fn of(key: &str) -> ValueForm
        ensures { result ≡ spec.form_of key.now }
    {
        match key {
            "kind" => ValueForm::Kind,
            "op" => ValueForm::Op,
            "file" => ValueForm::Words,
            "loop" => ValueForm::Flag,
            "started" => ValueForm::Flag,
            "name" => ValueForm::Name,
            "resource" => ValueForm::Name,
            "node" => ValueForm::Name,
            "to" => ValueForm::Name,
            _ => ValueForm::Number,
        }
    }

    fn fits(self, value: &Value) -> bool
        ensures { result ≡ spec.fits self (view value.now) }
    {
        match self {
            ValueForm::Kind => is_one_of(value, &["sound", "group", "splitter"]),
            ValueForm::Op => is_one_of(
                value,
                &[
                    "attach", "detach", "gain", "start", "stop", "from", "until", "seek", "loop",
                ],
            ),
            ValueForm::Words => value.is_str(),
            ValueForm::Flag => value.is_bool(),
            ValueForm::Name => is_name(value),
            ValueForm::Number => value.is_integer(),
        }
    }
}

fn is_one_of(value: &Value, words: &[&str]) -> bool
    ensures { result ≡ spec.is_text_of (spec.is_among (map (λ k. k.now) words.now)) (as_str (view value.now)) }
{
    match value.as_str() {
        Some(text) => is_among(words, text),
        None => false,
    }
}

fn is_name(value: &Value) -> bool
    ensures { result ≡ spec.is_text_of is_name (as_str (view value.now)) }
{
    match value.as_str() {
        Some(text) => scene_model::is_name(text),
        None => false,
    }
}

/// The first key of a row that it may not have.
#[tactic(auto, unfolding(crate::specs::FaultKeys::unknown_key))]
pub(crate) fn unknown_key<'a>(table: TableKind, row: &'a Table) -> Option<&'a String>
    ensures { option_map (λ k. string_bytes k.now) result ≡ spec.unknown_key table (table_view row.now) }
{
    let known = row_keys(table, row);
    first_unknown(row, known)
}

fn first_unknown<'a>(row: &'a Table, known: &[&str]) -> Option<&'a String>
    ensures { option_map (λ k. k.now) result ≡ find (λ key. not (list_any (λ k. bytes_eq k.now (string_bytes key)) known.now)) (keys row.now) }
{
    row.keys().find(|key| !known.contains(&key.as_str()))
}
