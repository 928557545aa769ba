ghost use Rattle.std.specs.Prelude.{◌≡◌, ◌≤◌, ◌<◌, ◌^◌, map, option_map, IfOk, IsTrue};
ghost use Rattle.std.specs.BTreeMap.{keys};
ghost use Rattle.std.specs.List.{list_all, list_any};
ghost use Rattle.std.specs.Str.{bytes_eq};
ghost use Rattle.std.specs.String.{string_bytes};
ghost use Rattle.toml.specs.Data.{get_member};
ghost use Rattle.toml.specs.View.{table_view, view};
ghost use Rattle.scene_model.specs.Names.{is_name};
ghost use Rattle.scene_script.specs.Fields as spec;
ghost use Rattle.scene_script.specs.Reads.{Reads};

use crate::bounds::Bounds;
use crate::fault::{SceneFault, Which};
use crate::place::Place;
use toml::{Table, Value};

const OUT: Bounds = Bounds {
    which: Which::Out,
    least: 0,
    most: 255,
};

/// Tests that a row has no key but the known ones.
#[tactic(auto, unfolding(crate::specs::Fields::known_keys))]
pub(crate) fn known_keys(table: &Table, place: Place, known: &[&str]) -> Result<(), SceneFault>
    ensures { result ≡ spec.known_keys place (map (λ k. k.now) known.now) (table_view table.now) }
{
    if has_only_keys(table, known) {
        Ok(())
    } else {
        Err(place.unknown_key())
    }
}

/// Whether a row has no key but the known ones.
fn has_only_keys(table: &Table, known: &[&str]) -> bool
    ensures { result ≡ spec.has_only_keys (map (λ k. k.now) known.now) (table_view table.now) }
{
    keys_are_among(table, known)
}

/// Whether each key of the map is one of those known.
fn keys_are_among(table: &Table, known: &[&str]) -> bool
    ensures { result ≡ list_all (λ key. list_any (λ k. bytes_eq k.now (string_bytes key)) known.now) (keys table.now) }
{
    table.keys().all(|key| known.contains(&key.as_str()))
}

/// The value at a key.
pub(crate) fn member<'a>(table: &'a Table, key: &str) -> Option<&'a Value>
    ensures { option_map (λ v. view v.now) result ≡ get_member key.now (table_view table.now) }
{
    table.get(key)
}

/// The integer at a key, which needs to be there, in its bounds.
#[tactic(auto, unfolding(crate::specs::Fields::number_at))]
pub(crate) fn number(
    table: &Table,
    place: Place,
    key: &str,
    bounds: Bounds,
) -> Result<u64, SceneFault>
    requires { bounds.most < 2 ^ 63 }
    ensures value { result ≡ spec.number_at place key.now bounds (table_view table.now) }
    ensures least { IfOk result (λ n. bounds.least ≤ n) }
    ensures most { IfOk result (λ n. n ≤ bounds.most) }
{
    match member(table, key) {
        Some(value) => number_of(value, place, bounds),
        None => Err(place.missing_key()),
    }
}

/// The integer at a key in its bounds, or the default where the key is absent.
#[tactic(auto, unfolding(crate::specs::Fields::number_or))]
pub(crate) fn number_or(
    table: &Table,
    place: Place,
    key: &str,
    bounds: Bounds,
    default: u32,
) -> Result<u64, SceneFault>
    requires bounds { bounds.most < 2 ^ 63 }
    requires default { default ≤ bounds.most }
    ensures value { result ≡ spec.number_or place key.now bounds default (table_view table.now) }
    ensures most { IfOk result (λ n. n ≤ bounds.most) }
{
    match member(table, key) {
        Some(value) => number_of(value, place, bounds),
        None => Ok(u64::from(default)),
    }
}

/// The number of an output, 0 where it is absent.
#[tactic(auto, unfolding(crate::specs::Fields::output_at))]
pub(crate) fn output(table: &Table, place: Place) -> Result<u8, SceneFault>
    ensures { result ≡ spec.output_at place (table_view table.now) }
{
    let out = number_or(table, place, "out", OUT, 0)?;
    Ok(out as u8)
}

/// The integer that a value is, in its bounds.
fn number_of(value: &Value, place: Place, bounds: Bounds) -> Result<u64, SceneFault>
    requires { bounds.most < 2 ^ 63 }
    ensures value { result ≡ spec.number_of place bounds (view value.now) }
    ensures least { IfOk result (λ n. bounds.least ≤ n) }
    ensures most { IfOk result (λ n. n ≤ bounds.most) }
{
    match value.as_integer() {
        Some(number) => bounds.checked(number),
        None => Err(place.wrong_kind()),
    }
}

/// The integer at a key, which needs to be there.
#[tactic(auto, unfolding(crate::specs::Fields::integer_at))]
pub(crate) fn integer(table: &Table, place: Place, key: &str) -> Result<i64, SceneFault>
    ensures { result ≡ spec.integer_at place key.now (table_view table.now) }
{
    match member(table, key) {
        Some(value) => value.as_integer().ok_or(place.wrong_kind()),
        None => Err(place.missing_key()),
    }
}

/// The boolean at a key, or the default where the key is absent.
#[tactic(auto, unfolding(crate::specs::Fields::flag_or))]
pub(crate) fn flag_or(
    table: &Table,
    place: Place,
    key: &str,
    default: bool,
) -> Result<bool, SceneFault>
    ensures { result ≡ spec.flag_or place key.now default (table_view table.now) }
{
    match member(table, key) {
        Some(Value::Boolean(flag)) => Ok(*flag),
        Some(_) => Err(place.wrong_kind()),
        None => Ok(default),
    }
}

/// The text at a key, which needs to be there.
#[tactic(auto, unfolding(crate::specs::Fields::text_at))]
pub(crate) fn text<'a>(table: &'a Table, place: Place, key: &str) -> Result<&'a str, SceneFault>
    ensures { Reads result (spec.text_at place key.now (table_view table.now)) }
{
    match member(table, key) {
        Some(value) => text_of(value, place),
        None => Err(place.missing_key()),
    }
}

/// The text that a value is.
fn text_of(value: &Value, place: Place) -> Result<&str, SceneFault>
    ensures { Reads result (spec.text_of place (view value.now)) }
{
    value.as_str().ok_or(place.wrong_kind())
}

/// The name at a key, which needs to be there.
#[tactic(auto, unfolding(crate::specs::Fields::name_at))]
pub(crate) fn name<'a>(table: &'a Table, place: Place, key: &str) -> Result<&'a str, SceneFault>
    ensures value { Reads result (spec.name_at place key.now (table_view table.now)) }
    ensures is_name { IfOk result (λ name. IsTrue (is_name name.now)) }
{
    match member(table, key) {
        Some(value) => name_of(value, place),
        None => Err(place.missing_key()),
    }
}

/// The name that a value is.
fn name_of(value: &Value, place: Place) -> Result<&str, SceneFault>
    ensures value { Reads result (spec.name_of place (view value.now)) }
    ensures is_name { IfOk result (λ name. IsTrue (is_name name.now)) }
{
    let text = text_of(value, place)?;
    if scene_model::is_name(text) {
        Ok(text)
    } else {
        Err(place.wrong_kind())
    }
}
