//! The lines of a text, as an editor counts them.
ghost use Rattle.std.specs.Prelude.{◌≡◌, IfOk, option_map, slice_get};
ghost use Rattle.memchr.specs.Find.{matches};
ghost use Rattle.scene_script.specs.Lines as spec;

use crate::fault::TableKind;
use memchr::memmem;
use plain_data::OutOfMemory;
use std::alloc::Global;

/// The line of a table's row of that number, from 1, where the table has that many rows and each of
/// them its own header.
#[tactic(auto, unfolding(crate::specs::Lines::row_line))]
pub(crate) fn row_line(
    alloc: Global,
    text: &[u8],
    table: TableKind,
    rows: usize,
    row: usize,
) -> Result<Option<usize>, OutOfMemory>
    ensures { IfOk result (λ line. line ≡ spec.row_line table rows row text.now) }
{
    if row == 0 || !has_plain_lines(alloc, text)? {
        return Ok(None);
    }
    let headers = places(alloc, text, header_of(table))?;
    if headers.len() == rows {
        Ok(line_of(text, headers.as_slice(), row - 1))
    } else {
        Ok(None)
    }
}

/// The line behind the newline of that number among those at some places.
fn line_of(text: &[u8], places: &[usize], number: usize) -> Option<usize>
    ensures { result ≡ option_map (spec.line_behind text.now) (slice_get places.now number) }
{
    match places.get(number) {
        Some(place) => Some(line_behind(text, *place)),
        None => None,
    }
}

/// Whether a text has no string of several lines.
fn has_plain_lines(alloc: Global, text: &[u8]) -> Result<bool, OutOfMemory>
    ensures { IfOk result (λ plain. plain ≡ spec.has_plain_lines text.now) }
{
    let basic = places(alloc, text, b"\"\"\"")?;
    let literal = places(alloc, text, b"'''")?;
    Ok(basic.len() == 0 && literal.len() == 0)
}

/// A newline, and then the header of a row.
fn header_of(table: TableKind) -> &'static [u8]
    ensures { result.now ≡ spec.header_of table }
{
    match table {
        TableKind::Scene => b"\n[[scene]]",
        TableKind::Resource => b"\n[[resource]]",
        TableKind::Node => b"\n[[node]]",
        TableKind::Bus => b"\n[[bus]]",
        TableKind::Edit => b"\n[[edit]]",
    }
}

/// The places at which a word stands in a text, in order.
fn places(alloc: Global, text: &[u8], word: &[u8]) -> Result<Vec<usize>, OutOfMemory>
    ensures { IfOk result (λ v. v.items ≡ matches text.now word.now 0) }
{
    Ok(memmem::find_iter(text, word).collect(alloc)?)
}

/// The number of the line that begins behind the newline at that place.
fn line_behind(text: &[u8], place: usize) -> usize
    ensures { result ≡ spec.line_behind text.now place }
{
    let upto = text.len().min(place.saturating_add(1));
    text[..upto].iter().filter(|byte| **byte == b'\n').count() + 1
}
