//! The edits of a script with their numbers: all of them in the order in which the scene makes them,
//! and those of one editor.

ghost use Rattle.std.specs.Prelude.{◌≡◌, ◌≤◌, length, IfOk};
ghost use Rattle.scene_model.specs.Limits as limits;
ghost use Rattle.scene_model.specs.Order as spec;

use crate::edit::EditRow;
use plain_data::{OutOfMemory, Rows};
use std::alloc::Global;

/// An edit of the script with the number of its row there.
#[derive(Debug, Clone, Copy, PartialEq, Eq)]
pub struct NumberedEdit {
    /// The number of the row among the script's edits, from 0.
    pub number: u32,
    /// The row.
    pub row: EditRow,
}

/// The edits of a script, at most 4096, in the order in which the scene makes them: in the order of
/// their frames, and those of one frame in the order of their rows.
///
/// # Errors
///
/// [`OutOfMemory`] where there is no memory; nothing has changed then.
pub fn edits_in_order(alloc: Global, rows: &[EditRow]) -> Result<Rows<NumberedEdit>, OutOfMemory>
    requires { length rows.now ≤ limits.most_edits }
    ensures { IfOk result (λ edits. edits ≡ spec.in_order rows.now) }
{
    let mut edits = Vec::new(alloc);
    for (number, row) in rows.iter().enumerate() {
        let number = number as u32;
        edits.push(NumberedEdit { number, row: *row })?;
    }
    edits.sort_by_key(|edit| edit.row.at)?;
    Ok(Rows::new(edits))
}

/// The rows of one editor with their numbers, in the order of rows.
pub(crate) fn edits_of(
    alloc: Global,
    rows: &[EditRow],
    editor: u8,
) -> Result<Rows<NumberedEdit>, OutOfMemory>
    requires { length rows.now ≤ limits.most_edits }
    ensures { IfOk result (λ edits. edits ≡ spec.edits_of editor rows.now) }
{
    let mut edits = Vec::new(alloc);
    for (number, row) in rows.iter().enumerate() {
        if row.editor == editor {
            let number = number as u32;
            edits.push(NumberedEdit { number, row: *row })?;
        }
    }
    Ok(Rows::new(edits))
}
