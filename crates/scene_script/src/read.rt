ghost use Rattle.toml.specs.View.{table_view};
ghost use Rattle.scene_script.specs.Checked.{Gives, GivesAs};
ghost use Rattle.scene_script.specs.Script as spec;

use crate::bus_rows::read_buses;
use crate::edit_rows::read_edits;
use crate::fault::SceneFault;
use crate::header::Header;
use crate::node_rows::read_nodes;
use crate::placed_edit::check_edits;
use crate::resource_rows::read_resources;
use crate::script_error::ScriptError;
use scene_model::Scene;
use std::alloc::Global;
use toml::Table;

/// Reads a scene from its script, a TOML document: the scene exactly where the text has no fault,
/// and the first fault otherwise. The text may have any length: the caller limits it.
///
/// # Errors
///
/// The first fault, or want of memory.
#[tactic(auto, unfolding(crate::specs::Script::scene))]
pub fn read_scene(alloc: Global, text: &[u8]) -> Result<Scene, ScriptError>
    ensures { Gives result (spec.scene text.now) }
{
    let script = document(alloc, text)?;
    scene_of(alloc, &script)
}

/// The table of a TOML document.
#[tactic(auto, unfolding(crate::specs::Script::document), using(crate::proofs::Documents::document_read, crate::proofs::Documents::document_refused))]
pub(crate) fn document(alloc: Global, text: &[u8]) -> Result<Table, ScriptError>
    ensures { GivesAs table_view result (spec.document text.now) }
{
    match toml::table_from_slice(alloc, text) {
        Ok(table) => Ok(table),
        Err(error) if error.is_memory() => Err(ScriptError::OutOfMemory),
        Err(_) => Err(ScriptError::Fault(SceneFault::NotToml)),
    }
}

/// The scene of a document.
#[tactic(auto, unfolding(crate::specs::Script::scene_of))]
fn scene_of(alloc: Global, script: &Table) -> Result<Scene, ScriptError>
    ensures { Gives result (spec.scene_of (table_view script.now)) }
{
    let header = Header::read(script)?;
    let resources = read_resources(alloc, script)?;
    let nodes = read_nodes(alloc, script, resources.as_slice())?;
    let buses = read_buses(alloc, script, nodes.as_slice())?;
    let edits = read_edits(alloc, script, nodes.as_slice())?;
    check_edits(alloc, nodes.as_slice(), buses.as_slice(), edits.as_slice())?;
    Ok(Scene {
        version: 1,
        rate: header.rate,
        channels: header.channels,
        width: header.width,
        length: header.length,
        resources,
        nodes,
        buses,
        edits,
    })
}
