ghost use Rattle.std.specs.Prelude.{◌≡◌, ◌≤◌, ◌<◌, map, IfOk, IsTrue, length, vec_len};
ghost use Rattle.std.specs.List.{list_all, list_any};
ghost use Rattle.std.specs.Str.{bytes_eq};
ghost use Rattle.toml.specs.View.{table_view};
ghost use Rattle.scene_model.specs.IsScene.{is_resource};
ghost use Rattle.scene_model.specs.Limits as limits;
ghost use Rattle.scene_model.specs.Names.{is_file_name};
ghost use Rattle.scene_script.specs.Checked.{Gives, GivesAs};
ghost use Rattle.scene_script.specs.Reads.{Reads};
ghost use Rattle.scene_script.specs.ResourceRows as spec;

use crate::bounds::Bounds;
use crate::fault::{SceneFault, TableKind, Which};
use crate::fields::{known_keys, name, text};
use crate::limits::MAX_RESOURCES;
use crate::place::Place;
use crate::script_error::ScriptError;
use crate::table_rows::table_rows;
use plain_data::{OutOfMemory, Rows, Text};
use scene_model::{MAX_FILE_NAME_BYTES, Resource};
use std::alloc::Global;
use std::marker::Model;
use toml::Table;

/// The bytes of the name of a sound file.
const FILE_NAME: Bounds = Bounds {
    which: Which::FileName,
    least: 1,
    most: MAX_FILE_NAME_BYTES as u64,
};

/// The resources of a script.
#[tactic(auto, unfolding(crate::specs::ResourceRows::resources))]
pub(crate) fn read_resources(alloc: Global, script: &Table) -> Result<Rows<Resource>, ScriptError>
    ensures value { Gives result (spec.resources (table_view script.now)) }
    ensures few { IfOk result (λ resources. length resources ≤ limits.most_resources) }
    ensures are { IfOk result (λ resources. IsTrue (list_all is_resource resources)) }
{
    let rows = table_rows(
        alloc,
        script,
        TableKind::Resource,
        "resource",
        Which::Resources,
        MAX_RESOURCES,
    )?;
    let resources = resource_rows(alloc, rows.as_slice())?;
    Ok(Rows::new(resources))
}

fn resource_rows(alloc: Global, rows: &[&Table]) -> Result<Vec<Resource>, ScriptError>
    requires { length rows.now ≤ limits.most_resources }
    ensures value { GivesAs (λ v. v.items) result (spec.resource_rows (map (λ t. table_view t.now) rows.now)) }
    ensures few { IfOk result (λ v. vec_len v ≤ length rows.now) }
    ensures are { IfOk result (λ v. IsTrue (list_all is_resource v.items)) }
{
    let mut resources = Vec::new(alloc);
    for row in rows {
        let read = ResourceRow::read(row, resources.as_slice())?;
        resources.push(read.resource(alloc)?)?;
    }
    Ok(resources)
}

/// A row of `resource`, as it stands in the script.
#[derive(Drop)]
struct ResourceRow<'a> {
    name: &'a str,
    file: &'a str,
}

impl<'a> Model for ResourceRow<'a> {
    ghost use Rattle.std.specs.Prelude.{IsTrue};
    ghost use Rattle.scene_model.specs.declared.resource.Resource.{Resource};
    ghost use Rattle.scene_model.specs.IsScene.{is_resource};

    ghost Value = { Resource };

    ghost view = { λ r. record { name = r.name.now; file = r.file.now } };

    ghost invariant = { λ r. IsTrue (is_resource (record { name = r.name.now; file = r.file.now })) };
}

impl<'a> ResourceRow<'a> {
    /// Reads a row, by the resources of the rows before it.
    #[tactic(auto, unfolding(crate::specs::ResourceRows::resource_row))]
    fn read(row: &'a Table, before: &[Resource]) -> Result<ResourceRow<'a>, SceneFault>
        requires { length before.now < limits.most_resources }
        ensures { result ≡ spec.resource_row before.now (table_view row.now) }
    {
        let place = Place {
            table: TableKind::Resource,
            row: before.len() as u32 + 1,
        };
        known_keys(row, place, &["name", "file"])?;
        let name = name(row, place, "name")?;
        let file = file(row, place)?;
        check_new(place, before, name)?;
        Ok(ResourceRow { name, file })
    }

    fn resource(&self, alloc: Global) -> Result<Resource, OutOfMemory>
        ensures value { IfOk result (λ resource. resource ≡ self.now) }
        ensures is { IfOk result (λ resource. IsTrue (is_resource resource)) }
    {
        Ok(Resource {
            name: Text::new(String::from_str(alloc, self.name)?),
            file: Text::new(String::from_str(alloc, self.file)?),
        })
    }
}

/// The name of the sound file.
#[tactic(auto, unfolding(crate::specs::ResourceRows::file_at))]
fn file<'a>(row: &'a Table, place: Place) -> Result<&'a str, SceneFault>
    ensures value { Reads result (spec.file_at place (table_view row.now)) }
    ensures is_file_name { IfOk result (λ file. IsTrue (is_file_name file.now)) }
{
    let text = text(row, place, "file")?;
    FILE_NAME.checked(text.len() as i64)?;
    Ok(text)
}

/// Tests that no earlier resource has the name.
#[tactic(auto, unfolding(crate::specs::ResourceRows::new_resource))]
fn check_new(place: Place, before: &[Resource], name: &str) -> Result<(), SceneFault>
    ensures { result ≡ spec.new_resource place before.now name.now }
{
    if is_taken(before, name) {
        Err(place.double_name())
    } else {
        Ok(())
    }
}

fn is_taken(before: &[Resource], name: &str) -> bool
    ensures { result ≡ list_any (λ r. bytes_eq r.name name.now) before.now }
{
    before.iter().any(|resource| resource.name.as_str() == name)
}
