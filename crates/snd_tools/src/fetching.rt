ghost use Rattle.std.specs.Prelude.{◌≡◌, true, ◌<◌, ◌≤◌, false, None, IfSome, IfOk, map, length, All};
ghost use Rattle.std.specs.FinMap.{get};
ghost use Rattle.clip_decode.specs.Limits.{most_sound_bytes};
ghost use Rattle.scene_model.specs.Limits as limits;
ghost use Rattle.snd_io.specs.Faults.{CountsFaults};
ghost use Rattle.snd_tools.specs.Reading as spec;
ghost use Rattle.snd_tools.specs.Reading.{GivesBy, stopped_by_depot, can_stop};
ghost use Rattle.resource_mgr.specs.Answers.{NamesOneOf};

use clip_decode::{Clip, ClipError, MAX_SOUND_BYTES};
use plain_data::Text;
use resource_mgr::{LibFault, fetch_clips, fetch_file as fetch};
use scene_model::{Resource, Scene};
use scene_script::read_scene as read_script;
use snd_io::{Depot, FetchFault};
use snd_status::Status;
use std::alloc::Global;
use std::marker::Model;

/// The most bytes of a script.
const MAX_SCRIPT_BYTES: u64 = 4_194_304;

/// Fetches a file of at most `limit` bytes, and no file changes.
pub(crate) fn fetch_file<D: Depot>(
    alloc: Global,
    depot: &mut D,
    name: &str,
    limit: u64,
) -> Result<Vec<u8>, Status>
    requires { D.writing depot.old ≡ None }
    ensures told { IfSome (D.files depot.old) (λ files. GivesBy (λ bytes. bytes.items) result (spec.file_read limit name.now (get files name.now))) }
    ensures limit { IfOk result (λ bytes. length bytes.items ≤ limit) }
    ensures files { D.files depot.new ≡ D.files depot.old }
    ensures closed { D.writing depot.new ≡ None }
    ensures cause { CountsFaults (D.faults depot.old) (D.faults depot.new) (stopped_by_depot result) }
    ensures stop { can_stop result ≡ true }
{
    match fetch(alloc, depot, name, limit) {
        Ok(bytes) => Ok(bytes),
        Err(FetchFault::Absent) => Err(absent(alloc, name)),
        Err(FetchFault::TooLong) => Err(too_long(alloc, name, limit)),
        Err(FetchFault::Failed) => Err(Status::DepotFault),
        Err(FetchFault::OutOfMemory) => Err(Status::OutOfMemory),
    }
}

/// Reads the sound of FILE, and no file changes.
pub(crate) fn read_sound<D: Depot>(alloc: Global, depot: &mut D, name: &str) -> Result<Clip, Status>
    requires { D.writing depot.old ≡ None }
    ensures told { IfSome (D.files depot.old) (λ files. GivesBy (λ clip. clip.bytes) result (spec.sound_file_read name.now (get files name.now))) }
    ensures files { D.files depot.new ≡ D.files depot.old }
    ensures closed { D.writing depot.new ≡ None }
    ensures cause { CountsFaults (D.faults depot.old) (D.faults depot.new) (stopped_by_depot result) }
    ensures stop { can_stop result ≡ true }
{
    let bytes = fetch_file(alloc, depot, name, MAX_SOUND_BYTES)?;
    sound_of(alloc, bytes)
}

/// The sound of a file.
fn sound_of(alloc: Global, bytes: Vec<u8>) -> Result<Clip, Status>
    ensures value { GivesBy (λ clip. clip.bytes) result (spec.sound_said bytes.items) }
    ensures no_fault { stopped_by_depot result ≡ false }
    ensures stop { can_stop result ≡ true }
{
    match Clip::new(alloc, bytes) {
        Ok(clip) => Ok(clip),
        Err(ClipError::Fault(fault)) => Err(Status::File { resource: 0, fault }),
        Err(ClipError::OutOfMemory) => Err(Status::OutOfMemory),
    }
}

/// Reads the scene of SCENE, and no file changes.
pub(crate) fn read_scene<D: Depot>(
    alloc: Global,
    depot: &mut D,
    name: &str,
) -> Result<Scene, Status>
    requires { D.writing depot.old ≡ None }
    ensures told { IfSome (D.files depot.old) (λ files. GivesBy (λ scene. scene) result (spec.scene_read name.now (get files name.now))) }
    ensures files { D.files depot.new ≡ D.files depot.old }
    ensures closed { D.writing depot.new ≡ None }
    ensures cause { CountsFaults (D.faults depot.old) (D.faults depot.new) (stopped_by_depot result) }
    ensures stop { can_stop result ≡ true }
{
    let text = fetch_file(alloc, depot, name, MAX_SCRIPT_BYTES)?;
    scene_of(alloc, &text)
}

/// The scene of a script.
fn scene_of(alloc: Global, text: &[u8]) -> Result<Scene, Status>
    ensures value { GivesBy (λ scene. scene) result (spec.script_read text.now) }
    ensures no_fault { stopped_by_depot result ≡ false }
    ensures stop { can_stop result ≡ true }
{
    Ok(read_script(alloc, text)?)
}

/// Reads the sound files of resources in their order, and no file changes.
pub(crate) fn read_sounds<D: Depot>(
    alloc: Global,
    depot: &mut D,
    resources: &[Resource],
) -> Result<Vec<Clip>, Status>
    requires closed { D.writing depot.old ≡ None }
    requires few { length resources.now ≤ limits.most_resources }
    ensures told { IfSome (D.files depot.old) (λ files. GivesBy (λ clips. map (λ clip. clip.bytes) clips.items) result (spec.sounds_read files resources.now)) }
    ensures count { IfOk result (λ clips. length clips.items ≡ length resources.now) }
    ensures sizes { IfOk result (λ clips. All (λ clip. length clip.bytes ≤ most_sound_bytes) clips.items) }
    ensures files { D.files depot.new ≡ D.files depot.old }
    ensures closed { D.writing depot.new ≡ None }
    ensures cause { CountsFaults (D.faults depot.old) (D.faults depot.new) (stopped_by_depot result) }
    ensures stop { can_stop result ≡ true }
{
    match fetch_clips(alloc, depot, resources) {
        Ok(clips) => Ok(clips),
        Err(fault) => Err(status_of(alloc, resources, fault)),
    }
}

/// The status of a fault of the sound files of resources.
fn status_of(alloc: Global, resources: &[Resource], fault: LibFault) -> Status
    requires { NamesOneOf (length resources.now) fault }
    ensures { spec.IsStatusOf resources.now fault result }
{
    match fault {
        LibFault::DepotFault => Status::DepotFault,
        LibFault::Absent { resource } => absent(alloc, file_name(resources, resource)),
        LibFault::TooLong { resource, limit } => {
            too_long(alloc, file_name(resources, resource), limit)
        }
        LibFault::File { resource, fault } => Status::File { resource, fault },
        LibFault::OutOfMemory => Status::OutOfMemory,
    }
}

/// The name of the sound file of the resource of that number.
fn file_name(resources: &[Resource], number: u32) -> &str
    requires { number < length resources.now }
    ensures { result.now ≡ spec.file_name resources.now number }
{
    resources[number as usize].file.as_str()
}

/// The refusal of a name that isn't there.
fn absent(alloc: Global, name: &str) -> Status
    ensures { spec.IsAbsent result name.now }
{
    match String::from_str(alloc, name) {
        Ok(name) => Status::Absent {
            name: Text::new(name),
        },
        Err(_) => Status::OutOfMemory,
    }
}

/// The refusal of a file that passes a limit.
fn too_long(alloc: Global, name: &str, limit: u64) -> Status
    ensures { spec.IsTooLong result name.now limit }
{
    match String::from_str(alloc, name) {
        Ok(name) => Status::TooLong {
            name: Text::new(name),
            limit,
        },
        Err(_) => Status::OutOfMemory,
    }
}
