//! Fetching of files, and of the sound files of resources.

ghost use Rattle.std.specs.Prelude.{◌≡◌, false, ◌+◌, ◌≤◌, None, IfSome, IfOk, IfErr, map, length, All};
ghost use Rattle.std.specs.FinMap.{get};
ghost use Rattle.clip_decode.specs.Limits.{most_sound_bytes};
ghost use Rattle.scene_model.specs.Limits as limits;
ghost use Rattle.snd_io.specs.Faults.{CountsFaults};
ghost use Rattle.resource_mgr.specs.Fetching as spec;
ghost use Rattle.resource_mgr.specs.Answers.{GivesBy, GivesFile, IsOfFile, NamesOneOf, file_stopped_by_depot, stopped_by_depot};

use crate::lib_fault::LibFault;
use clip_decode::{Clip, ClipError, MAX_SOUND_BYTES};
use scene_model::Resource;
use snd_io::{Depot, Fetch, FetchFault};
use std::alloc::Global;
use std::marker::Model;

/// The most bytes of all sound files of a scene.
const MAX_TOTAL_BYTES: u64 = 134_217_728;

/// Fetches a file of at most `limit` bytes. No file changes, and none is open afterwards.
///
/// # Errors
///
/// [`FetchFault::Absent`] where there is no such file, [`FetchFault::TooLong`] where it has more
/// bytes than the limit, [`FetchFault::Failed`] only where the store failed, and
/// [`FetchFault::OutOfMemory`] where there is no memory.
pub fn fetch_file<D: Depot>(
    alloc: Global,
    depot: &mut D,
    name: &str,
    limit: u64,
) -> Result<Vec<u8>, FetchFault>
    requires { D.writing depot.old ≡ None }
    ensures told { IfSome (D.files depot.old) (λ files. GivesFile (λ bytes. bytes.items) result (spec.file_fetched limit (get files name.now))) }
    ensures limit { IfOk result (λ bytes. length bytes.items ≤ limit) }
    ensures files { D.files depot.new ≡ D.files depot.old }
    ensures closed { D.writing depot.new ≡ None }
    ensures cause { CountsFaults (D.faults depot.old) (D.faults depot.new) (file_stopped_by_depot result) }
{
    let mut bytes = Vec::new(alloc);
    match depot.fetch(alloc, name, limit, &mut bytes) {
        Fetch::Fetched => Ok(bytes),
        Fetch::Absent => Err(FetchFault::Absent),
        Fetch::TooLong => Err(FetchFault::TooLong),
        Fetch::Failed => Err(FetchFault::Failed),
        Fetch::OutOfMemory => Err(FetchFault::OutOfMemory),
    }
}

/// Fetches the sound files of at most 64 resources in their order, and makes a clip of each. No file
/// changes, and none is open afterwards. A file that two resources name is fetched twice.
///
/// # Errors
///
/// The first fault in the order of the resources, and for each of them in this order:
/// [`LibFault::Absent`] where there is no such file, [`LibFault::TooLong`] with the limit 67108864
/// where it has more bytes than that, and with the limit 134217728 where the files up to it have more
/// bytes in all, and [`LibFault::File`] where it is refused. [`LibFault::DepotFault`] comes only where
/// the store failed, and [`LibFault::OutOfMemory`] where there is no memory.
pub fn fetch_clips<D: Depot>(
    alloc: Global,
    depot: &mut D,
    resources: &[Resource],
) -> Result<Vec<Clip>, LibFault>
    requires closed { D.writing depot.old ≡ None }
    requires few { length resources.now ≤ limits.most_resources }
    ensures told { IfSome (D.files depot.old) (λ files. GivesBy (λ clips. map (λ clip. clip.bytes) clips.items) result (spec.clips_fetched files resources.now)) }
    ensures count { IfOk result (λ clips. length clips.items ≡ length resources.now) }
    ensures sizes { IfOk result (λ clips. All (λ clip. length clip.bytes ≤ most_sound_bytes) clips.items) }
    ensures resource { IfErr result (λ fault. NamesOneOf (length resources.now) fault) }
    ensures files { D.files depot.new ≡ D.files depot.old }
    ensures closed { D.writing depot.new ≡ None }
    ensures cause { CountsFaults (D.faults depot.old) (D.faults depot.new) (stopped_by_depot result) }
{
    let mut clips = Vec::new(alloc);
    let mut total = 0;
    for (number, resource) in resources.iter().enumerate() {
        let file = resource.file.as_str();
        let clip = fetch_clip(alloc, depot, number as u32, total, file)?;
        total += clip.bytes().len() as u64;
        clips.push(clip)?;
    }
    Ok(clips)
}

/// Fetches the sound file of the resource of that number, where the files before it have `total`
/// bytes in all, and makes a clip of it.
fn fetch_clip<D: Depot>(
    alloc: Global,
    depot: &mut D,
    resource: u32,
    total: u64,
    name: &str,
) -> Result<Clip, LibFault>
    requires closed { D.writing depot.old ≡ None }
    requires total { total ≤ spec.most_total_bytes }
    ensures told { IfSome (D.files depot.old) (λ files. GivesBy (λ clip. clip.bytes) result (spec.clip_fetched resource total (get files name.now))) }
    ensures size { IfOk result (λ clip. length clip.bytes ≤ most_sound_bytes) }
    ensures sum { IfOk result (λ clip. total + length clip.bytes ≤ spec.most_total_bytes) }
    ensures resource { IfErr result (λ fault. NamesOneOf (resource + 1) fault) }
    ensures files { D.files depot.new ≡ D.files depot.old }
    ensures closed { D.writing depot.new ≡ None }
    ensures cause { CountsFaults (D.faults depot.old) (D.faults depot.new) (stopped_by_depot result) }
{
    match fetch_file(alloc, depot, name, MAX_SOUND_BYTES) {
        Ok(bytes) => clip_of(alloc, resource, total, bytes),
        Err(fault) => Err(fault_of(resource, fault)),
    }
}

/// The fault of the resource of that number, whose own file isn't given.
fn fault_of(resource: u32, fault: FetchFault) -> LibFault
    ensures { result ≡ spec.fault_of resource most_sound_bytes fault }
{
    match fault {
        FetchFault::Absent => LibFault::Absent { resource },
        FetchFault::TooLong => LibFault::TooLong {
            resource,
            limit: MAX_SOUND_BYTES,
        },
        FetchFault::Failed => LibFault::DepotFault,
        FetchFault::OutOfMemory => LibFault::OutOfMemory,
    }
}

/// The clip of a sound file, or its refusal.
fn clip_of(alloc: Global, resource: u32, total: u64, bytes: Vec<u8>) -> Result<Clip, LibFault>
    requires total { total ≤ spec.most_total_bytes }
    requires length { length bytes.items ≤ most_sound_bytes }
    ensures value { GivesBy (λ clip. clip.bytes) result (spec.clip_of resource total bytes.items) }
    ensures size { IfOk result (λ clip. length clip.bytes ≤ most_sound_bytes) }
    ensures sum { IfOk result (λ clip. total + length clip.bytes ≤ spec.most_total_bytes) }
    ensures fault { IfErr result (λ fault. IsOfFile resource fault) }
{
    if total + bytes.len() as u64 > MAX_TOTAL_BYTES {
        return Err(LibFault::TooLong {
            resource,
            limit: MAX_TOTAL_BYTES,
        });
    }
    match Clip::new(alloc, bytes) {
        Ok(clip) => Ok(clip),
        Err(ClipError::Fault(fault)) => Err(LibFault::File { resource, fault }),
        Err(ClipError::OutOfMemory) => Err(LibFault::OutOfMemory),
    }
}
