//! Runs `scenetool`'s commands over a store in memory.
ghost use Rattle.std.specs.Prelude.{◌≡◌, ◌≤◌, ◌<◌, ◌^◌, None, IfOk, length};
ghost use Rattle.snd_io.specs.SureFiles.{sure_writing};

use plain_data::OutOfMemory;
use snd_io::{Depot, MemSink, SureDepot};
use snd_tools::{Status, run_tool};
use std::alloc::{AllocError, Global};
use wave_write::header;

/// A script of one sound, `player`, that plays `tone.wav`.
pub fn script(
    alloc: Global,
    rate: u32,
    channels: u8,
    width: u8,
    length: u32,
) -> Result<String, AllocError> {
    format!(in alloc;
        "version = 1
rate = {rate}
channels = {channels}
width = {width}
length = {length}
[[resource]]
name = \"tone\"
file = \"tone.wav\"
[[node]]
kind = \"sound\"
name = \"player\"
resource = \"tone\"
[[bus]]
node = \"player\"
to = \"endpoint\"
"
    )
}

/// The words of a command.
pub fn words_of(alloc: Global, words: &[&str]) -> Result<Vec<String>, AllocError> {
    let mut owned = Vec::new(alloc);
    for word in words {
        owned.push(String::from_str(alloc, word)?)?;
    }
    Ok(owned)
}

/// The status of a command, and the text that it printed.
pub fn run<D: Depot>(
    alloc: Global,
    depot: &mut D,
    words: &[&str],
) -> Result<(Status, Vec<u8>), OutOfMemory>
    requires { D.writing depot.old ≡ None }
    ensures { D.writing depot.new ≡ None }
{
    let owned = words_of(alloc, words)?;
    let mut text = MemSink::new(alloc)?;
    let status = run_tool(alloc, &owned, depot, &mut text);
    let printed = Vec::from_slice(alloc, text.bytes())?;
    Ok((status, printed))
}

/// Whether a command ends with this status and prints this text.
pub fn ends<D: Depot>(
    alloc: Global,
    depot: &mut D,
    words: &[&str],
    code: u8,
    text: &str,
) -> Result<bool, OutOfMemory>
    requires { D.writing depot.old ≡ None }
    ensures { D.writing depot.new ≡ None }
{
    let (status, printed) = run(alloc, depot, words)?;
    Ok(status.code() == code && printed.as_slice() == text.as_bytes())
}

/// The bytes of a WAVE file of 16 bits: the 44-byte header and these samples.
pub fn sound(alloc: Global, channels: u8, rate: u32, samples: &[i16]) -> Result<Vec<u8>, AllocError>
    requires channels { channels ≤ 2 }
    requires some { 1 ≤ channels }
    requires rate { rate ≤ 768000 }
    requires few { length samples.now < 2 ^ 24 }
{
    let frames = samples.len() / usize::from(channels);
    let mut bytes = Vec::from_slice(alloc, &header(channels, rate, 16, frames as u32))?;
    for sample in samples {
        bytes.extend_from_slice(&sample.to_le_bytes())?;
    }
    Ok(bytes)
}

/// OUT of `mix` of a script over files with these names, and what it printed.
pub fn mixed(
    alloc: Global,
    script: &str,
    files: &[(&str, &[u8])],
) -> Result<(Vec<u8>, Vec<u8>), OutOfMemory> {
    let mut depot = depot_of(alloc, script, files)?;
    let (_, text) = run(alloc, &mut depot, &["mix", "scene.toml", "out.wav"])?;
    let out = match depot.file("out.wav") {
        Some(bytes) => Vec::from_slice(alloc, bytes)?,
        None => Vec::new(alloc),
    };
    Ok((out, text))
}

/// A store with a script and files with these names.
pub fn depot_of(
    alloc: Global,
    script: &str,
    files: &[(&str, &[u8])],
) -> Result<SureDepot, OutOfMemory>
    ensures { IfOk result (λ depot. sure_writing depot ≡ None) }
{
    let mut depot = SureDepot::new(alloc)?;
    depot.set(alloc, "scene.toml", script.as_bytes())?;
    for (name, bytes) in files {
        depot.set(alloc, name, bytes)?;
    }
    Ok(depot)
}

/// The bytes behind the header of a WAVE file.
pub fn data_of(file: &[u8]) -> &[u8] {
    if file.len() < 44 { &[] } else { &file[44..] }
}

/// Whether a file is there and has these bytes.
pub fn is_bytes(file: Option<&[u8]>, bytes: &[u8]) -> bool {
    match file {
        Some(found) => found == bytes,
        None => false,
    }
}
