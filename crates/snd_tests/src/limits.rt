//! The limits of a scene's files together.
use crate::programs::ends;
use plain_data::OutOfMemory;
use snd_io::SureDepot;
use std::alloc::Global;
use std::test::Fail;
use wave_write::header;

/// A script of these resources, of which none is played.
const TWICE: &str = "version = 1
rate = 8000
channels = 1
width = 16
length = 0
resource = [{ name = \"a\", file = \"long\" }, { name = \"b\", file = \"long\" }]
";

const ONE_MORE: &str = "version = 1
rate = 8000
channels = 1
width = 16
length = 0
resource = [{ name = \"a\", file = \"long\" }, { name = \"b\", file = \"long\" }, { name = \"c\", file = \"short\" }]
";

/// A script of a sound file that is there, and of two that are not.
const NONE_BEHIND: &str = "version = 1
rate = 8000
channels = 1
width = 16
length = 0
resource = [{ name = \"a\", file = \"short\" }, { name = \"b\", file = \"none\" }, { name = \"c\", file = \"gone\" }]
";

const LONGER_BEHIND: &str = "version = 1
rate = 8000
channels = 1
width = 16
length = 0
resource = [{ name = \"a\", file = \"long\" }, { name = \"b\", file = \"long\" }, { name = \"c\", file = \"longer\" }]
";

/// The status and the line of `mix` of a script, where `long` has 64 MiB, `longer` one byte
/// more, and `short` is empty sound. Both long files are an empty sound too, and a chunk that is passed over.
fn is_told(alloc: Global, script: &str, code: u8, line: &str) -> Result<bool, OutOfMemory> {
    let mut depot = SureDepot::new(alloc)?;
    let mut long = Vec::from_slice(alloc, &header(1, 8000, 16, 0))?;
    long.extend_from_slice(b"JUNK")?;
    long.extend_from_slice(&67_108_812u32.to_le_bytes())?;
    long.resize(67_108_864, 0)?;
    depot.set(alloc, "long", &long)?;
    long.push(0)?;
    depot.set(alloc, "longer", &long)?;
    depot.set(alloc, "short", &header(1, 8000, 16, 0))?;
    depot.set(alloc, "scene.toml", script.as_bytes())?;
    ends(
        alloc,
        &mut depot,
        &["mix", "scene.toml", "out.wav"],
        code,
        line,
    )
}

#[test]
fn a_file_that_two_resources_name_counts_twice(rt: HostRuntime) -> Result<(), Fail> {
    let alloc = rt.alloc();
    let done = "frames 0 rate 8000 channels 1 width 16 bytes 44 peak 0 sum 0\n";
    assert!(rt; is_told(alloc, TWICE, 0, done)?);
    let refused = "too long: short limit 134217728\n";
    assert!(rt; is_told(alloc, ONE_MORE, 5, refused)?);
    Ok(())
}

#[test]
fn the_first_file_that_is_absent_is_named(rt: HostRuntime) -> Result<(), Fail> {
    let alloc = rt.alloc();
    assert!(rt; is_told(alloc, NONE_BEHIND, 4, "absent: none\n")?);
    Ok(())
}

#[test]
fn the_limit_of_a_file_comes_before_that_of_the_sum(rt: HostRuntime) -> Result<(), Fail> {
    let alloc = rt.alloc();
    let refused = "too long: longer limit 67108864\n";
    assert!(rt; is_told(alloc, LONGER_BEHIND, 5, refused)?);
    Ok(())
}
