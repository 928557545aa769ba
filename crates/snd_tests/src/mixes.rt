//! `mix` of a scene of one sound, over a store in memory.
ghost use Rattle.std.specs.Prelude.{◌≡◌, None, IfOk};
ghost use Rattle.snd_io.specs.MemFiles.{mem_writing};
ghost use Rattle.snd_io.specs.SureFiles.{sure_writing};

use crate::generated::failing;
use crate::programs::{ends, is_bytes, run, script, words_of};
use plain_data::OutOfMemory;
use snd_io::{MemDepot, MemSink, SureDepot};
use snd_tools::{Status, run_tool};
use std::alloc::{AllocError, Global};
use std::test::Fail;
use wave_write::header;

/// The samples 0, 1, -1 and 32767 in a mono file of 16 bits at 8000 Hz.
pub const TONE: &[u8] =
    b"RIFF\x2c\0\0\0WAVEfmt \x10\0\0\0\x01\0\x01\0\x40\x1f\0\0\x80\x3e\0\0\x02\0\x10\0data\x08\0\0\0\0\0\x01\0\xff\xff\xff\x7f";

/// The frames (1, -1) and (-8388608, 8388607) in a stereo file of 24 bits at 8000 Hz, of the
/// extensible form.
const WIDE: &[u8] =
    b"RIFF\x48\0\0\0WAVEfmt \x28\0\0\0\xfe\xff\x02\0\x40\x1f\0\0\x80\xbb\0\0\x06\0\x18\0\x16\0\x18\0\x03\0\0\0\x01\0\0\0\0\0\x10\0\x80\0\0\xaa\0\x38\x9b\x71data\x0c\0\0\0\x01\0\0\xff\xff\xff\0\0\x80\xff\xff\x7f";

/// A mono file of 16 bits at 8000 Hz without a sample.
pub const EMPTY: &[u8] =
    b"RIFF\x24\0\0\0WAVEfmt \x10\0\0\0\x01\0\x01\0\x40\x1f\0\0\x80\x3e\0\0\x02\0\x10\0data\0\0\0\0";

/// IMA ADPCM of a block whose step index is 89.
pub const BAD_INDEX: &[u8] =
    b"RIFF\0\0\0\0WAVEfmt \x10\0\0\0\x11\0\x01\0\x40\x1f\0\0\0\0\0\0\x08\0\x04\0data\x08\0\0\0\0\x7d\x59\0\x77\xff\0\x08";

/// The words of the command, and what it prints for the four samples.
const MIX: &[&str] = &["mix", "scene.toml", "out.wav"];

const TONE_LINE: &str = "frames 4 rate 8000 channels 1 width 16 bytes 52 peak 8388352 sum 893\n";

/// A store with a script of mono and 16 bits of so many frames, and a sound file.
fn depot_with(alloc: Global, length: u32, sound: &[u8]) -> Result<SureDepot, OutOfMemory>
    ensures { IfOk result (λ depot. sure_writing depot ≡ None) }
{
    let mut depot = SureDepot::new(alloc)?;
    let text = script(alloc, 8000, 1, 16, length)?;
    depot.set(alloc, "scene.toml", text.as_str().as_bytes())?;
    depot.set(alloc, "tone.wav", sound)?;
    Ok(depot)
}

/// A file of 8000 samples, (i mod 256) * 64 - 8192.
fn ramps(alloc: Global) -> Result<Vec<u8>, AllocError> {
    let mut bytes = Vec::from_slice(alloc, &header(1, 8000, 16, 8000))?;
    for i in 0..8000u16 {
        let sample = (i % 256) as i16 * 64 - 8192;
        bytes.extend_from_slice(&sample.to_le_bytes())?;
    }
    Ok(bytes)
}

#[test]
fn a_sound_is_copied_to_the_output(rt: HostRuntime) -> Result<(), Fail> {
    let alloc = rt.alloc();
    let mut depot = depot_with(alloc, 4, TONE)?;
    assert!(rt; ends(alloc, &mut depot, MIX, 0, TONE_LINE)?);
    assert!(rt; is_bytes(depot.file("out.wav"), TONE));

    let ramps = ramps(alloc)?;
    let mut depot = depot_with(alloc, 8000, &ramps)?;
    assert_eq!(rt; run(alloc, &mut depot, MIX)?.0, Status::Done);
    assert_eq!(rt; ramps.len(), 16_044);
    assert!(rt; is_bytes(depot.file("out.wav"), ramps.as_slice()));

    let mut depot = depot_with(alloc, 0, TONE)?;
    assert_eq!(rt; run(alloc, &mut depot, MIX)?.0, Status::Done);
    assert!(rt; is_bytes(depot.file("out.wav"), EMPTY));

    let mut depot = depot_with(alloc, 6, TONE)?;
    assert_eq!(rt; run(alloc, &mut depot, MIX)?.0, Status::Done);
    let longer =
        b"RIFF\x30\0\0\0WAVEfmt \x10\0\0\0\x01\0\x01\0\x40\x1f\0\0\x80\x3e\0\0\x02\0\x10\0data\x0c\0\0\0\0\0\x01\0\xff\xff\xff\x7f\0\0\0\0";
    assert!(rt; is_bytes(depot.file("out.wav"), longer.as_slice()));
    Ok(())
}

#[test]
fn wide_samples_of_two_channels_are_kept(rt: HostRuntime) -> Result<(), Fail> {
    let alloc = rt.alloc();
    let mut depot = SureDepot::new(alloc)?;
    let text = script(alloc, 8000, 2, 24, 2)?;
    depot.set(alloc, "scene.toml", text.as_str().as_bytes())?;
    depot.set(alloc, "tone.wav", WIDE)?;
    let line = "frames 2 rate 8000 channels 2 width 24 bytes 56 peak 8388608 sum 1531\n";
    assert!(rt; ends(alloc, &mut depot, MIX, 0, line)?);
    let mut want = Vec::from_slice(alloc, &header(2, 8000, 24, 2))?;
    want.extend_from_slice(b"\x01\0\0\xff\xff\xff\0\0\x80\xff\xff\x7f")?;
    assert!(rt; is_bytes(depot.file("out.wav"), want.as_slice()));
    Ok(())
}

#[test]
fn what_is_refused_changes_no_file(rt: HostRuntime) -> Result<(), Fail> {
    let alloc = rt.alloc();
    let mut depot = SureDepot::new(alloc)?;
    assert!(rt; ends(alloc, &mut depot, MIX, 4, "absent: scene.toml\n")?);
    let text = script(alloc, 8000, 1, 16, 4)?;
    depot.set(alloc, "scene.toml", text.as_str().as_bytes())?;
    assert!(rt; ends(alloc, &mut depot, MIX, 4, "absent: tone.wav\n")?);
    depot.set(alloc, "tone.wav", &TONE[..20])?;
    assert!(rt; ends(alloc, &mut depot, MIX, 7, "file: 0: ChunkPastEnd 12\n")?);
    depot.set(alloc, "tone.wav", BAD_INDEX)?;
    assert!(rt; ends(alloc, &mut depot, MIX, 7, "file: 0: StepIndex 0 0 89\n")?);
    assert!(rt; depot.file("out.wav").is_none());
    depot.set(alloc, "tone.wav", &TONE[..20])?;
    let mut bytes = Vec::from_slice(alloc, text.as_str().as_bytes())?;
    bytes.resize(4_194_304, b' ')?;
    depot.set(alloc, "scene.toml", &bytes)?;
    assert!(rt; ends(alloc, &mut depot, MIX, 7, "file: 0: ChunkPastEnd 12\n")?);
    bytes.push(b' ')?;
    depot.set(alloc, "scene.toml", &bytes)?;
    assert!(rt;
        ends(
            alloc,
            &mut depot,
            MIX,
            5,
            "too long: scene.toml limit 4194304\n"
        )?
    );
    assert!(rt; depot.file("out.wav").is_none());
    Ok(())
}

/// A store with the scene of the four samples, which fails at this call and takes 7 bytes.
pub fn failing_at(alloc: Global, call: u32) -> Result<MemDepot, OutOfMemory>
    ensures { IfOk result (λ depot. mem_writing depot ≡ None) }
{
    let mut depot = failing(alloc, call, 7)?;
    let text = script(alloc, 8000, 1, 16, 4)?;
    depot.set(alloc, "scene.toml", text.as_str().as_bytes())?;
    depot.set(alloc, "tone.wav", TONE)?;
    Ok(depot)
}

/// The status of `mix` into that store, and how many bytes OUT has.
fn mix_failing(alloc: Global, call: u32) -> Result<(u8, Option<usize>), OutOfMemory> {
    let mut depot = failing_at(alloc, call)?;
    let (status, _) = run(alloc, &mut depot, MIX)?;
    Ok((
        status.code(),
        depot.file("out.wav").map(|bytes| bytes.len()),
    ))
}

#[test]
fn a_failing_call_leaves_a_prefix(rt: HostRuntime) -> Result<(), Fail> {
    // Two fetches, create, an append for the header and one for the block, and finish: what is left of the 52 bytes.
    let left = [None, None, None, Some(7), Some(51), Some(52)];
    for (call, want) in (1..).zip(left) {
        assert_eq!(rt; mix_failing(rt.alloc(), call)?, (3, want), "{call}");
    }
    assert_eq!(rt; mix_failing(rt.alloc(), 7)?, (0, Some(52)));
    Ok(())
}

/// The status of a command whose first text fails after so many bytes, and the text.
fn told_failing(
    alloc: Global,
    depot: &mut SureDepot,
    words: &[&str],
    taken: u32,
) -> Result<(u8, Vec<u8>), OutOfMemory>
    requires { sure_writing depot.old ≡ None }
    ensures { sure_writing depot.new ≡ None }
{
    let owned = words_of(alloc, words)?;
    let mut text = MemSink::new(alloc)?;
    text.fail(alloc, 1, taken)?;
    let status = run_tool(alloc, &owned, depot, &mut text);
    Ok((status.code(), Vec::from_slice(alloc, text.bytes())?))
}

#[test]
fn a_text_that_fails_is_told_by_the_status_of_what_is_done(rt: HostRuntime) -> Result<(), Fail> {
    let alloc = rt.alloc();
    for (taken, cut) in [(0, b"".as_slice()), (1, b"f".as_slice())] {
        let mut depot = depot_with(alloc, 4, TONE)?;
        let (code, text) = told_failing(alloc, &mut depot, MIX, taken)?;
        assert_eq!(rt; code, 8);
        assert_eq!(rt; text.as_slice(), cut);
        assert!(rt; is_bytes(depot.file("out.wav"), TONE));
    }
    for (taken, cut) in [(0, b"".as_slice()), (1, b"u".as_slice())] {
        let mut depot = SureDepot::new(alloc)?;
        let (code, text) = told_failing(alloc, &mut depot, &["mix", "a"], taken)?;
        assert_eq!(rt; code, 2);
        assert_eq!(rt; text.as_slice(), cut);
    }
    Ok(())
}
