//! `fx`: effects on the frames of a sound file, over a store in memory.
ghost use Rattle.std.specs.Prelude.{◌≡◌, None, IfOk};
ghost use Rattle.snd_io.specs.MemFiles.{mem_writing};

use crate::programs::{data_of, ends, run};
use plain_data::OutOfMemory;
use snd_io::{MemDepot, Snag, SureDepot};
use snd_tools::Status;
use std::alloc::{AllocError, Global};
use std::test::Fail;
use wave_write::header;

/// A mono file of 16 bits at 8000 Hz with the samples 1000, 0, 0 and 0.
const CLICK: &[u8] =
    b"RIFF\x2c\0\0\0WAVEfmt \x10\0\0\0\x01\0\x01\0\x40\x1f\0\0\x80\x3e\0\0\x02\0\x10\0data\x08\0\0\0\xe8\x03\0\0\0\0\0\0";

/// The same of five samples 1000.
const STEADY: &[u8] =
    b"RIFF\x2e\0\0\0WAVEfmt \x10\0\0\0\x01\0\x01\0\x40\x1f\0\0\x80\x3e\0\0\x02\0\x10\0data\x0a\0\0\0\xe8\x03\xe8\x03\xe8\x03\xe8\x03\xe8\x03";

/// A stereo file of 16 bits at 48000 Hz with the frames (5, -6) and (7, 8).
const STEREO: &[u8] =
    b"RIFF\x2c\0\0\0WAVEfmt \x10\0\0\0\x01\0\x02\0\x80\xbb\0\0\x00\xee\x02\0\x04\0\x10\0data\x08\0\0\0\x05\0\xfa\xff\x07\0\x08\0";

/// A file of 8 channels and 16 bits at 48000 Hz, with the frames 1 to 8 and 9 to 16.
const EIGHT: &[u8] =
    b"RIFF\x44\0\0\0WAVEfmt \x10\0\0\0\x01\0\x08\0\x80\xbb\0\0\x00\xb8\x0b\0\x10\0\x10\0data\x20\0\0\0\x01\0\x02\0\x03\0\x04\0\x05\0\x06\0\x07\0\x08\0\x09\0\x0a\0\x0b\0\x0c\0\x0d\0\x0e\0\x0f\0\x10\0";

/// A file, the words of the command, the line that is printed and the data of OUT.
const HEARD: &[(&[u8], &[&str], &str, &[u8])] = &[
    // An echo of its echo, past the end of the file.
    (
        CLICK,
        &["fx", "f", "o", "5", "delay:2:32768"],
        "frames 5 rate 8000 channels 2 width 24 bytes 74 peak 256000 sum 1430\n",
        b"\0\xe8\x03\0\xe8\x03\0\0\0\0\0\0\0\xe8\x03\0\xe8\x03\0\0\0\0\0\0\0\xf4\x01\0\xf4\x01",
    ),
    // A fade, and then a place left of the middle: the right channel has half of it.
    (
        STEADY,
        &["fx", "f", "o", "5", "fade:0:4:0:65536", "pan:16384"],
        "frames 5 rate 8000 channels 2 width 24 bytes 74 peak 256000 sum 1710\n",
        b"\0\0\0\0\0\0\0\xfa\0\0\x7d\0\0\xf4\x01\0\xfa\0\0\xee\x02\0\x77\x01\0\xe8\x03\0\xf4\x01",
    ),
    // Two channels stay, and a frame of 0 follows the last one.
    (
        STEREO,
        &["fx", "f", "o", "00000003", "level:65536"],
        "frames 3 rate 48000 channels 2 width 24 bytes 62 peak 2048 sum 525\n",
        b"\0\x05\0\0\xfa\xff\0\x07\0\0\x08\0\0\0\0\0\0\0",
    ),
    // The first two of eight.
    (
        EIGHT,
        &["fx", "f", "o", "2", "level:131072"],
        "frames 2 rate 48000 channels 2 width 24 bytes 56 peak 5120 sum 44\n",
        b"\0\x02\0\0\x04\0\0\x12\0\0\x14\0",
    ),
    // Fewer frames than the file has, and none.
    (
        EIGHT,
        &["fx", "f", "o", "1", "level:131072"],
        "frames 1 rate 48000 channels 2 width 24 bytes 50 peak 1024 sum 6\n",
        b"\0\x02\0\0\x04\0",
    ),
    (
        STEREO,
        &["fx", "f", "o", "0", "pan:0"],
        "frames 0 rate 48000 channels 2 width 24 bytes 44 peak 0 sum 0\n",
        b"",
    ),
    // Sixteen effects.
    (
        STEREO,
        &[
            "fx",
            "f",
            "o",
            "1",
            "pan:32768",
            "pan:32768",
            "pan:32768",
            "pan:32768",
            "pan:32768",
            "pan:32768",
            "pan:32768",
            "pan:32768",
            "pan:32768",
            "pan:32768",
            "pan:32768",
            "pan:32768",
            "pan:32768",
            "pan:32768",
            "pan:32768",
            "pan:0",
        ],
        "frames 1 rate 48000 channels 2 width 24 bytes 50 peak 1280 sum 5\n",
        b"\0\x05\0\0\0\0",
    ),
];

#[test]
fn effects_are_heard_in_two_channels(rt: HostRuntime) -> Result<(), Fail> {
    let alloc = rt.alloc();
    for (file, words, line, data) in HEARD {
        let mut depot = SureDepot::new(alloc)?;
        depot.set(alloc, "f", file)?;
        assert!(rt; ends(alloc, &mut depot, words, 0, line)?, "{line}");
        assert!(rt;
            depot.file("o").is_some_and(|out| data_of(out) == *data),
            "{line}"
        );
    }
    Ok(())
}

/// A mono file at 8000 Hz of so many samples, i mod 251 - 125.
fn ramps(alloc: Global, count: u16) -> Result<Vec<u8>, AllocError> {
    let mut bytes = Vec::from_slice(alloc, &header(1, 8000, 16, u32::from(count)))?;
    for i in 0..count {
        let sample = (i % 251) as i16 - 125;
        bytes.extend_from_slice(&sample.to_le_bytes())?;
    }
    Ok(bytes)
}

#[test]
fn a_sound_is_read_over_the_end_of_a_page(rt: HostRuntime) -> Result<(), Fail> {
    let alloc = rt.alloc();
    let mut depot = SureDepot::new(alloc)?;
    depot.set(alloc, "f", &ramps(alloc, 9_000)?)?;
    let words = [
        "fx",
        "f",
        "f",
        "10000",
        "delay:8191:65536",
        "fade:500:600:65536:32768",
    ];
    let line = "frames 10000 rate 8000 channels 2 width 24 bytes 60044 peak 32000 sum 6348392\n";
    assert!(rt; ends(alloc, &mut depot, &words, 0, line)?);
    Ok(())
}

/// The words for 600 frames: an append for the header, one for 512 frames and one for 88.
const TWO_BLOCKS: &[&str] = &["fx", "f", "o", "600", "delay:1:0"];

/// A store with a sound, which fails at this append and takes so many bytes.
fn failing_at(alloc: Global, call: u32, taken: u32) -> Result<MemDepot, OutOfMemory>
    ensures { IfOk result (λ depot. mem_writing depot ≡ None) }
{
    let mut depot = MemDepot::new(alloc)?;
    let snag = Snag {
        appends_only: true,
        call,
        taken,
    };
    depot.fail(alloc, snag)?;
    depot.set(alloc, "f", &ramps(alloc, 300)?)?;
    Ok(depot)
}

/// Whether a file is there and has the first `len` bytes of another one.
fn is_first_part(file: Option<&[u8]>, whole: &[u8], len: usize) -> bool {
    match file {
        Some(found) => found.len() == len && whole.starts_with(found),
        None => false,
    }
}

#[test]
fn a_failing_append_leaves_a_prefix(rt: HostRuntime) -> Result<(), Fail> {
    let alloc = rt.alloc();
    let mut whole = failing_at(alloc, 4, 0)?;
    assert_eq!(rt; run(alloc, &mut whole, TWO_BLOCKS)?.0, Status::Done);
    let whole = whole.file("o").unwrap_or(&[]);
    assert_eq!(rt; whole.len(), 3_644);
    // The append, the bytes before it and those of it.
    for (call, before, bytes) in [(1, 0, 44), (2, 44, 3_072), (3, 3_116, 528)] {
        for taken in [0, 1, 100_000] {
            let mut depot = failing_at(alloc, call, taken)?;
            assert!(rt; ends(alloc, &mut depot, TWO_BLOCKS, 3, "depot failed\n")?);
            let left = before + bytes.min(taken as usize);
            assert!(rt;
                is_first_part(depot.file("o"), whole, left),
                "{call} {taken}"
            );
        }
    }
    Ok(())
}

#[test]
fn a_file_that_is_refused_changes_nothing(rt: HostRuntime) -> Result<(), Fail> {
    let alloc = rt.alloc();
    let mut depot = SureDepot::new(alloc)?;
    assert!(rt; ends(alloc, &mut depot, TWO_BLOCKS, 4, "absent: f\n")?);
    depot.set(alloc, "f", &CLICK[..20])?;
    assert!(rt;
        ends(
            alloc,
            &mut depot,
            TWO_BLOCKS,
            7,
            "file: 0: ChunkPastEnd 12\n"
        )?
    );
    depot.set(alloc, "f", &CLICK[..20])?;
    assert!(rt; depot.file("o").is_none());
    Ok(())
}
