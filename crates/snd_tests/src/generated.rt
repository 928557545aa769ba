//! `gen`: the files that it writes, what is left of them where a call fails, and their mix.
ghost use Rattle.std.specs.Prelude.{◌≡◌, None, IfOk};
ghost use Rattle.snd_io.specs.MemFiles.{mem_writing};

use crate::programs::{data_of, ends, run};
use plain_data::OutOfMemory;
use snd_io::{MemDepot, Snag, SureDepot};
use std::alloc::{AllocError, Global};
use std::test::Fail;
use wave_write::header;

/// The first and the last sample of each sound of the number 1.
const SAMPLES: [(i16, i16); 8] = [
    (-17_272, -22_663),
    (30_537, -7_055),
    (16_718, 11_032),
    (1_158, -30_104),
    (-13_642, -23_303),
    (-19_339, 4_418),
    (15_998, 28_620),
    (-9_109, 18_150),
];

/// The first rows of the script.
const FIRST_ROWS: &[u8] =
    b"version = 1\nrate = 48000\nchannels = 2\nwidth = 24\nlength = 480000\n[[resource]]\nname = \"r0\"\nfile = \"g-0.wav\"\n";

/// Its first row with a gain.
const FIRST_GAIN: &str = "[[bus]]\nnode = \"s0\"\nto = \"g0\"\ngain = 459\n";

/// Its last rows.
const LAST_ROWS: &[u8] = b"[[edit]]\nop = \"seek\"\nat = 332815\nnode = \"s28\"\nvalue = 4390\n";

fn sound_name(alloc: Global, i: usize) -> Result<String, AllocError> {
    format!(in alloc; "g-{i}.wav")
}

/// Whether a file is the header of sound `i`, a first sample, others, and a last sample.
fn is_sound(file: Option<&[u8]>, i: usize, first: i16, last: i16) -> bool {
    let Some(bytes) = file else {
        return false;
    };
    let channels = if i % 2 == 0 { 1 } else { 2 };
    let rate = if i < 4 { 44_100 } else { 48_000 };
    bytes.len() == 44 + 441_000 * usize::from(channels)
        && bytes.starts_with(&header(channels, rate, 16, 220_500))
        && data_of(bytes).starts_with(&first.to_le_bytes())
        && bytes.ends_with(&last.to_le_bytes())
}

#[test]
fn the_scene_of_a_number_is_nine_files(rt: HostRuntime) -> Result<(), Fail> {
    let alloc = rt.alloc();
    let mut depot = SureDepot::new(alloc)?;
    assert!(rt;
        ends(
            alloc,
            &mut depot,
            &["gen", "0000000001", "g"],
            0,
            "files 9\n"
        )?
    );
    for (i, (first, last)) in SAMPLES.iter().enumerate() {
        let name = sound_name(alloc, i)?;
        assert!(rt;
            is_sound(depot.file(name.as_str()), i, *first, *last),
            "{i}"
        );
    }
    let Some(script) = depot.file("g.toml") else {
        return Err(Fail::from("no script"));
    };
    assert!(rt; script.starts_with(FIRST_ROWS));
    assert!(rt; script.ends_with(LAST_ROWS));
    Ok(())
}

#[test]
fn its_mix_is_the_same_each_time(rt: HostRuntime) -> Result<(), Fail> {
    let alloc = rt.alloc();
    let mut depot = SureDepot::new(alloc)?;
    assert!(rt; ends(alloc, &mut depot, &["gen", "1", "a/g"], 0, "files 9\n")?);
    let (status, line) = run(alloc, &mut depot, &["mix", "a/g.toml", "out.wav"])?;
    assert_eq!(rt; status.code(), 0);
    assert!(rt; depot.file("out.wav").map(|bytes| bytes.len()) == Some(2_880_044));
    let (status, again) = run(alloc, &mut depot, &["mix", "a/g.toml", "again.wav"])?;
    assert_eq!(rt; status.code(), 0);
    assert_eq!(rt; line.as_slice(), again.as_slice());
    assert!(rt; depot.file("out.wav") == depot.file("again.wav"));
    Ok(())
}

/// The call that fails and how many bytes it takes; then how many sounds are whole, and how many bytes
/// of the next file there are. Each file is created, appended to and finished: three calls.
const FAULTS: &[(u32, u32, usize, Option<usize>)] = &[
    (1, 0, 0, None),
    (2, 0, 0, Some(0)),
    (2, 7, 0, Some(7)),
    (2, 9_849, 0, Some(9_849)),
    (3, 0, 0, Some(441_044)),
    (4, 0, 1, None),
    (5, 47, 1, Some(47)),
    (6, 0, 1, Some(882_044)),
    (24, 0, 7, Some(882_044)),
    (25, 0, 8, None),
    (26, 9, 8, Some(9)),
];

/// How many bytes a file has.
fn size(depot: &MemDepot, name: &str) -> Option<usize> {
    depot.file(name).map(|bytes| bytes.len())
}

/// The name of the file that follows the first `i`.
fn next_name(alloc: Global, i: usize) -> Result<String, AllocError> {
    if i < 8 {
        sound_name(alloc, i)
    } else {
        String::from_str(alloc, "g.toml")
    }
}

/// A store that fails at this call, which takes so many bytes.
pub fn failing(alloc: Global, call: u32, taken: u32) -> Result<MemDepot, OutOfMemory>
    ensures { IfOk result (λ depot. mem_writing depot ≡ None) }
{
    let mut depot = MemDepot::new(alloc)?;
    let snag = Snag {
        appends_only: false,
        call,
        taken,
    };
    depot.fail(alloc, snag)?;
    Ok(depot)
}

#[test]
fn a_fault_leaves_whole_files_and_a_part_of_one(rt: HostRuntime) -> Result<(), Fail> {
    let alloc = rt.alloc();
    for (call, taken, whole, part) in FAULTS {
        let mut depot = failing(alloc, *call, *taken)?;
        assert!(rt;
            ends(alloc, &mut depot, &["gen", "1", "g"], 3, "depot failed\n")?,
            "{call}"
        );
        for i in 0..*whole {
            let name = sound_name(alloc, i)?;
            assert!(rt;
                size(&depot, name.as_str()) == Some(44 + 441_000 * (1 + i % 2)),
                "{call}"
            );
        }
        let next = next_name(alloc, *whole)?;
        assert!(rt; size(&depot, next.as_str()) == *part, "{call}");
        let after = next_name(alloc, *whole + 1)?;
        assert!(rt;
            *whole == 8 || size(&depot, after.as_str()).is_none(),
            "{call}"
        );
    }
    let mut depot = failing(alloc, 28, 0)?;
    assert!(rt; ends(alloc, &mut depot, &["gen", "1", "g"], 0, "files 9\n")?);
    let mut depot = failing(alloc, 27, 0)?;
    assert!(rt; ends(alloc, &mut depot, &["gen", "1", "g"], 3, "depot failed\n")?);
    Ok(())
}
