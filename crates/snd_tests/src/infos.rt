//! `info`, and the text of each fault of a WAVE file.
use crate::mixes::{BAD_INDEX, TONE};
use crate::programs::ends;
use plain_data::OutOfMemory;
use snd_io::SureDepot;
use std::alloc::{AllocError, Global};
use std::test::Fail;
use wave_write::header;

/// Whether `info` on a file ends with this status and prints this text.
fn tells(alloc: Global, file: &[u8], code: u8, text: &str) -> Result<bool, OutOfMemory> {
    let mut depot = SureDepot::new(alloc)?;
    depot.set(alloc, "f", file)?;
    ends(alloc, &mut depot, &["info", "f"], code, text)
}

#[test]
fn a_file_is_told_by_its_form_and_its_length(rt: HostRuntime) -> Result<(), Fail> {
    let alloc = rt.alloc();
    let mut music = Vec::from_slice(alloc, &header(2, 44_100, 16, 88_200))?;
    music.resize(44 + 4 * 88_200, 0)?;
    let line = "pcm channels 2 rate 44100 width 16 align 4 frames 88200 pages 11\n";
    assert!(rt; tells(alloc, &music, 0, line)?);
    let mut depot = SureDepot::new(alloc)?;
    assert!(rt; ends(alloc, &mut depot, &["info", "f"], 4, "absent: f\n")?);
    for (bytes, line) in FORMS {
        assert!(rt; tells(alloc, bytes, 0, line)?, "{line}");
    }
    Ok(())
}

/// Files, and what is told of them.
const FORMS: &[(&[u8], &str)] = &[
    (
        TONE,
        "pcm channels 1 rate 8000 width 16 align 2 frames 4 pages 1\n",
    ),
    (
        b"RIFF\0\0\0\0WAVEfmt \x10\0\0\0\x01\0\x01\0\x40\x1f\0\0\0\0\0\0\x02\0\x10\0LIST\x03\0\0\0abc\0data\xff\xff\xff\xff\x01\x02\x03\x04\x05",
        "pcm channels 1 rate 8000 width 16 align 2 frames 2 pages 1\n",
    ),
    (
        b"RF64\xff\xff\xff\xffWAVEds64\x1c\0\0\0\0\0\0\0\0\0\0\0\x04\0\0\0\0\0\0\0\0\0\0\0\0\0\0\0\0\0\0\0fmt \x10\0\0\0\x01\0\x01\0\x40\x1f\0\0\0\0\0\0\x02\0\x10\0data\xff\xff\xff\xff\x01\0\x02\0LIST\0\0\0\0",
        "pcm channels 1 rate 8000 width 16 align 2 frames 2 pages 1\n",
    ),
    (
        b"RIFF\0\0\0\0WAVEfmt \x10\0\0\0\x06\0\x02\0\x40\x1f\0\0\0\0\0\0\x02\0\x08\0data\x05\0\0\0\x01\x02\x03\x04\x05",
        "alaw channels 2 rate 8000 width 8 align 2 frames 2 pages 1\n",
    ),
    (
        b"RIFF\0\0\0\0WAVEfmt \x10\0\0\0\x07\0\x01\0\x40\x1f\0\0\0\0\0\0\x01\0\x08\0data\0\0\0\0",
        "ulaw channels 1 rate 8000 width 8 align 1 frames 0 pages 0\n",
    ),
    (
        b"RIFF\0\0\0\0WAVEfmt \x10\0\0\0\x11\0\x01\0\x40\x1f\0\0\0\0\0\0\x08\0\x04\0data\x08\0\0\0\0\x7d\x58\0\x77\xff\0\x08",
        "ima channels 1 rate 8000 width 4 align 8 frames 9 pages 1\n",
    ),
];

/// Bytes of a plain file that are changed, and the fault that the change makes.
const FAULTS: &[(&[(usize, u8)], &str)] = &[
    (&[(0, b'r')], "file: 0: NotRiff\n"),
    (&[(8, b'A')], "file: 0: NotWave\n"),
    (&[(2, b'6'), (3, b'4'), (1, b'F')], "file: 0: Ds64Missing\n"),
    (&[(18, 1)], "file: 0: ChunkPastEnd 12\n"),
    (&[(12, b'F')], "file: 0: NoFmt\n"),
    (&[(16, 8)], "file: 0: FmtShort 8\n"),
    (&[(20, 3)], "file: 0: Unsupported 3\n"),
    (&[(22, 9)], "file: 0: Channels 9\n"),
    (&[(24, 0), (25, 0), (26, 12)], "file: 0: Rate 786432\n"),
    (&[(34, 17)], "file: 0: Width 17 2\n"),
    (&[(20, 17)], "file: 0: ImaAlign 2\n"),
    (
        &[(20, 17), (32, 4), (46, 89)],
        "file: 0: StepIndex 0 0 89\n",
    ),
    (&[(36, b'D')], "file: 0: NoData\n"),
];

/// The bytes with some of them changed.
fn changed(alloc: Global, bytes: &[u8], changes: &[(usize, u8)]) -> Result<Vec<u8>, AllocError> {
    let mut copy = Vec::from_slice(alloc, bytes)?;
    for (place, byte) in changes {
        if let Some(cell) = copy.get_mut(*place) {
            *cell = *byte;
        }
    }
    Ok(copy)
}

#[test]
fn each_fault_of_a_file_has_its_text(rt: HostRuntime) -> Result<(), Fail> {
    let alloc = rt.alloc();
    assert!(rt; tells(alloc, b"", 7, "file: 0: NotRiff\n")?);
    assert!(rt; tells(alloc, BAD_INDEX, 7, "file: 0: StepIndex 0 0 89\n")?);
    for (changes, text) in FAULTS {
        let file = changed(alloc, TONE, changes)?;
        assert!(rt; tells(alloc, &file, 7, text)?, "{text}");
    }
    Ok(())
}

#[test]
fn a_file_has_at_most_64_mib(rt: HostRuntime) -> Result<(), Fail> {
    let alloc = rt.alloc();
    let mut file = Vec::from_slice(alloc, &header(1, 8000, 16, 33_554_410))?;
    file.resize(67_108_864, 0)?;
    let line = "pcm channels 1 rate 8000 width 16 align 2 frames 33554410 pages 4096\n";
    assert!(rt; tells(alloc, &file, 0, line)?);
    file.push(0)?;
    assert!(rt; tells(alloc, &file, 5, "too long: f limit 67108864\n")?);
    Ok(())
}
