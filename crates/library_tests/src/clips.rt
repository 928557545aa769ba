//! Clips of small files, and their samples worked out by hand from the rules of the format.

use crate::sound_files::{PCM_12, PCM_16, PCM_24, RIFF, file};
use clip_decode::{Clip, ClipError, Cursor, Page, fill, pages};
use plain_data::OutOfMemory;
use std::alloc::Global;
use std::test::Fail;
use wave_read::{Kind, Wave, WaveFault};

/// Mono PCM of 8 and of 32 bits.
const PCM_8: &[u8] = b"fmt \x10\0\0\0\x01\0\x01\0\x40\x1f\0\0\x40\x1f\0\0\x01\0\x08\0";

const PCM_32: &[u8] = b"fmt \x10\0\0\0\x01\0\x01\0\x40\x1f\0\0\0\x7d\0\0\x04\0 \0";

/// The interleaved samples of the first page of a clip, and none of one without frames.
fn samples(alloc: Global, clip: &Clip) -> Result<Vec<i32>, OutOfMemory> {
    let wave = clip.wave();
    if pages(wave) == 0 {
        return Ok(Vec::new(alloc));
    }
    let mut page = Page::new(alloc, wave.channels)?;
    fill(&mut Cursor::start(), clip, &mut page);
    Ok(Vec::from_slice(alloc, page.samples())?)
}

/// A format, the `data` chunk after it, and the samples.
type Case<'a> = (&'a [u8], &'a [u8], &'a [i32]);

/// Sounds of each size of container.
const SOUNDS: &[Case] = &[
    // The least, -1 and the greatest number of a container, and 0.
    (
        PCM_8,
        b"data\x04\0\0\0\0\x7f\xff\x80",
        &[-8_388_608, -65_536, 8_323_072, 0],
    ),
    (
        PCM_16,
        b"data\x08\0\0\0\0\x80\xff\xff\xff\x7f\0\0",
        &[-8_388_608, -256, 8_388_352, 0],
    ),
    // Two frames of two channels: (1, -1) and (-8388608, 8388607).
    (
        PCM_24,
        b"data\x0c\0\0\0\x01\0\0\xff\xff\xff\0\0\x80\xff\xff\x7f",
        &[1, -1, -8_388_608, 8_388_607],
    ),
    // -257 and 255 are rounded down too.
    (
        PCM_32,
        b"data\x14\0\0\0\0\0\0\x80\xff\xff\xff\xff\xff\xff\xff\x7f\xff\xfe\xff\xff\xff\0\0\0",
        &[-8_388_608, -1, 8_388_607, -2, 0],
    ),
    // 12 bits stand in the high bits of their container, and its low ones are not masked.
    (
        PCM_12,
        b"data\x04\0\0\0\xf0\x7f\xff\x7f",
        &[8_384_512, 8_388_352],
    ),
];

#[test]
fn decodes_containers_of_each_size(rt: HostRuntime) -> Result<(), Fail> {
    for (format, sound, want) in SOUNDS {
        let bytes = file(rt.alloc(), RIFF, &[format, sound])?;
        let clip = Clip::new(rt.alloc(), bytes.clone()?);
        assert!(rt; clip.is_ok(), "at {sound:?}");
        if let Ok(clip) = clip {
            let again = clip.clone()?;
            drop(clip);
            assert_eq!(rt; again.bytes(), bytes.as_slice());
            let found = samples(rt.alloc(), &again)?;
            assert_eq!(rt; found.as_slice(), *want, "at {sound:?}");
        }
    }
    Ok(())
}

const fn mono_8(frames: u64) -> Wave {
    Wave {
        kind: Kind::Pcm,
        channels: 1,
        rate: 8000,
        width: 8,
        align: 1,
        data_from: 44,
        data_len: frames,
        frames,
    }
}

#[test]
fn counts_pages_and_hands_faults_on(rt: HostRuntime) -> Result<(), Fail> {
    let counts: &[(u64, u64)] = &[
        (0, 0),
        (1, 1),
        (8192, 1),
        (8193, 2),
        (u64::MAX, 0x8_0000_0000_0000),
    ];
    for (frames, want) in counts {
        assert_eq!(rt; pages(&mono_8(*frames)), *want, "at {frames}");
    }
    let refused: &[(&[u8], &[u8], WaveFault)] = &[
        (PCM_16, b"", WaveFault::NoData),
        (b"", b"data\0\0\0\0", WaveFault::NoFmt),
    ];
    for (format, sound, want) in refused {
        let answer = Clip::new(rt.alloc(), file(rt.alloc(), RIFF, &[format, sound])?);
        assert_eq!(rt; answer.err(), Some(ClipError::Fault(*want)));
    }
    let empty = Clip::new(rt.alloc(), Vec::new(rt.alloc()));
    assert_eq!(rt; empty.err(), Some(ClipError::Fault(WaveFault::NotRiff)));
    Ok(())
}
