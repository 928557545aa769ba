//! Files against what the WAVE reader says of them, worked out by hand from the rules of the format.

use crate::sound_files::{PCM_12, PCM_16, PCM_24, RIFF, file};
use std::alloc::{AllocError, Global};
use std::process::Abort;
use std::test::Fail;
use wave_read::WaveFault::{
    Channels, ChunkPastEnd, Ds64Missing, FmtShort, ImaAlign, NoData, NoFmt, NotRiff, NotWave, Rate,
    StepIndex, Unsupported, Width,
};
use wave_read::{Kind, Wave, WaveFault, survey};

/// `RF64`, a size that is not looked at, and `WAVE`: 12 bytes.
const RF64: &[u8] = b"RF64\xff\xff\xff\xffWAVE";

/// `ds64` chunks of 36 bytes, with a dataSize of 4, of 2^63 and of 2^64 - 1.
const DS64_4: &[u8] = b"ds64\x1c\0\0\0\0\0\0\0\0\0\0\0\x04\0\0\0\0\0\0\0\0\0\0\0\0\0\0\0\0\0\0\0";

const DS64_HALF: &[u8] =
    b"ds64\x1c\0\0\0\0\0\0\0\0\0\0\0\0\0\0\0\0\0\0\x80\0\0\0\0\0\0\0\0\0\0\0\0";

const DS64_ALL: &[u8] =
    b"ds64\x1c\0\0\0\0\0\0\0\0\0\0\0\xff\xff\xff\xff\xff\xff\xff\xff\0\0\0\0\0\0\0\0\0\0\0\0";

/// Eight channels of 32 bits, 768000 frames a second, with no average of bytes a second.
const PCM_32: &[u8] = b"fmt \x10\0\0\0\x01\0\x08\0\0\xb8\x0b\0\0\0\0\0 \0 \0";

/// Stereo A-law, and mono mu-law that states no bits: 26 bytes each.
const ALAW: &[u8] = b"fmt \x12\0\0\0\x06\0\x02\0\x40\x1f\0\0\x80\x3e\0\0\x02\0\x08\0\0\0";

const ULAW: &[u8] = b"fmt \x12\0\0\0\x07\0\x01\0\x40\x1f\0\0\x40\x1f\0\0\x01\0\0\0\0\0";

/// IMA ADPCM in blocks of nine frames, mono of 8 bytes and stereo of 16: 28 bytes each.
const IMA_MONO: &[u8] = b"fmt \x14\0\0\0\x11\0\x01\0\x40\x1f\0\0 \x1c\0\0\x08\0\x04\0\x02\0\x09\0";

const IMA_STEREO: &[u8] =
    b"fmt \x14\0\0\0\x11\0\x02\0\x40\x1f\0\0\x8e7\0\0\x10\0\x04\0\x02\0\x09\0";

/// An extensible format of mono A-law, 48 bytes.
const LONG_ALAW: &[u8] =
    b"fmt \x28\0\0\0\xfe\xff\x01\0\x40\x1f\0\0\x40\x1f\0\0\x01\0\x08\0\x16\0\x08\0\x03\0\0\0\x06\0\0\0\0\0\x10\0\x80\0\0\xaa\08\x9bq";

/// Extensible formats of a tag that is not read, and of a SubFormat that is no tag.
const EXTENSIBLE_FLOAT: &[u8] =
    b"fmt \x28\0\0\0\xfe\xff\x01\0\x40\x1f\0\0\0\x7d\0\0\x04\0 \0\x16\0 \0\x03\0\0\0\x03\0\0\0\0\0\x10\0\x80\0\0\xaa\08\x9bq";

const EXTENSIBLE_OTHER: &[u8] =
    b"fmt \x28\0\0\0\xfe\xff\x01\0\x40\x1f\0\0\x80\x3e\0\0\x02\0\x10\0\x16\0\x10\0\x03\0\0\0\x01\0\0\0\0\0\x10\0\x80\0\0\xaa\08\x9br";

/// Bodies that are too short.
const PCM_SHORT: &[u8] = b"fmt \x0f\0\0\0\x01\0\x01\0\x40\x1f\0\0\x80\x3e\0\0\x02\0\x10\0";

const EXTENSIBLE_39: &[u8] =
    b"fmt \x27\0\0\0\xfe\xff\x01\0\x40\x1f\0\0\x80\x3e\0\0\x02\0\x10\0\x16\0\x10\0\x03\0\0\0\x01\0\0\0\0\0\x10\0\x80\0\0\xaa\08\x9b\0";

/// Two mono frames of 16 bits, two stereo frames of 24 bits, and five bytes with no pad byte.
const DATA_4: &[u8] = b"data\x04\0\0\0\x01\0\x02\0";

const DATA_24: &[u8] = b"data\x0c\0\0\0\x01\0\0\xff\xff\xff\0\0\x80\xff\xff\x7f";

const DATA_5: &[u8] = b"data\x05\0\0\0\x01\x02\x03\x04\x05";

/// The beginning of a `data` chunk of 2^32 - 1 bytes.
const DATA_REST: &[u8] = b"data\xff\xff\xff\xff";

/// A whole stereo IMA block of nine frames, and 13 bytes of a short one of one frame.
const IMA_DATA: &[u8] =
    b"data\x1d\0\0\0d\0\0\0\x9c\xff\0\0\0\0\0\0\0\0\0\0\x05\0\0\0\x06\0\0\0\0\0\0\0\0";

/// Mono IMA blocks with the step indices 88 and 89.
const IMA_88: &[u8] = b"data\x08\0\0\0\0\x7dX\0w\xff\0\x08";

const IMA_89: &[u8] = b"data\x08\0\0\0\0\x7dY\0w\xff\0\x08";

/// Two stereo IMA blocks: 89 in the second channel of the first, and 255 in both channels of the second.
const IMA_89_SECOND: &[u8] =
    b"data\x1d\0\0\0d\0\0\0\x9c\xffY\0\0\0\0\0\0\0\0\0\x05\0\xff\0\x06\0\0\0\0\0\0\0\0";

const IMA_255_LATER: &[u8] =
    b"data\x1d\0\0\0d\0\0\0\x9c\xff\0\0\0\0\0\0\0\0\0\0\x05\0\xff\0\x06\0\xff\0\0\0\0\0\0";

/// A stereo IMA block and seven bytes that hold no frame, with a step index of 89.
const IMA_REST: &[u8] = b"data\x17\0\0\0d\0\0\0\x9c\xff\0\0\0\0\0\0\0\0\0\0\x05\0Y\0\x06\0\0";

/// Counts of frames, the first in two bytes.
const FACT_SHORT: &[u8] = b"fact\x02\0\0\0\x03\0";

const FACT_0: &[u8] = b"fact\x04\0\0\0\0\0\0\0";

const FACT_7: &[u8] = b"fact\x04\0\0\0\x07\0\0\0";

const FACT_9: &[u8] = b"fact\x04\0\0\0\x09\0\0\0";

const FACT_20: &[u8] = b"fact\x04\0\0\0\x14\0\0\0";

/// Other chunks: of three bytes with a pad byte, of four and of twenty bytes, and of 2^32 - 1 bytes.
const LIST_3: &[u8] = b"LIST\x03\0\0\0abc\0";

const LIST_4: &[u8] = b"LIST\x04\0\0\0abcd";

const LIST_20: &[u8] = b"LIST\x14\0\0\0abcdefghijklmnopqrst";

const LIST_TO_END: &[u8] = b"LIST\xff\xff\xff\xff";

/// What follows the head of a file, and what the file says.
type Case<'a, T> = (&'a [&'a [u8]], T);

fn accept(rt: &impl Abort, alloc: Global, head: &[u8], sounds: &[Case<Wave>]) -> Result<(), Fail> {
    for (parts, want) in sounds {
        let said = survey(&file(alloc, head, parts)?);
        assert_eq!(rt; said, Ok(*want), "at {parts:?}");
    }
    Ok(())
}

fn refuse(
    rt: &impl Abort,
    alloc: Global,
    head: &[u8],
    refusals: &[Case<WaveFault>],
) -> Result<(), Fail> {
    for (parts, want) in refusals {
        let said = survey(&file(alloc, head, parts)?);
        assert_eq!(rt; said, Err(*want), "at {parts:?}");
    }
    Ok(())
}

/// A sound of 8000 frames a second, with its width and align, and the place and the length of its data.
const fn sound(
    kind: Kind,
    channels: u8,
    (width, align): (u8, u32),
    data: (u64, u64),
    frames: u64,
) -> Wave {
    let (data_from, data_len) = data;
    Wave {
        kind,
        channels,
        rate: 8000,
        width,
        align,
        data_from,
        data_len,
        frames,
    }
}

const fn mono_16(data_from: u64, data_len: u64, frames: u64) -> Wave {
    sound(Kind::Pcm, 1, (16, 2), (data_from, data_len), frames)
}

const fn stereo_24(data_len: u64, frames: u64) -> Wave {
    sound(Kind::Pcm, 2, (24, 6), (68, data_len), frames)
}

const fn ima_stereo(data_from: u64, data_len: u64, frames: u64) -> Wave {
    sound(Kind::Ima, 2, (4, 16), (data_from, data_len), frames)
}

const fn step_index(block: u64, channel: u8, found: u8) -> WaveFault {
    StepIndex {
        block,
        channel,
        found,
    }
}

#[test]
fn goes_from_chunk_to_chunk(rt: HostRuntime) -> Result<(), Fail> {
    let sounds: &[Case<Wave>] = &[
        // A `data` chunk past the end is cut there, after an odd chunk with its pad byte.
        (&[PCM_16, LIST_3, DATA_REST, b"abcde"], mono_16(56, 5, 2)),
        // The last pad byte is absent.
        (&[PCM_16, LIST_3, DATA_5], mono_16(56, 5, 2)),
        // The sound may stand before its format, and may be empty.
        (&[DATA_4, PCM_16], mono_16(20, 4, 2)),
        (&[PCM_16, b"data\0\0\0\0"], mono_16(44, 0, 0)),
        // Fewer than eight bytes at the end are no chunk, and a chunk may pass the end there.
        (&[PCM_16, DATA_4, b"LIST\x01\0\0"], mono_16(44, 4, 2)),
        (&[PCM_16, DATA_4, LIST_TO_END], mono_16(44, 4, 2)),
        // The first `fmt ` and the first `data` are taken.
        (&[PCM_16, DATA_4, DATA_REST, b"\x07"], mono_16(44, 4, 2)),
        (
            &[PCM_16, DATA_4, PCM_24, b"fmt \x02\0\0\0\x01\0"],
            mono_16(44, 4, 2),
        ),
    ];
    accept(&rt, rt.alloc(), RIFF, sounds)?;
    let sizes: &[Case<Wave>] = &[
        // dataSize stands for a size of 2^32 - 1 and for no other, and is cut at the end.
        (
            &[DS64_4, PCM_16, DATA_REST, b"abcd", LIST_4],
            mono_16(80, 4, 2),
        ),
        (&[DS64_ALL, PCM_16, DATA_4, LIST_4], mono_16(80, 4, 2)),
        (&[DS64_ALL, PCM_16, DATA_REST, b"abcd"], mono_16(80, 4, 2)),
        (&[DS64_HALF, PCM_16, DATA_REST, b"abc"], mono_16(80, 3, 1)),
    ];
    accept(&rt, rt.alloc(), RF64, sizes)
}

#[test]
fn reads_each_kind_of_sound(rt: HostRuntime) -> Result<(), Fail> {
    let sounds: &[Case<Wave>] = &[
        (&[PCM_24, DATA_24], stereo_24(12, 2)),
        (&[PCM_12, b"data\x02\0\0\0\xf0\x7f"], mono_16(44, 2, 1)),
        (&[ALAW, DATA_4], sound(Kind::Alaw, 2, (8, 2), (46, 4), 2)),
        (&[ULAW, DATA_5], sound(Kind::Ulaw, 1, (8, 1), (46, 5), 5)),
        (
            &[LONG_ALAW, DATA_4],
            sound(Kind::Alaw, 1, (8, 1), (68, 4), 4),
        ),
        (
            &[PCM_32, DATA_REST, &[0; 40]],
            Wave {
                rate: 768_000,
                ..sound(Kind::Pcm, 8, (32, 32), (44, 40), 1)
            },
        ),
        (&[IMA_MONO, IMA_88], sound(Kind::Ima, 1, (4, 8), (48, 8), 9)),
        // The first `fact` of four bytes counts the frames of IMA, where it counts some and fewer.
        (&[IMA_STEREO, IMA_DATA], ima_stereo(48, 29, 10)),
        (&[IMA_STEREO, FACT_7, IMA_DATA], ima_stereo(60, 29, 7)),
        (&[IMA_STEREO, FACT_20, IMA_DATA], ima_stereo(60, 29, 10)),
        (&[IMA_STEREO, FACT_0, IMA_DATA], ima_stereo(60, 29, 10)),
        (
            &[IMA_STEREO, FACT_SHORT, FACT_7, FACT_9, IMA_DATA],
            ima_stereo(82, 29, 7),
        ),
        (
            &[PCM_16, b"fact\x04\0\0\0\x01\0\0\0", DATA_4],
            mono_16(56, 4, 2),
        ),
        // Step indices are looked at where a block holds a frame of the sound.
        (&[IMA_STEREO, FACT_9, IMA_255_LATER], ima_stereo(60, 29, 9)),
        (&[IMA_STEREO, IMA_REST], ima_stereo(48, 23, 9)),
    ];
    accept(&rt, rt.alloc(), RIFF, sounds)
}

#[test]
fn refuses_what_is_no_wave_file(rt: HostRuntime) -> Result<(), Fail> {
    let heads: &[Case<WaveFault>] = &[
        (&[b"RIFX\0\0\0\0WAVE", PCM_16, DATA_4], NotRiff),
        (&[b"RIFF\0\0\0\0AVI ", PCM_16, DATA_4], NotWave),
        (&[b"RF64"], NotWave),
    ];
    refuse(&rt, rt.alloc(), b"", heads)?;
    let sizes: &[Case<WaveFault>] = &[
        (&[], Ds64Missing),
        (&[PCM_16, DATA_4], Ds64Missing),
        (&[LIST_4, DS64_4, PCM_16, DATA_4], Ds64Missing),
        (&[b"ds64\x1b\0\0\0", LIST_20, PCM_16, DATA_4], Ds64Missing),
        (&[b"ds64\x1c\0\0\0", LIST_3, LIST_3, b"abc"], Ds64Missing),
        (
            &[b"ds64\xff\xff\xff\xff", LIST_20, PCM_16, DATA_4],
            Ds64Missing,
        ),
        (&[DS64_4, LIST_TO_END], ChunkPastEnd { at: 48 }),
        (&[DS64_ALL, DATA_REST, PCM_16], NoFmt),
    ];
    refuse(&rt, rt.alloc(), RF64, sizes)?;
    let chunks: &[Case<WaveFault>] = &[
        (&[PCM_16, b"LIST\x05\0\0\0abcd"], ChunkPastEnd { at: 36 }),
        (&[DATA_4, LIST_TO_END, PCM_16], ChunkPastEnd { at: 24 }),
        (&[b"LIST\xfe\xff\xff\xff"], ChunkPastEnd { at: 12 }),
        (&[b"fmt \x10\0\0\0\x01\0\x01\0"], ChunkPastEnd { at: 12 }),
        (&[], NoFmt),
        (&[DATA_4], NoFmt),
        // A `data` chunk that passes the end is the last one.
        (&[DATA_REST, PCM_16], NoFmt),
        (&[PCM_16], NoData),
        (&[PCM_16, b"data\0\0\0"], NoData),
    ];
    refuse(&rt, rt.alloc(), RIFF, chunks)
}

#[test]
fn refuses_bodies_and_step_indices(rt: HostRuntime) -> Result<(), Fail> {
    let refusals: &[Case<WaveFault>] = &[
        (&[b"fmt \0\0\0\0", DATA_4], FmtShort { len: 0 }),
        (&[PCM_SHORT, DATA_4], FmtShort { len: 15 }),
        (&[EXTENSIBLE_39, DATA_4], FmtShort { len: 39 }),
        (&[EXTENSIBLE_FLOAT, DATA_4], Unsupported { tag: 3 }),
        (&[EXTENSIBLE_OTHER, DATA_4], Unsupported { tag: 65534 }),
        // A fault of the format comes before those of the chunks after it.
        (&[EXTENSIBLE_FLOAT, LIST_TO_END], Unsupported { tag: 3 }),
        (&[EXTENSIBLE_FLOAT], Unsupported { tag: 3 }),
        (&[IMA_MONO, IMA_89], step_index(0, 0, 89)),
        (&[IMA_STEREO, IMA_89_SECOND], step_index(0, 1, 89)),
        (&[IMA_STEREO, IMA_255_LATER], step_index(1, 0, 255)),
    ];
    refuse(&rt, rt.alloc(), RIFF, refusals)
}

#[test]
fn refuses_fields_of_the_format(rt: HostRuntime) -> Result<(), Fail> {
    // tag, channels, frames a second, bytes of a frame or block, bits
    let cases: &[((u16, u16, u32, u16, u16), WaveFault)] = &[
        ((0xfffe, 1, 8000, 2, 16), FmtShort { len: 16 }),
        ((0, 1, 8000, 2, 16), Unsupported { tag: 0 }),
        ((2, 0, 8000, 2, 16), Unsupported { tag: 2 }),
        ((3, 1, 8000, 4, 32), Unsupported { tag: 3 }),
        ((1, 0, 0, 2, 16), Channels { n: 0 }),
        ((1, 9, 8000, 18, 16), Channels { n: 9 }),
        ((1, 1, 0, 2, 17), Rate { n: 0 }),
        ((1, 1, 768_001, 2, 16), Rate { n: 768_001 }),
        ((1, 1, 8000, 2, 17), Width { bits: 17, align: 2 }),
        ((1, 1, 8000, 2, 0), Width { bits: 0, align: 2 }),
        ((1, 2, 8000, 3, 8), Width { bits: 8, align: 3 }),
        ((1, 1, 8000, 5, 40), Width { bits: 40, align: 5 }),
        ((1, 1, 8000, 0, 16), Width { bits: 16, align: 0 }),
        ((6, 2, 8000, 4, 16), Width { bits: 16, align: 4 }),
        ((7, 1, 8000, 2, 16), Width { bits: 16, align: 2 }),
        ((17, 2, 8000, 0, 4), ImaAlign { align: 0 }),
        ((17, 2, 8000, 4, 4), ImaAlign { align: 4 }),
        ((17, 2, 8000, 12, 4), ImaAlign { align: 12 }),
    ];
    for ((tag, channels, rate, align, bits), want) in cases {
        let parts: &[&[u8]] = &[
            b"fmt \x10\0\0\0",
            &tag.to_le_bytes(),
            &channels.to_le_bytes(),
            &rate.to_le_bytes(),
            &[0; 4],
            &align.to_le_bytes(),
            &bits.to_le_bytes(),
            DATA_4,
        ];
        let file = file(rt.alloc(), RIFF, parts)?;
        assert_eq!(rt; survey(&file), Err(*want));
    }
    Ok(())
}

/// What is left of a stereo IMA file of 77 bytes.
fn cut_ima(len: usize) -> Result<Wave, WaveFault> {
    let data_len = len.saturating_sub(48) as u64;
    match len {
        0..=3 => Err(NotRiff),
        4..=11 => Err(NotWave),
        12..=19 => Err(NoFmt),
        20..=39 => Err(ChunkPastEnd { at: 12 }),
        40..=47 => Err(NoData),
        48..=55 => Ok(ima_stereo(48, data_len, 0)),
        56..=63 => Ok(ima_stereo(48, data_len, 1)),
        64..=71 => Ok(ima_stereo(48, data_len, 9)),
        _ => Ok(ima_stereo(48, data_len, 10)),
    }
}

/// What is left of an extensible stereo file of 24 bits and 80 bytes.
fn cut_extensible(len: usize) -> Result<Wave, WaveFault> {
    let data_len = len.saturating_sub(68) as u64;
    match len {
        0..=3 => Err(NotRiff),
        4..=11 => Err(NotWave),
        12..=19 => Err(NoFmt),
        20..=59 => Err(ChunkPastEnd { at: 12 }),
        60..=67 => Err(NoData),
        68..=73 => Ok(stereo_24(data_len, 0)),
        74..=79 => Ok(stereo_24(data_len, 1)),
        _ => Ok(stereo_24(data_len, 2)),
    }
}

#[test]
fn reads_files_that_are_cut(rt: HostRuntime) -> Result<(), Fail> {
    let ima = file(rt.alloc(), RIFF, &[IMA_STEREO, IMA_DATA])?;
    assert_eq!(rt; ima.len(), 77);
    for len in 0..78 {
        assert_eq!(rt; survey(&ima[..len]), cut_ima(len), "at {len}");
    }
    let extensible = file(rt.alloc(), RIFF, &[PCM_24, DATA_24])?;
    assert_eq!(rt; extensible.len(), 80);
    for len in 0..81 {
        assert_eq!(rt; survey(&extensible[..len]), cut_extensible(len), "at {len}");
    }
    Ok(())
}
