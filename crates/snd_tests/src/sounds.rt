//! `mix` of one sound of each format, at other rates and in other channels.
use crate::programs::{data_of, mixed, script, sound};
use plain_data::OutOfMemory;
use std::alloc::{AllocError, Global};
use std::test::Fail;

/// Files of one channel at 8000 Hz, the frames of the scene, and the samples that come out.
const FORMATS: &[(&[u8], u32, &[u8])] = &[
    // A-law and mu-law.
    (
        b"RIFF\0\0\0\0WAVEfmt \x10\0\0\0\x06\0\x01\0\x40\x1f\0\0\0\0\0\0\x01\0\x08\0data\x04\0\0\0\xd5\x55\xaa\x2a",
        4,
        b"\x08\0\xf8\xff\0\x7e\0\x82",
    ),
    (
        b"RIFF\0\0\0\0WAVEfmt \x10\0\0\0\x07\0\x01\0\x40\x1f\0\0\0\0\0\0\x01\0\x08\0data\x04\0\0\0\0\x80\xff\x7f",
        4,
        b"\x84\x82\x7c\x7d\0\0\0\0",
    ),
    // IMA ADPCM of one block.
    (
        b"RIFF\0\0\0\0WAVEfmt \x10\0\0\0\x11\0\x01\0\x40\x1f\0\0\0\0\0\0\x08\0\x04\0data\x08\0\0\0\0\x7d\x58\0\x77\xff\0\x08",
        9,
        b"\0\x7d\xff\x7f\xff\x7f\x03\x90\0\x80\xff\x8f\x8b\x9e\x52\x91\x57\x9d",
    ),
    // 8, 24 and 32 bits, and 12 bits in a container of two bytes.
    (
        b"RIFF\0\0\0\0WAVEfmt \x10\0\0\0\x01\0\x01\0\x40\x1f\0\0\0\0\0\0\x01\0\x08\0data\x03\0\0\0\x00\x80\xff",
        3,
        b"\0\x80\0\0\0\x7f",
    ),
    (
        b"RIFF\0\0\0\0WAVEfmt \x10\0\0\0\x01\0\x01\0\x40\x1f\0\0\0\0\0\0\x03\0\x18\0data\x06\0\0\0\xff\xff\xff\x00\x01\x02",
        2,
        b"\xff\xff\x01\x02",
    ),
    (
        b"RIFF\0\0\0\0WAVEfmt \x10\0\0\0\x01\0\x01\0\x40\x1f\0\0\0\0\0\0\x04\0\x20\0data\x04\0\0\0\xff\x01\x02\x03",
        1,
        b"\x02\x03",
    ),
    (
        b"RIFF\0\0\0\0WAVEfmt \x10\0\0\0\x01\0\x01\0\x40\x1f\0\0\0\0\0\0\x02\0\x0c\0data\x02\0\0\0\xf0\x7f",
        1,
        b"\xf0\x7f",
    ),
];

#[test]
fn each_format_has_the_samples_of_its_standard(rt: HostRuntime) -> Result<(), Fail> {
    let alloc = rt.alloc();
    for (file, frames, want) in FORMATS {
        let script = script(alloc, 8000, 1, 16, *frames)?;
        let (out, _) = mixed(alloc, script.as_str(), &[("tone.wav", file)])?;
        assert_eq!(rt; data_of(&out), *want);
    }
    Ok(())
}

/// A stereo IMA file with blocks of 16 bytes: one of nine frames (100, -100) and a short one of (5, 6), with a `fact`
/// of this count, if there is one.
fn ima_stereo(alloc: Global, fact: Option<u8>) -> Result<Vec<u8>, AllocError> {
    let mut file = Vec::from_slice(
        alloc,
        b"RIFF\0\0\0\0WAVEfmt \x10\0\0\0\x11\0\x02\0\x40\x1f\0\0\0\0\0\0\x10\0\x04\0",
    )?;
    if let Some(count) = fact {
        file.extend_from_slice(b"fact\x04\0\0\0")?;
        file.extend_from_slice(&[count, 0, 0, 0])?;
    }
    file.extend_from_slice(b"data\x1d\0\0\0")?;
    file.extend_from_slice(b"\x64\0\0\0\x9c\xff\0\0\0\0\0\0\0\0\0\0")?;
    file.extend_from_slice(b"\x05\0\0\0\x06\0\0\0\0\0\0\0\0")?;
    Ok(file)
}

#[test]
fn a_short_block_and_a_count_of_frames_end_the_sound(rt: HostRuntime) -> Result<(), Fail> {
    let alloc = rt.alloc();
    let counts = [(None, 10), (Some(20), 10), (Some(0), 10), (Some(7), 7)];
    for (fact, frames) in counts {
        let file = ima_stereo(alloc, fact)?;
        let script = script(alloc, 8000, 2, 16, 10)?;
        let (out, _) = mixed(alloc, script.as_str(), &[("tone.wav", &file)])?;
        let mut want = Vec::new(alloc);
        for frame in 0..10 {
            let sample: &[u8] = if frame >= frames {
                b"\0\0\0\0"
            } else if frame == 9 {
                b"\x05\0\x06\0"
            } else {
                b"\x64\0\x9c\xff"
            };
            want.extend_from_slice(sample)?;
        }
        assert_eq!(rt; data_of(&out), want.as_slice(), "{fact:?}");
    }
    Ok(())
}

/// The sample of 16 bits at a place of samples.
fn sample_at(samples: &[u8], place: usize) -> Option<i16> {
    let at = place.checked_mul(2)?;
    let low = *samples.get(at)?;
    let high = *samples.get(at.checked_add(1)?)?;
    Some(i16::from_le_bytes([low, high]))
}

#[test]
fn a_sound_of_half_the_rate_is_interpolated(rt: HostRuntime) -> Result<(), Fail> {
    let alloc = rt.alloc();
    let mut samples = vec![in alloc; 0i16; 8191]?;
    samples.push(1000)?;
    samples.push(2001)?;
    assert!(rt; samples.len() <= 9000);
    let file = sound(alloc, 1, 8000, &samples)?;
    let script = script(alloc, 16_000, 1, 16, 16_387)?;
    let (out, _) = mixed(alloc, script.as_str(), &[("tone.wav", &file)])?;
    let out = data_of(&out);
    assert_eq!(rt; sample_at(out, 16_381), Some(500));
    assert_eq!(rt; sample_at(out, 16_382), Some(1000));
    assert_eq!(rt; sample_at(out, 16_383), Some(1500));
    assert_eq!(rt; sample_at(out, 16_384), Some(2001));
    assert_eq!(rt; sample_at(out, 16_385), Some(1000));
    assert_eq!(rt; sample_at(out, 16_386), Some(0));
    Ok(())
}

/// The script of a scene at 48000 Hz: music through a group that an edit turns down, and a looped
/// effect that begins later.
const MUSIC: &str = "version = 1
rate = 48000
channels = 2
width = 16
length = 96000
resource = [{ name = \"music\", file = \"music.wav\" }, { name = \"effect\", file = \"effect.wav\" }]
node = [{ kind = \"sound\", name = \"m\", resource = \"music\" }, { kind = \"group\", name = \"g\" }, { kind = \"sound\", name = \"e\", resource = \"effect\", loop = true, from = 24000 }]
bus = [{ node = \"m\", to = \"g\" }, { node = \"g\", to = \"endpoint\" }, { node = \"e\", to = \"endpoint\", gain = 16384 }]
edit = [{ op = \"gain\", at = 48000, node = \"g\", value = 32768 }]
";

/// 88200 frames (v, -v) with v 20 times the frame's number modulo 1000.
fn music(alloc: Global) -> Result<Vec<i16>, AllocError> {
    let mut samples = Vec::new(alloc);
    for frame in 0..88_200u32 {
        let value = (frame % 1000) as i16 * 20;
        samples.push(value)?;
        samples.push(-value)?;
    }
    Ok(samples)
}

/// OUT of that scene.
fn music_out(alloc: Global) -> Result<Vec<u8>, OutOfMemory> {
    let music = music(alloc)?;
    let effect = vec![in alloc; 1000i16; 480]?;
    if music.len() > 200_000 || effect.len() > 1000 {
        return Err(OutOfMemory);
    }
    let music = sound(alloc, 2, 44_100, &music)?;
    let effect = sound(alloc, 1, 48_000, &effect)?;
    let files: [(&str, &[u8]); 2] = [("music.wav", &music), ("effect.wav", &effect)];
    Ok(mixed(alloc, MUSIC, &files)?.0)
}

#[test]
fn music_at_another_rate_plays_under_an_effect(rt: HostRuntime) -> Result<(), Fail> {
    let out = music_out(rt.alloc())?;
    assert_eq!(rt; out.len(), 384_044);
    let out = data_of(&out);
    let frames = [
        (1, 18, -19),
        (24_000, 1250, -750),
        (48_000, 1250, -750),
        (72_000, 1750, -1250),
    ];
    for (frame, left, right) in frames {
        assert_eq!(rt; sample_at(out, 2 * frame), Some(left), "{frame}");
        assert_eq!(rt; sample_at(out, 2 * frame + 1), Some(right), "{frame}");
    }
    Ok(())
}

#[test]
fn a_sound_of_more_channels_is_brought_to_those_of_the_scene(rt: HostRuntime) -> Result<(), Fail> {
    let alloc = rt.alloc();
    // Three channels of 16 bits: (1, -2, 5) and (-1, 0, 0).
    let file =
        b"RIFF\0\0\0\0WAVEfmt \x10\0\0\0\x01\0\x03\0\x40\x1f\0\0\0\0\0\0\x06\0\x10\0data\x0c\0\0\0\x01\0\xfe\xff\x05\0\xff\xff\0\0\0\0";
    let script_2 = script(alloc, 8000, 2, 16, 2)?;
    let (out, _) = mixed(alloc, script_2.as_str(), &[("tone.wav", file.as_slice())])?;
    assert_eq!(rt; data_of(&out), b"\x01\0\xfe\xff\xff\xff\0\0".as_slice());
    let script_1 = script(alloc, 8000, 1, 24, 2)?;
    let (out, _) = mixed(alloc, script_1.as_str(), &[("tone.wav", file.as_slice())])?;
    // The floors of a third of 4 * 256 and of -256.
    assert_eq!(rt; data_of(&out), b"\x55\x01\0\xaa\xff\xff".as_slice());
    Ok(())
}
