//! Small files at the rate and in the channels of a scene, worked out by hand.

use crate::sound_files::{Format, wave_file};
use clip_decode::Clip;
use plain_data::OutOfMemory;
use scene_clips::SceneClip;
use std::alloc::Global;
use std::process::Abort;
use std::test::Fail;

/// A clip's channels, its rate and its samples of 24 bits, interleaved; a scene's rate and its
/// channels; and the samples that the clip has there.
type Heard = (u8, u32, &'static [i32], u32, u8, &'static [i32]);

const HEARD: &[Heard] = &[
    // Between two frames stands their mean, rounded down, and after the last one comes 0.
    (
        1,
        8_000,
        &[0, 100, -101],
        16_000,
        1,
        &[0, 50, 100, -1, -101, -51],
    ),
    (
        2,
        8_000,
        &[1, -1, 4, -6],
        16_000,
        2,
        &[1, -1, 2, -4, 4, -6, 2, -3],
    ),
    // Every second frame is left out.
    (1, 16_000, &[0, 100, -101], 8_000, 1, &[0, -101]),
    (1, 768_000, &[5], 1, 1, &[5]),
    (1, 48_000, &[], 44_100, 2, &[]),
    (1, 8_000, &[7], 8_000, 1, &[7]),
    // One channel is heard twice, and of three the first two, or the mean of all, rounded down.
    (1, 8_000, &[7, -8], 8_000, 2, &[7, 7, -8, -8]),
    (3, 8_000, &[1, -2, 5], 8_000, 2, &[1, -2]),
    (3, 8_000, &[1, -2, 5], 8_000, 1, &[1]),
    (2, 8_000, &[-1, 0], 8_000, 1, &[-1]),
];

/// A clip of these samples of 24 bits.
fn clip(alloc: Global, channels: u8, rate: u32, samples: &[i32]) -> Result<Clip, Fail> {
    let mut sound = Vec::new(alloc);
    for sample in samples {
        let [a, b, c, _] = sample.to_le_bytes();
        sound.extend_from_slice(&[a, b, c])?;
    }
    let format = Format {
        tag: 1,
        channels,
        rate,
        align: 3 * u16::from(channels),
        bits: 24,
    };
    let clip = Clip::new(alloc, wave_file(alloc, &format, None, &sound)?);
    Ok(clip.ok().ok_or("a clip")?)
}

/// The clip as a scene hears it.
fn heard(
    rt: &impl Abort,
    alloc: Global,
    clip: &Clip,
    rate: u32,
    channels: u8,
) -> Result<SceneClip, OutOfMemory> {
    assert!(rt; clip.bytes().len() <= 67_108_864);
    assert!(rt; 1 <= rate);
    assert!(rt; rate <= 768_000);
    assert!(rt; 1 <= channels);
    assert!(rt; channels <= 2);
    SceneClip::decode(alloc, clip, rate, channels)
}

fn sample(rt: &impl Abort, heard: &SceneClip, n: u64, channel: u8) -> i32 {
    assert!(rt; n < heard.len());
    assert!(rt; channel < heard.channels());
    heard.sample(n, channel)
}

#[test]
fn scenes_hear_what_was_worked_out(rt: HostRuntime) -> Result<(), Fail> {
    let alloc = rt.alloc();
    for (channels, rate, samples, scene_rate, scene_channels, want) in HEARD {
        let clip = clip(alloc, *channels, *rate, samples)?;
        let heard = heard(&rt, alloc, &clip, *scene_rate, *scene_channels)?;
        let mut found = Vec::new(alloc);
        for n in 0..heard.len() {
            for channel in 0..heard.channels() {
                found.push(sample(&rt, &heard, n, channel))?;
            }
        }
        assert_eq!(rt; found.as_slice(), *want, "{samples:?} at {scene_rate}");
    }
    Ok(())
}

/// The frames from `from` to the end.
fn run(
    rt: &impl Abort,
    alloc: Global,
    heard: &SceneClip,
    from: u64,
) -> Result<Vec<i32>, OutOfMemory> {
    assert!(rt; from <= heard.len());
    let count = (heard.len() - from) as usize;
    let places = count
        .checked_mul(usize::from(heard.channels()))
        .expect(rt, "few places");
    let mut out = vec![in alloc; 0i32; places]?;
    heard.run(from, count, &mut out);
    Ok(out)
}

/// Frames in order are those that are read one by one, in one channel and in two.
#[test]
fn runs_are_the_samples(rt: HostRuntime) -> Result<(), Fail> {
    let alloc = rt.alloc();
    for (channels, rate, scene_channels) in [(2, 44_100, 1), (1, 96_000, 1), (3, 8_000, 2)] {
        let clip = clip(
            alloc,
            channels,
            rate,
            &[9, -8, 700, 6, -5, 4, 3, -2, 1, 0, -11, 12],
        )?;
        let heard = heard(&rt, alloc, &clip, 48_000, scene_channels)?;
        for from in [0, 1] {
            let mut want = Vec::new(alloc);
            for n in from..heard.len() {
                for channel in 0..scene_channels {
                    want.push(sample(&rt, &heard, n, channel))?;
                }
            }
            assert_eq!(rt;
                run(&rt, alloc, &heard, from)?.as_slice(),
                want.as_slice(),
                "from {from}"
            );
        }
    }
    Ok(())
}

/// Two seconds at 44100 Hz make 96000 frames at 48000 Hz. Frame 1 is 44100 parts of 48000 on the way
/// from frame 0 to frame 1, frame 2 is 40200 on the way to frame 2, and the last one 3900 on the way
/// to the 0 after the end.
#[test]
fn two_seconds_at_another_rate(rt: HostRuntime) -> Result<(), Fail> {
    let alloc = rt.alloc();
    let mut samples = vec![in alloc; 0i32; 88_200]?;
    samples[1] = 5120;
    samples[88_199] = 48_000;
    let clip = clip(alloc, 1, 44_100, &samples)?;
    let heard = heard(&rt, alloc, &clip, 48_000, 1)?;
    assert_eq!(rt; heard.len(), 96_000);
    for (n, want) in [(0, 0), (1, 4704), (2, 832), (95_999, 44_100)] {
        assert_eq!(rt; sample(&rt, &heard, n, 0), want, "frame {n}");
    }
    Ok(())
}

/// Frames of a clip of 1 Hz in a scene of 768000 Hz.
#[test]
fn a_second_from_frame_to_frame(rt: HostRuntime) -> Result<(), Fail> {
    let alloc = rt.alloc();
    let clip = clip(alloc, 1, 1, &[0, 768_000, -256])?;
    let heard = heard(&rt, alloc, &clip, 768_000, 1)?;
    assert_eq!(rt; heard.len(), 2_304_000);
    for (n, want) in [
        (1, 1),
        (767_999, 767_999),
        (768_000, 768_000),
        (1_536_000, -256),
        (1_920_000, -128),
        (2_303_999, -1),
    ] {
        assert_eq!(rt; sample(&rt, &heard, n, 0), want, "frame {n}");
    }
    Ok(())
}
