//! Clips that end, or begin again, around the edges of blocks and of pages.

use crate::scripts::{is_plain_mix, script};
use crate::sounds::{mono, stereo};
use std::alloc::{AllocError, Global};
use std::test::Fail;

const FRAMES: [u16; 8] = [0, 1, 511, 512, 513, 8191, 8192, 8193];

/// Of the scene's rate, a lower and a higher one.
const RATES: [u16; 3] = [8000, 4000, 12_000];

/// A script of sound `a`, looped or not, which is a little longer than the clip is at half the rate.
fn one_sound(
    alloc: Global,
    channels: u8,
    frames: u16,
    is_looped: bool,
) -> Result<String, AllocError> {
    let rows = format!(in alloc;
        "node = [{{ kind = \"sound\", name = \"s\", resource = \"a\", loop = {is_looped} }}]
bus = [{{ node = \"s\", to = \"endpoint\" }}]"
    )?;
    let length = 2 * u32::from(frames) + 600;
    script(alloc, channels, 24, length, rows.as_str())
}

#[test]
fn clips_of_each_length_are_those_of_the_plain_mix(rt: HostRuntime) -> Result<(), Fail> {
    let alloc = rt.alloc();
    for frames in FRAMES {
        for (channels, is_looped) in [(1, false), (1, true), (2, false), (2, true)] {
            let script = one_sound(alloc, channels, frames, is_looped)?;
            for rate in RATES {
                let sounds = [stereo(rate, frames), mono(0), mono(0)];
                assert!(rt;
                    is_plain_mix(&rt, alloc, script.as_str(), &sounds)?,
                    "{frames} frames at {rate} Hz, {channels} channels, looped {is_looped}"
                );
            }
        }
    }
    Ok(())
}

/// Clips of 6 seconds, 4608000 frames here: more than the 4194304 frames that the engine brings to
/// the scene's rate beforehand. One sound plays over the last of these, the other sound's clip has none.
const LONG: &str = "version = 1
rate = 768000
channels = 2
width = 24
length = 1100
resource = [{ name = \"a\", file = \"a\" }, { name = \"b\", file = \"b\" }]
node = [
    { kind = \"sound\", name = \"s\", resource = \"a\" },
    { kind = \"sound\", name = \"t\", resource = \"b\", loop = true },
]
bus = [
    { node = \"s\", to = \"endpoint\", gain = 30000 },
    { node = \"t\", to = \"endpoint\", gain = 30000 },
]
edit = [
    { op = \"seek\", at = 0, node = \"s\", value = 4193604 },
    { op = \"seek\", at = 600, node = \"t\", value = 4607900 },
]
";

#[test]
fn long_clips_are_those_of_the_plain_mix(rt: HostRuntime) -> Result<(), Fail> {
    let sounds = [stereo(1, 6), stereo(1, 6)];
    assert!(rt; is_plain_mix(&rt, rt.alloc(), LONG, &sounds)?);
    Ok(())
}
