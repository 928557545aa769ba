//! Scenes of each length around that of a block.

use crate::scripts::{is_plain_mix, script};
use crate::sounds::mono;
use std::test::Fail;

const LENGTHS: [u32; 9] = [0, 1, 2, 511, 512, 513, 1023, 1024, 1025];

/// A looped sound.
const ROWS: &str = "node = [{ kind = \"sound\", name = \"s\", resource = \"a\", loop = true }]
bus = [{ node = \"s\", to = \"endpoint\" }]";

#[test]
fn scenes_of_each_length_are_the_plain_mix(rt: HostRuntime) -> Result<(), Fail> {
    let alloc = rt.alloc();
    let sounds = [mono(100), mono(0), mono(0)];
    for length in LENGTHS {
        for (channels, width) in [(1, 16), (1, 24), (2, 16), (2, 24)] {
            let script = script(alloc, channels, width, length, ROWS)?;
            assert!(rt;
                is_plain_mix(&rt, alloc, script.as_str(), &sounds)?,
                "{length} frames, {channels} channels, {width} bits"
            );
        }
    }
    Ok(())
}
