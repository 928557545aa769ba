//! The pages of a clip on a tape, and the texts of what isn't given.

use crate::sound_files::{Format, wave_file};
use clip_decode::Clip;
use exec_reel::NotYet;
use resource_mgr::{LibFault, Tape};
use scene_clips::PagedClip;
use std::alloc::Global;
use std::process::Abort;
use std::test::Fail;
use wave_read::WaveFault;

/// A mono clip of 20000 frames of 16 bits, of which frame n has n mod 100 in its high byte.
fn long_clip(alloc: Global) -> Result<Clip, Fail> {
    let mut sound = Vec::new(alloc);
    for n in 0u32..20_000 {
        sound.extend_from_slice(&[0, (n % 100) as u8])?;
    }
    let format = Format {
        tag: 1,
        channels: 1,
        rate: 8_000,
        align: 2,
        bits: 16,
    };
    let clip = Clip::new(alloc, wave_file(alloc, &format, None, &sound)?);
    Ok(clip.ok().ok_or("a clip")?)
}

/// The number of samples of a page of a tape, and its first one.
fn told(rt: &impl Abort, tape: &mut Tape, k: u32) -> Option<(usize, i32)> {
    assert!(rt; k < tape.pages());
    let samples = tape.page(k).ok()?.samples();
    Some((samples.len(), *samples.first()?))
}

#[test]
fn a_whole_tape_shows_all_pages(rt: HostRuntime) -> Result<(), Fail> {
    let alloc = rt.alloc();
    let clip = long_clip(alloc)?;
    assert!(rt; clip.bytes().len() <= 67_108_864);
    let mut tape = Tape::whole(alloc, clip)?;
    assert_eq!(rt; tape.pages(), 3);
    assert_eq!(rt; tape.wave().frames, 20_000);
    assert_eq!(rt; told(&rt, &mut tape, 0), Some((8_192, 0)));
    assert_eq!(rt; told(&rt, &mut tape, 1), Some((8_192, 92 * 65_536)));
    assert_eq!(rt; told(&rt, &mut tape, 2), Some((3_616, 84 * 65_536)));
    Ok(())
}

#[test]
fn a_tape_has_the_first_pages_that_a_clip_of_a_scene_needs(rt: HostRuntime) -> Result<(), Fail> {
    let alloc = rt.alloc();
    let clip = long_clip(alloc)?;
    assert!(rt; clip.bytes().len() <= 67_108_864);
    let mut tape = Tape::whole(alloc, clip)?;
    let heard = PagedClip::of(tape.clip(), 8_000, 1);
    for (frame, pages) in [(0, 1), (8_190, 1), (8_191, 2), (16_383, 3), (19_999, 3)] {
        assert!(rt; frame < heard.len());
        assert_eq!(rt; heard.pages_to(frame), pages);
    }
    assert!(rt; 2 <= tape.pages());
    assert!(rt; tape.ask_first(2).is_ok());
    let found: [bool; 3] = [0, 1, 2].map(|k| matches!(tape.given().get(k), Some(Some(_))));
    assert_eq!(rt; found, [true, true, false]);
    Ok(())
}

#[test]
fn faults_name_the_resource(rt: HostRuntime) -> Result<(), Fail> {
    let alloc = rt.alloc();
    let faults = [
        (LibFault::DepotFault, "depot failed"),
        (LibFault::Absent { resource: 3 }, "absent: resource 3"),
        (
            LibFault::TooLong {
                resource: 1,
                limit: 67_108_864,
            },
            "too long: resource 1 limit 67108864",
        ),
        (
            LibFault::File {
                resource: 0,
                fault: WaveFault::NotRiff,
            },
            "file: resource 0: NotRiff",
        ),
        (LibFault::OutOfMemory, "out of memory"),
    ];
    for (fault, text) in faults {
        let printed = format!(in alloc; "{fault}")?;
        assert!(rt; printed.as_str() == text);
    }
    let early = NotYet { shown: 2 };
    let printed = format!(in alloc; "{early}")?;
    assert!(rt; printed.as_str() == "not yet: shown 2");
    Ok(())
}
