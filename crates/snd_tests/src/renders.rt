//! `render` with workers: it comes to what `mix` comes to, for every number of workers.
ghost use Rattle.std.specs.Prelude.{◌≡◌, None, IfOk};
ghost use Rattle.snd_io.specs.MemFiles.{mem_writing};
ghost use Rattle.snd_io.specs.SureFiles.{sure_writing};

use crate::mixes::failing_at;
use crate::programs::{depot_of, ends, run, script, sound, words_of};
use crate::scenes::{WORKED, worked_depot};
use plain_data::OutOfMemory;
use snd_io::{Depot, Event, FreeGate, Gate, HoldGate, MemDepot, MemSink, Snag, SureDepot};
use snd_tools::{Status, run_render};
use std::alloc::{AllocError, Global};
use std::sync::Wait;
use std::test::Fail;
use std::thread::Threads;

const MIX: &[&str] = &["mix", "scene.toml", "out.wav"];

/// The status of a command of `scenerender`, and the text that it printed.
fn render<R: Threads + Wait + Sync, D: Depot, G: Gate + Sync>(
    rt: &R,
    alloc: Global,
    depot: &mut D,
    words: &[&str],
    gate: &G,
) -> Result<(Status, Vec<u8>), OutOfMemory>
    requires { D.writing depot.old ≡ None }
    ensures { D.writing depot.new ≡ None }
{
    let owned = words_of(alloc, words)?;
    let mut text = MemSink::new(alloc)?;
    let status = run_render(rt, alloc, &owned, depot, &mut text, gate);
    let printed = Vec::from_slice(alloc, text.bytes())?;
    Ok((status, printed))
}

/// Whether `render` with so many workers, to `again.wav`, ends with 0, and leaves the bytes and prints the line
/// of `mix`, to `out.wav`.
fn is_as_mixed<R: Threads + Wait + Sync>(
    rt: &R,
    alloc: Global,
    depot: &mut SureDepot,
    scene: &str,
    workers: &str,
) -> Result<bool, OutOfMemory>
    requires { sure_writing depot.old ≡ None }
    ensures { sure_writing depot.new ≡ None }
{
    let (mixed, line) = run(alloc, depot, &["mix", scene, "out.wav"])?;
    let words = ["render", scene, "again.wav", workers];
    let (rendered, again) = render(rt, alloc, depot, &words, &FreeGate)?;
    Ok(
        mixed.code() == 0
            && rendered.code() == 0
            && line.as_slice() == again.as_slice()
            && depot.file("out.wav") == depot.file("again.wav"),
    )
}

#[test]
fn each_worked_scene_is_rendered_as_it_is_mixed(rt: HostRuntime) -> Result<(), Fail> {
    for worked in WORKED {
        let mut depot = worked_depot(rt.alloc(), worked)?;
        assert!(rt;
            is_as_mixed(&rt, rt.alloc(), &mut depot, "scene.toml", "3")?,
            "{}",
            worked.0
        );
    }
    Ok(())
}

/// Whether the scene of number 1, which has 8 sound files of 220,500 frames, is rendered with so many workers as
/// it is mixed.
fn is_large_scene_as_mixed<R: Threads + Wait + Sync>(
    rt: &R,
    alloc: Global,
    workers: &str,
) -> Result<bool, OutOfMemory> {
    let mut depot = SureDepot::new(alloc)?;
    run(alloc, &mut depot, &["gen", "1", "g"])?;
    let same = is_as_mixed(rt, alloc, &mut depot, "g.toml", workers)?;
    let size = depot.file("again.wav").map(|bytes| bytes.len());
    Ok(same && size == Some(2_880_044))
}

#[test]
fn a_large_scene_is_the_same_without_workers(rt: HostRuntime) -> Result<(), Fail> {
    assert!(rt; is_large_scene_as_mixed(&rt, rt.alloc(), "0")?);
    Ok(())
}

#[test]
fn a_large_scene_is_the_same_with_one_worker(rt: HostRuntime) -> Result<(), Fail> {
    assert!(rt; is_large_scene_as_mixed(&rt, rt.alloc(), "1")?);
    Ok(())
}

#[test]
fn a_large_scene_is_the_same_with_two_workers(rt: HostRuntime) -> Result<(), Fail> {
    assert!(rt; is_large_scene_as_mixed(&rt, rt.alloc(), "2")?);
    Ok(())
}

#[test]
fn a_large_scene_is_the_same_with_sixteen_workers(rt: HostRuntime) -> Result<(), Fail> {
    assert!(rt; is_large_scene_as_mixed(&rt, rt.alloc(), "16")?);
    Ok(())
}

/// A store with the scene of one sound of 600 samples, which fails at this append and takes nothing.
fn append_fails(alloc: Global, call: u32) -> Result<MemDepot, OutOfMemory>
    ensures { IfOk result (λ depot. mem_writing depot ≡ None) }
{
    let mut depot = six_hundred(alloc)?;
    let snag = Snag {
        appends_only: true,
        call,
        taken: 0,
    };
    depot.fail(alloc, snag)?;
    Ok(depot)
}

/// A store with the scene of one sound of 600 samples.
fn six_hundred(alloc: Global) -> Result<MemDepot, OutOfMemory>
    ensures { IfOk result (λ depot. mem_writing depot ≡ None) }
{
    let mut depot = MemDepot::new(alloc)?;
    let text = script(alloc, 8000, 1, 16, 600)?;
    depot.set(alloc, "scene.toml", text.as_str().as_bytes())?;
    let samples = vec![in alloc; 77i16; 600]?;
    let file = sound(alloc, 1, 8000, &samples)?;
    depot.set(alloc, "tone.wav", &file)?;
    Ok(depot)
}

/// Whether `render` with so many workers ends with 3 where this append fails, and leaves these bytes.
fn leaves<R: Threads + Wait + Sync>(
    rt: &R,
    alloc: Global,
    workers: &str,
    call: u32,
    left: Option<&[u8]>,
) -> Result<bool, OutOfMemory> {
    let words = ["render", "scene.toml", "out.wav", workers];
    let mut depot = append_fails(alloc, call)?;
    let (status, text) = render(rt, alloc, &mut depot, &words, &FreeGate)?;
    Ok(
        status.code() == 3
            && text.as_slice() == b"depot failed\n".as_slice()
            && depot.file("out.wav") == left,
    )
}

/// The header has 44 bytes, the first block 1024 and the second one 176: what is left is whole appends.
#[test]
fn a_failing_append_leaves_the_blocks_before_it(rt: HostRuntime) -> Result<(), Fail> {
    let alloc = rt.alloc();
    let mut whole = six_hundred(alloc)?;
    let (status, _) = run(alloc, &mut whole, MIX)?;
    assert_eq!(rt; status.code(), 0);
    let Some(all) = whole.file("out.wav") else {
        return Err(Fail::from("no file"));
    };
    assert_eq!(rt; all.len(), 1244);
    for workers in ["0", "1", "3", "16"] {
        assert!(rt; leaves(&rt, alloc, workers, 1, all.get(..0))?, "{workers}");
        assert!(rt; leaves(&rt, alloc, workers, 2, all.get(..44))?, "{workers}");
        assert!(rt;
            leaves(&rt, alloc, workers, 3, all.get(..1068))?,
            "{workers}"
        );
        let words = ["render", "scene.toml", "out.wav", workers];
        let mut depot = append_fails(alloc, 4)?;
        let (status, _) = render(&rt, alloc, &mut depot, &words, &FreeGate)?;
        assert_eq!(rt; status.code(), 0);
        assert!(rt; depot.file("out.wav") == Some(all), "{workers}");
    }
    Ok(())
}

/// The status of `render` of the four samples with 3 workers into a store that fails at this call, and how many
/// bytes OUT has.
fn render_failing<R: Threads + Wait + Sync>(
    rt: &R,
    alloc: Global,
    call: u32,
) -> Result<(u8, Option<usize>), OutOfMemory> {
    let mut depot = failing_at(alloc, call)?;
    let words = ["render", "scene.toml", "out.wav", "3"];
    let (status, _) = render(rt, alloc, &mut depot, &words, &FreeGate)?;
    Ok((
        status.code(),
        depot.file("out.wav").map(|bytes| bytes.len()),
    ))
}

#[test]
fn a_failing_call_leaves_a_prefix_of_a_rendering(rt: HostRuntime) -> Result<(), Fail> {
    // Two fetches, create, an append for the header and one for the block, and finish: what is left of the 52 bytes.
    let left = [None, None, None, Some(7), Some(51), Some(52)];
    for (call, want) in (1..).zip(left) {
        assert_eq!(rt; render_failing(&rt, rt.alloc(), call)?, (3, want), "{call}");
    }
    assert_eq!(rt; render_failing(&rt, rt.alloc(), 7)?, (0, Some(52)));
    Ok(())
}

#[test]
fn a_text_that_fails_is_told_after_a_rendering(rt: HostRuntime) -> Result<(), Fail> {
    let alloc = rt.alloc();
    let mut depot = six_hundred(alloc)?;
    let words = words_of(alloc, &["render", "scene.toml", "out.wav", "2"])?;
    let mut text = MemSink::new(alloc)?;
    text.fail(alloc, 1, 6)?;
    let status = run_render(&rt, alloc, &words, &mut depot, &mut text, &FreeGate);
    assert_eq!(rt; status.code(), 8);
    assert_eq!(rt; text.bytes(), b"frames".as_slice());
    assert!(rt; depot.file("out.wav").map(|bytes| bytes.len()) == Some(1244));
    Ok(())
}

/// A script of two sounds, `a` and `b`, that are heard for 16384 frames.
const TWO_SOUNDS: &str = "version = 1
rate = 8000
channels = 1
width = 16
length = 16384
resource = [{ name = \"a\", file = \"a.wav\" }, { name = \"b\", file = \"b.wav\" }]
node = [{ kind = \"sound\", name = \"s\", resource = \"a\" }, { kind = \"sound\", name = \"t\", resource = \"b\" }]
bus = [{ node = \"s\", to = \"endpoint\" }, { node = \"t\", to = \"endpoint\" }]
";

/// A store with that script and files of 16384 samples, which are two pages each.
fn two_sounds(alloc: Global) -> Result<SureDepot, OutOfMemory>
    ensures { IfOk result (λ depot. sure_writing depot ≡ None) }
{
    let a = sound(alloc, 1, 8000, &vec![in alloc; 3i16; 16384]?)?;
    let b = sound(alloc, 1, 8000, &vec![in alloc; 400i16; 16384]?)?;
    let files: [(&str, &[u8]); 2] = [("a.wav", &a), ("b.wav", &b)];
    depot_of(alloc, TWO_SOUNDS, &files)
}

/// A gate at which the first page of one resource is decoded only after that of the other one, which is `first`.
fn other_after(alloc: Global, first: u32, turns: u32) -> Result<HoldGate, OutOfMemory> {
    let order = [
        Event::AfterJob {
            resource: first,
            page: 0,
        },
        Event::BeforeJob {
            resource: u32::from(first == 0),
            page: 0,
        },
    ];
    HoldGate::new(alloc, Vec::from_slice(alloc, &order)?, turns)
}

/// A body that decodes on one thread, in order, would run out of turns.
#[test]
fn two_workers_decode_at_once(rt: HostRuntime) -> Result<(), Fail> {
    let alloc = rt.alloc();
    let mut depot = two_sounds(alloc)?;
    run(alloc, &mut depot, MIX)?;
    let words = ["render", "scene.toml", "again.wav", "2"];
    for first in [1, 0] {
        let gate = other_after(alloc, first, 10_000_000)?;
        let (status, _) = render(&rt, alloc, &mut depot, &words, &gate)?;
        assert_eq!(rt; status.code(), 0);
        assert!(rt; gate.kept());
        assert!(rt; depot.file("out.wav") == depot.file("again.wav"));
    }
    Ok(())
}

#[test]
fn without_workers_the_first_resource_is_decoded_first(rt: HostRuntime) -> Result<(), Fail> {
    let alloc = rt.alloc();
    let mut depot = two_sounds(alloc)?;
    let words = ["render", "scene.toml", "out.wav", "0"];
    let gate = other_after(alloc, 1, 1000)?;
    let (status, _) = render(&rt, alloc, &mut depot, &words, &gate)?;
    assert_eq!(rt; status.code(), 0);
    assert!(rt; !gate.kept());
    Ok(())
}

#[test]
fn workers_without_a_resource_have_nothing_to_do(rt: HostRuntime) -> Result<(), Fail> {
    let alloc = rt.alloc();
    let text = "version = 1\nrate = 8000\nchannels = 2\nwidth = 24\nlength = 700\n";
    let mut depot = depot_of(alloc, text, &[])?;
    assert!(rt; is_as_mixed(&rt, alloc, &mut depot, "scene.toml", "16")?);
    assert!(rt; depot.file("again.wav").map(|bytes| bytes.len()) == Some(4244));
    Ok(())
}

#[test]
fn sixteen_workers_come_to_the_same_each_time(rt: HostRuntime) -> Result<(), Fail> {
    let mut depot = two_sounds(rt.alloc())?;
    for _ in 0..50u32 {
        assert!(rt; is_as_mixed(&rt, rt.alloc(), &mut depot, "scene.toml", "16")?);
    }
    Ok(())
}

/// Words of `scenerender`, and the place of the first that doesn't fit, as the text tells it.
const USAGES: &[(&[&str], &str)] = &[
    (&[], "usage: word 0\n"),
    (&["mix", "a", "b"], "usage: word 0\n"),
    (&["render"], "usage: word 1\n"),
    (&["render", "a"], "usage: word 2\n"),
    (&["render", "a", "b"], "usage: word 3\n"),
    (&["render", "a", "b", "17"], "usage: word 3\n"),
    (&["render", "a", "b", "016"], "usage: word 3\n"),
    (&["render", "a", "b", "x"], "usage: word 3\n"),
    (&["render", "", "b", "x"], "usage: word 1\n"),
    (&["render", "a", "", "x"], "usage: word 2\n"),
    (&["render", "a", "b", "2", "c"], "usage: word 4\n"),
];

#[test]
fn words_that_are_no_rendering_are_named_by_their_place(rt: HostRuntime) -> Result<(), Fail> {
    let alloc = rt.alloc();
    for (words, line) in USAGES {
        let mut depot = SureDepot::new(alloc)?;
        let (status, text) = render(&rt, alloc, &mut depot, words, &FreeGate)?;
        assert_eq!(rt; status.code(), 2, "{words:?}");
        assert_eq!(rt; text.as_slice(), line.as_bytes(), "{words:?}");
    }
    for workers in ["0", "02", "16"] {
        let mut depot = SureDepot::new(alloc)?;
        let words = ["render", "a", "b", workers];
        let (status, text) = render(&rt, alloc, &mut depot, &words, &FreeGate)?;
        assert_eq!(rt; status.code(), 4);
        assert_eq!(rt; text.as_slice(), b"absent: a\n".as_slice());
    }
    let mut depot = SureDepot::new(alloc)?;
    assert!(rt;
        ends(
            alloc,
            &mut depot,
            &["render", "a", "b", "2"],
            2,
            "usage: word 0\n"
        )?
    );
    Ok(())
}
