//! Many edits on one thread beside many visits on another one.
ghost use Rattle.std.specs.Prelude.{◌≡◌, ℕ, ◌<◌, [], replicate, true, false};
ghost use Rattle.std.specs.Thread.{IsSync};
ghost use Rattle.bus_list.specs.PassViews.{is_visiting, list_of_pass};
ghost use Rattle.bus_list.specs.ListViews.{history_of_editor, list_of_editor, OneList};

use crate::lawful::{feeds_after_each, is_lawful};
use crate::recorder::Recorder;
use crate::visited::{Visited, visit};
use bus_list::{Both, BusList, Pass, Window};
use std::alloc::Global;
use std::sync::Wait;
use std::sync::atomic::{AtomicBool, Ordering};
use std::test::*;
use std::thread;
use std::thread::{Threads, join};

const SEED: u64 = 20_261_201;

const EDITS: usize = 20_000;

const MOST_VISITS: usize = 100_000;

/// The pass, with its visits.
#[derive(Drop)]
struct Visits {
    pass: Pass<u32>,
    visits: Vec<Visited>,
}

/// Edits buses that a linear congruential generator chooses, and lets the other thread in after each.
fn edit_many<R: Wait>(rt: &R, mut recorder: Recorder, over: &AtomicBool) -> Recorder
    ensures { list_of_editor result.editor ≡ list_of_editor recorder.editor }
{
    let mut state = SEED;
    for _ in 0..EDITS {
        state = state
            .wrapping_mul(6_364_136_223_846_793_005)
            .wrapping_add(1_442_695_040_888_963_407);
        recorder.edit(rt, (state >> 61) as u32);
        thread::yield_now();
    }
    over.store(true, Ordering::SeqCst);
    recorder
}

/// Visits the list until the edits are over.
fn visit_many(alloc: Global, pass: Pass<u32>, over: &AtomicBool) -> Visits
    requires { is_visiting pass ≡ false }
    ensures { (is_visiting result.pass ≡ false) × (list_of_pass result.pass ≡ list_of_pass pass) }
{
    let mut pass = pass;
    let mut visits = Vec::new(alloc);
    for _ in 0..MOST_VISITS {
        if over.load(Ordering::SeqCst) {
            break;
        }
        let visited = visit(alloc, &mut pass);
        if visits.push(visited).is_err() {
            break;
        }
    }
    Visits { pass, visits }
}

fn at_once<R: Threads + Wait + Sync>(
    rt: &R,
    alloc: Global,
    recorder: Recorder,
    pass: Pass<u32>,
) -> (Recorder, Visits)
    requires { OneList recorder.editor pass × (is_visiting pass ≡ false) }
    ensures { OneList result.0.editor result.1.pass × (is_visiting result.1.pass ≡ false) }
{
    let over = AtomicBool::new(false);
    join(
        rt,
        || -> Recorder
            requires { IsSync R.row }
            ensures { list_of_editor result.editor ≡ list_of_editor recorder.editor }
        { edit_many(rt, recorder, &over) },
        || -> Visits
            requires { is_visiting pass ≡ false }
            ensures { (is_visiting result.pass ≡ false) × (list_of_pass result.pass ≡ list_of_pass pass) }
        { visit_many(alloc, pass, &over) },
    )
}

#[test]
fn each_visit_beside_edits_is_lawful(rt: HostRuntime) -> Result<(), Fail> {
    let alloc = rt.alloc();
    let both = BusList::<u32>::new(alloc, 8)?;
    let (editor, pass) = both.split();
    let feeds = vec![in alloc; 0u32; 8]?;
    let recorder = Recorder::new(editor, feeds, Vec::new(alloc));
    let (recorder, Visits { pass, visits }) = at_once(&rt, alloc, recorder, pass);
    let Recorder {
        editor,
        feeds: _,
        edits,
        faults,
    } = recorder;
    assert_eq!(rt; editor.edits(), EDITS as u64);
    assert_eq!(rt; faults, 0);
    let Some(all) = feeds_after_each(alloc, &edits)? else {
        return Err(Fail::new("the counts of edits are not in order"));
    };
    let unlawful = visits
        .iter()
        .filter(|visited| !is_lawful(&all, visited))
        .count();
    assert_eq!(rt; unlawful, 0);
    assert!(rt;
        visits
            .iter()
            .zip(visits.iter().skip(1))
            .all(|(a, b)| a.window.until <= b.window.from)
    );
    let (_editor, mut pass) = Both::join(editor, pass).split();
    let last = visit(alloc, &mut pass);
    let count = EDITS as u64;
    assert_eq!(rt;
        last.window,
        Window {
            from: count,
            until: count
        }
    );
    assert!(rt; last.whole && is_lawful(&all, &last));
    Ok(())
}
