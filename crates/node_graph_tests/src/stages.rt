//! A stage under edits: each kind of edit once, and many.

ghost use Rattle.std.specs.Prelude.{◌≡◌};

use crate::both::{assert_attached, assert_dials, edit_both, has_input, visited, words};
use crate::scenes::{SOUND, SPLITTER, scene};
use node_graph::{Feed, Stage};
use plain_data::OutOfMemory;
use scene_model::{BusRow, Edit, NodeKind, Plan, Reply};
use std::alloc::Global;
use std::process::Abort;
use std::test::Fail;

fn row(node: u32, out: u8, to: Option<u32>, gain: u32) -> BusRow {
    BusRow {
        node,
        out,
        to,
        gain,
    }
}

/// Each kind of edit with what it is answered, in the scene of the first test.
const EDITS: [(Edit, Reply); 12] = [
    (
        Edit::Attach {
            node: 2,
            out: 0,
            to: 3,
        },
        Reply::Done,
    ),
    (
        Edit::Attach {
            node: 0,
            out: 0,
            to: 3,
        },
        Reply::AlreadyAttached { to: 1 },
    ),
    (Edit::Detach { node: 0, out: 0 }, Reply::Done),
    (
        Edit::SetGain {
            node: 2,
            out: 0,
            gain: 1_048_576,
        },
        Reply::Done,
    ),
    (
        Edit::SetGain {
            node: 2,
            out: 0,
            gain: 1_048_577,
        },
        Reply::GainTooLarge,
    ),
    (Edit::Stop { node: 1 }, Reply::Done),
    (Edit::Start { node: 2 }, Reply::Done),
    (
        Edit::From {
            node: 1,
            value: 100,
        },
        Reply::Done,
    ),
    (
        Edit::Until {
            node: 1,
            value: 200,
        },
        Reply::Done,
    ),
    (Edit::Seek { node: 0, place: 5 }, Reply::Done),
    (Edit::Seek { node: 0, place: 7 }, Reply::Done),
    (Edit::Loop { node: 0, on: true }, Reply::Done),
];

/// The board after these edits: a sound that was sought twice, 2 * 2 ^ 47 + 7, a group and a
/// splitter, and then the gains of the buses.
const BOARD: [u64; 19] = [
    1,
    0,
    16_777_216,
    281_474_976_710_663,
    1,
    0,
    100,
    200,
    0,
    0,
    1,
    0,
    16_777_216,
    0,
    0,
    65536,
    32768,
    1_048_576,
    1,
];

/// Makes edits in both and compares what each is answered.
fn make_edits<R: Abort>(rt: &R, stage: &mut Stage, plan: &mut Plan, edits: &[(Edit, Reply)])
    requires { stage.old ≡ plan.old }
    ensures { stage.new ≡ plan.new }
{
    for (edit, reply) in edits {
        let answer = edit_both(rt, stage, plan, edit);
        assert!(rt; answer == Some(*reply));
    }
}

/// Asserts that these are the numbers of the buses that are attached to the endpoint, and that they
/// come a second time as they came first.
fn assert_endpoint<R: Abort>(
    rt: &R,
    alloc: Global,
    stage: &mut Stage,
    plan: &Plan,
    numbers: &[u32],
) -> Result<(), OutOfMemory>
    requires { stage.old ≡ plan.now }
    ensures { stage.new ≡ plan.now }
{
    let endpoint = plan.nodes().len() as u32;
    assert!(rt; has_input(plan, endpoint));
    let mut first = visited(alloc, stage, plan, endpoint)?;
    let second = visited(alloc, stage, plan, endpoint)?;
    assert_eq!(rt; first.as_slice(), second.as_slice());
    first.sort()?;
    assert_eq!(rt; first.as_slice(), numbers);
    Ok(())
}

/// Makes each kind of edit in a stage that is wired by these rows, and in its plan.
fn make_each_kind<R: Abort>(rt: &R, alloc: Global, rows: &[BusRow]) -> Result<(), OutOfMemory> {
    let scene = scene(alloc, &[SOUND, NodeKind::Group, SPLITTER], rows)?;
    let mut stage = Stage::open(alloc, &scene)?;
    let mut plan = Plan::opening(alloc, &scene)?;
    assert_endpoint(rt, alloc, &mut stage, &plan, &[1])?;
    make_edits(rt, &mut stage, &mut plan, &EDITS);
    assert_dials(rt, &stage, &plan, &BOARD);
    assert_endpoint(rt, alloc, &mut stage, &plan, &[1, 2])
}

#[test]
fn the_board_after_each_kind_of_edit(rt: HostRuntime) -> Result<(), Fail> {
    let mut rows = [
        row(0, 0, Some(1), 65536),
        row(1, 0, Some(3), 32768),
        row(2, 1, None, 1),
    ];
    make_each_kind(&rt, rt.alloc(), &rows)?;
    rows.reverse();
    make_each_kind(&rt, rt.alloc(), &rows)?;
    Ok(())
}

/// The next number of a linear congruential generator.
fn next(seed: u64) -> u64 {
    seed.wrapping_mul(6_364_136_223_846_793_005)
        .wrapping_add(1_442_695_040_888_963_407)
}

/// An edit of a scene of 6 nodes by a number, most often an attach or a detach.
fn edit_of(number: u64) -> Edit {
    let node = ((number >> 20) % 6) as u32;
    let out = ((number >> 28) % 3) as u8;
    let value = ((number >> 32) % 2_000_000) as u32;
    match (number >> 56) % 16 {
        0 => Edit::SetGain {
            node,
            out,
            gain: value,
        },
        1 => Edit::Start { node },
        2 => Edit::Stop { node },
        3 => Edit::From { node, value },
        4 => Edit::Until { node, value },
        5 => Edit::Seek {
            node,
            place: u64::from(value),
        },
        6 => Edit::Loop { node, on: out == 0 },
        7..=10 => Edit::Detach { node, out },
        _ => Edit::Attach {
            node,
            out,
            to: value % 7,
        },
    }
}

/// Compares a stage with a plan: each visit, and each dial.
fn compare<R: Abort>(
    rt: &R,
    alloc: Global,
    stage: &mut Stage,
    plan: &Plan,
) -> Result<(), OutOfMemory>
    requires { stage.old ≡ plan.now }
    ensures { stage.new ≡ plan.now }
{
    let nodes = plan.nodes().len() as u32;
    for node in 0..nodes + 1 {
        if has_input(plan, node) {
            let numbers = visited(alloc, stage, plan, node)?;
            assert_attached(rt, numbers.as_slice(), plan.buses(), node);
        }
    }
    let words = words(alloc, plan)?;
    assert_dials(rt, stage, plan, words.as_slice());
    Ok(())
}

/// Makes many edits in both and compares them after every 16th. Answers how many were done.
fn make_many<R: Abort>(
    rt: &R,
    alloc: Global,
    stage: &mut Stage,
    plan: &mut Plan,
) -> Result<u32, OutOfMemory>
    requires { stage.old ≡ plan.old }
{
    let mut done = 0;
    let mut number = 1;
    for turn in 0..20_000u32 {
        number = next(number);
        if edit_both(rt, stage, plan, &edit_of(number)) == Some(Reply::Done) {
            done += 1;
        }
        if turn % 16 == 0 {
            compare(rt, alloc, stage, plan)?;
        }
    }
    Ok(done)
}

/// Makes many edits in a stage that is wired by these rows, and in its plan.
fn make_many_from<R: Abort>(rt: &R, alloc: Global, rows: &[BusRow]) -> Result<(), OutOfMemory> {
    let kinds = [
        SOUND,
        SOUND,
        NodeKind::Group,
        NodeKind::Group,
        SPLITTER,
        SPLITTER,
    ];
    let scene = scene(alloc, &kinds, rows)?;
    let mut stage = Stage::open(alloc, &scene)?;
    let mut plan = Plan::opening(alloc, &scene)?;
    let done = make_many(rt, alloc, &mut stage, &mut plan)?;
    assert!(rt; done > 5000);
    Ok(())
}

#[test]
fn a_stage_and_its_plan_stay_the_same(rt: HostRuntime) -> Result<(), Fail> {
    let mut rows = [
        row(0, 0, Some(2), 65536),
        row(2, 0, Some(6), 65536),
        row(4, 1, Some(6), 65536),
    ];
    make_many_from(&rt, rt.alloc(), &rows)?;
    rows.reverse();
    make_many_from(&rt, rt.alloc(), &rows)?;
    Ok(())
}

/// Compares the opening stage of a scene with its plan.
fn compare_opening<R: Abort>(
    rt: &R,
    alloc: Global,
    kinds: &[NodeKind],
    rows: &[BusRow],
) -> Result<(), OutOfMemory> {
    let scene = scene(alloc, kinds, rows)?;
    let mut stage = Stage::open(alloc, &scene)?;
    let plan = Plan::opening(alloc, &scene)?;
    compare(rt, alloc, &mut stage, &plan)
}

#[test]
fn a_stage_of_no_bus_and_one_of_all_buses(rt: HostRuntime) -> Result<(), Fail> {
    compare_opening(&rt, rt.alloc(), &[], &[])?;
    let kinds = [NodeKind::Splitter { outputs: 4 }; 64];
    let mut rows = Vec::new(rt.alloc());
    for number in 0..256u32 {
        rows.push(row(number / 4, (number % 4) as u8, Some(64), 65536))?;
    }
    compare_opening(&rt, rt.alloc(), &kinds, &rows)?;
    Ok(())
}

#[test]
fn a_feed_names_a_bus(rt: HostRuntime) {
    let feed = Feed {
        bus: 3,
        node: 2,
        out: 1,
    };
    assert_eq!(rt; (feed.bus, feed.node, feed.out), (3, 2, 1));
}
