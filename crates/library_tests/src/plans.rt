//! Small scenes and their plans, and what edits are answered in them.
ghost use Rattle.std.specs.Prelude.{◌≡◌, ◌≤◌, ◌*◌, true, IfOk, [], ◌∷◌, vec_len};
ghost use Rattle.std.specs.List.{list_all};
ghost use Rattle.scene_model.specs.Buses.{bus_count};
ghost use Rattle.scene_model.specs.IsScene.{is_kind, is_node, is_bus_row, is_edit_row};

use plain_data::{OutOfMemory, Rows, Text};
use scene_model::{
    Bus, BusRow, Edit, EditRow, LAST_EDITOR, MAX_LENGTH, Node, NodeKind, NodeState, Plan, Reply,
    Resource, Scene, UNITY_GAIN, apply, target,
};
use std::alloc::Global;
use std::test::Fail;

const SOUND: NodeKind = NodeKind::Sound {
    resource: 0,
    looped: false,
};

const SPLITTER: NodeKind = NodeKind::Splitter { outputs: 2 };

fn name(alloc: Global) -> Result<Text, OutOfMemory>
    ensures { IfOk result (λ name. name ≡ 110 ∷ []) }
{
    Ok(Text::new(String::from_str(alloc, "n")?))
}

fn is_kind(kind: NodeKind) -> bool
    ensures { result ≡ is_kind 1 kind }
{
    match kind {
        NodeKind::Sound { resource, .. } => resource < 1,
        NodeKind::Group => true,
        NodeKind::Splitter { outputs } => 2 <= outputs && outputs <= 4,
    }
}

/// Nodes of these kinds, as far as a scene can have them, of which there are at most 64 here.
fn nodes(alloc: Global, kinds: &[NodeKind]) -> Result<Vec<Node>, OutOfMemory>
    ensures nodes { IfOk result (λ nodes. list_all (is_node 1) nodes.items ≡ true) }
    ensures few { IfOk result (λ nodes. vec_len nodes ≤ 64) }
    ensures buses { IfOk result (λ nodes. bus_count nodes.items ≤ 4 * vec_len nodes) }
{
    let mut nodes = Vec::new(alloc);
    for kind in kinds {
        if is_kind(*kind) && nodes.len() < 64 {
            nodes.push(Node {
                name: name(alloc)?,
                kind: *kind,
                started: true,
                from: 0,
                until: MAX_LENGTH,
            })?;
        }
    }
    Ok(nodes)
}

fn is_row(nodes: usize, row: &BusRow) -> bool
    ensures { result ≡ is_bus_row nodes row.now }
{
    let is_target = match row.to {
        Some(to) => to as usize <= nodes,
        None => true,
    };
    (row.node as usize) < nodes && is_target
}

/// These bus rows, as far as a scene of that many nodes can have them, of which there are at most
/// 256.
fn rows(alloc: Global, nodes: usize, all: &[BusRow]) -> Result<Vec<BusRow>, OutOfMemory>
    ensures rows { IfOk result (λ rows. list_all (is_bus_row nodes) rows.items ≡ true) }
    ensures few { IfOk result (λ rows. vec_len rows ≤ 256) }
{
    let mut rows = Vec::new(alloc);
    for row in all {
        if is_row(nodes, row) && rows.len() < 256 {
            rows.push(*row)?;
        }
    }
    Ok(rows)
}

/// An edit of an editor: it starts node 0.
fn start(editor: u8) -> EditRow
    ensures { result ≡ record { at = 0; editor = editor; edit = Edit.Start 0 } }
{
    EditRow {
        at: 0,
        editor,
        edit: Edit::Start { node: 0 },
    }
}

fn is_edit(nodes: usize, editor: u8) -> bool
    ensures { result ≡ is_edit_row nodes (record { at = 0; editor = editor; edit = Edit.Start 0 }) }
{
    editor <= LAST_EDITOR && nodes > 0
}

/// An edit for each of these editors, as far as a scene of that many nodes can have them, of which
/// there are at most 64 here.
fn starts(alloc: Global, nodes: usize, editors: &[u8]) -> Result<Vec<EditRow>, OutOfMemory>
    ensures edits { IfOk result (λ edits. list_all (is_edit_row nodes) edits.items ≡ true) }
    ensures few { IfOk result (λ edits. vec_len edits ≤ 64) }
{
    let mut edits = Vec::new(alloc);
    for editor in editors {
        if is_edit(nodes, *editor) && edits.len() < 64 {
            edits.push(start(*editor))?;
        }
    }
    Ok(edits)
}

/// A scene of nodes of these kinds, wired by these rows, with an edit for each of these editors.
fn scene(
    alloc: Global,
    kinds: &[NodeKind],
    all: &[BusRow],
    editors: &[u8],
) -> Result<Scene, OutOfMemory> {
    let mut resources = Vec::new(alloc);
    resources.push(Resource {
        name: name(alloc)?,
        file: name(alloc)?,
    })?;
    let nodes = nodes(alloc, kinds)?;
    let buses = rows(alloc, nodes.len(), all)?;
    let edits = starts(alloc, nodes.len(), editors)?;
    Ok(Scene {
        version: 1,
        rate: 8000,
        channels: 1,
        width: 16,
        length: 0,
        resources: Rows::new(resources),
        nodes: Rows::new(nodes),
        buses: Rows::new(buses),
        edits: Rows::new(edits),
    })
}

/// The opening plan of nodes of these kinds, wired by these rows.
fn opening(alloc: Global, kinds: &[NodeKind], all: &[BusRow]) -> Result<Plan, OutOfMemory> {
    let scene = scene(alloc, kinds, all, &[])?;
    Plan::opening(alloc, &scene)
}

/// What an edit is answered, or `None` where it may not be applied.
fn reply(plan: &mut Plan, edit: &Edit) -> Option<Reply> {
    if plan.can_apply(edit) {
        Some(apply(plan, edit))
    } else {
        None
    }
}

fn row(node: u32, out: u8, to: Option<u32>, gain: u32) -> BusRow {
    BusRow {
        node,
        out,
        to,
        gain,
    }
}

fn bus(node: u32, out: u8, to: Option<u32>, gain: u32) -> Bus {
    Bus {
        node,
        out,
        to,
        gain,
    }
}

fn attach(node: u32, out: u8, to: u32) -> Edit {
    Edit::Attach { node, out, to }
}

fn set_gain(node: u32, out: u8, gain: u32) -> Edit {
    Edit::SetGain { node, out, gain }
}

/// A sound, two groups and a splitter of two outputs; the endpoint is node 4.
const KINDS: [NodeKind; 4] = [SOUND, NodeKind::Group, NodeKind::Group, SPLITTER];

#[test]
fn each_edit_has_each_of_its_replies(rt: HostRuntime) -> Result<(), Fail> {
    let mut plan = opening(rt.alloc(), &KINDS, &[])?;
    let edits = [
        (attach(0, 1, 4), Some(Reply::NoSuchBus)),
        (attach(0, 1, 0), Some(Reply::NoSuchBus)),
        (attach(0, 0, 0), Some(Reply::NoInput)),
        (attach(0, 0, 1), Some(Reply::Done)),
        (attach(0, 0, 2), Some(Reply::AlreadyAttached { to: 1 })),
        (attach(0, 0, 0), Some(Reply::NoInput)),
        (attach(1, 0, 1), Some(Reply::Cycle { node: 1 })),
        (attach(1, 0, 2), Some(Reply::Done)),
        (attach(1, 0, 1), Some(Reply::AlreadyAttached { to: 2 })),
        (attach(2, 0, 1), Some(Reply::Cycle { node: 1 })),
        (attach(2, 0, 3), Some(Reply::Done)),
        (attach(3, 1, 1), Some(Reply::Cycle { node: 1 })),
        (attach(3, 2, 4), Some(Reply::NoSuchBus)),
        (attach(3, 1, 4), Some(Reply::Done)),
        (attach(0, 0, 5), None),
        (Edit::Detach { node: 3, out: 2 }, Some(Reply::NoSuchBus)),
        (Edit::Detach { node: 3, out: 0 }, Some(Reply::NotAttached)),
        (Edit::Detach { node: 1, out: 0 }, Some(Reply::Done)),
        (Edit::Detach { node: 1, out: 0 }, Some(Reply::NotAttached)),
        (set_gain(3, 2, 1_048_577), Some(Reply::NoSuchBus)),
        (set_gain(3, 0, 1_048_577), Some(Reply::GainTooLarge)),
        (set_gain(3, 0, 1_048_576), Some(Reply::Done)),
        (set_gain(2, 0, 0), Some(Reply::Done)),
        (Edit::Stop { node: 0 }, Some(Reply::Done)),
        (Edit::Stop { node: 1 }, Some(Reply::Done)),
        (Edit::Start { node: 1 }, Some(Reply::Done)),
        (Edit::Start { node: 4 }, None),
        (Edit::From { node: 1, value: 7 }, Some(Reply::Done)),
        (Edit::Until { node: 1, value: 9 }, Some(Reply::Done)),
        (Edit::Seek { node: 0, place: 5 }, Some(Reply::Done)),
        (
            Edit::Seek {
                node: 0,
                place: 140_737_488_355_327,
            },
            Some(Reply::Done),
        ),
        (
            Edit::Seek {
                node: 0,
                place: 140_737_488_355_328,
            },
            None,
        ),
        (Edit::Seek { node: 1, place: 0 }, Some(Reply::NotSound)),
        (Edit::Loop { node: 0, on: true }, Some(Reply::Done)),
        (Edit::Loop { node: 3, on: true }, Some(Reply::NotSound)),
    ];
    for (edit, want) in edits {
        assert_eq!(rt; reply(&mut plan, &edit), want, "at {edit:?}");
    }
    let at_start = NodeState {
        kind: NodeKind::Group,
        started: true,
        from: 0,
        until: MAX_LENGTH,
        seeks: 0,
        place: 0,
        looped: false,
    };
    let sound = NodeState {
        kind: SOUND,
        started: false,
        seeks: 2,
        place: 140_737_488_355_327,
        looped: true,
        ..at_start
    };
    let group = NodeState {
        from: 7,
        until: 9,
        ..at_start
    };
    let splitter = NodeState {
        kind: SPLITTER,
        ..at_start
    };
    let nodes = [sound, group, at_start, splitter];
    assert_eq!(rt; plan.nodes(), nodes.as_slice());
    let buses = [
        bus(0, 0, Some(1), UNITY_GAIN),
        bus(1, 0, None, UNITY_GAIN),
        bus(2, 0, Some(3), 0),
        bus(3, 0, None, 1_048_576),
        bus(3, 1, Some(4), UNITY_GAIN),
    ];
    assert_eq!(rt; plan.buses(), buses.as_slice());
    Ok(())
}

#[test]
fn bus_rows_wire_the_opening_plan(rt: HostRuntime) -> Result<(), Fail> {
    // The second row would close a cycle, the third has too large a gain, the fourth no such output:
    // each is refused and changes nothing.
    let rows = [
        row(0, 0, Some(1), 7),
        row(1, 0, Some(0), 8),
        row(0, 0, None, 2_000_000),
        row(1, 3, Some(2), 9),
    ];
    let plan = opening(rt.alloc(), &[NodeKind::Group, NodeKind::Group], &rows)?;
    let buses = [bus(0, 0, Some(1), 7), bus(1, 0, None, 8)];
    assert_eq!(rt; plan.buses(), buses.as_slice());
    assert_eq!(rt; target(plan.buses(), 0, 0), Some(1));
    assert_eq!(rt; target(plan.buses(), 1, 0), None);
    assert!(rt; buses[1].is_output(1, 0));
    assert!(rt; !buses[1].is_output(0, 0));
    assert!(rt; !buses[1].is_output(1, 1));
    Ok(())
}

#[test]
fn a_scene_and_its_copy_have_numbers_of_buses_and_edits(rt: HostRuntime) -> Result<(), Fail> {
    let scene = scene(rt.alloc(), &[SPLITTER, SOUND], &[], &[2, 0, 2])?;
    assert_eq!(rt; scene.bus_number(0, 1), Some(1));
    assert_eq!(rt; scene.bus_number(1, 0), Some(2));
    assert_eq!(rt; scene.bus_number(1, 1), None);
    assert_eq!(rt; scene.bus_number(2, 0), None);
    let copy = scene.try_clone(rt.alloc())?;
    assert_eq!(rt; copy.nodes.as_slice(), scene.nodes.as_slice());
    let mut numbers = Vec::new(rt.alloc());
    for edit in copy.edits_of(rt.alloc(), 2)?.as_slice() {
        numbers.push(edit.number)?;
    }
    assert_eq!(rt; numbers.as_slice(), [0, 2].as_slice());
    Ok(())
}

#[test]
fn refuses_edits_of_a_wired_plan(rt: HostRuntime) -> Result<(), Fail> {
    // Group 0 is attached to group 1, and group 1 to nothing; group 2 is apart.
    let kinds = [NodeKind::Group; 3];
    let rows = [
        row(0, 0, Some(1), UNITY_GAIN),
        row(2, 0, Some(3), UNITY_GAIN),
    ];
    let cases = [
        (attach(1, 0, 0), Reply::Cycle { node: 0 }),
        (Edit::Detach { node: 1, out: 0 }, Reply::NotAttached),
        (attach(2, 0, 3), Reply::AlreadyAttached { to: 3 }),
        (attach(0, 0, 1), Reply::AlreadyAttached { to: 1 }),
    ];
    for (edit, want) in cases {
        let mut plan = opening(rt.alloc(), &kinds, &rows)?;
        assert_eq!(rt; reply(&mut plan, &edit), Some(want), "at {edit:?}");
    }
    Ok(())
}

#[test]
fn a_chain_of_splitters_is_answered_at_once(rt: HostRuntime) -> Result<(), Fail> {
    // From the first splitter to the last there are 2^59 ways.
    let mut plan = opening(rt.alloc(), &[SPLITTER; 60], &[])?;
    for node in 0..59u32 {
        for out in 0..2u8 {
            let edit = attach(node, out, node + 1);
            assert_eq!(rt; reply(&mut plan, &edit), Some(Reply::Done), "at {edit:?}");
        }
    }
    assert_eq!(rt;
        reply(&mut plan, &attach(59, 0, 0)),
        Some(Reply::Cycle { node: 0 })
    );
    assert_eq!(rt; reply(&mut plan, &attach(59, 0, 60)), Some(Reply::Done));
    assert!(rt; plan.nodes().len() == 60);
    assert!(rt; plan.reaches(0, 60));
    assert!(rt; !plan.reaches(60, 0));
    Ok(())
}
