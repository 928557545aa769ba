//! Texts, rows, names, replies and the order of edits.

use plain_data::{OutOfMemory, Rows, Text};
use scene_model::{Edit, EditRow, NodeKind, Reply, edits_in_order, is_file_name, is_name};
use std::alloc::Global;
use std::test::Fail;

#[test]
fn texts_and_rows_hold_what_they_were_made_of(rt: HostRuntime) -> Result<(), Fail> {
    let text = Text::new(String::from_str(rt.alloc(), "bell")?);
    assert_eq!(rt; text.as_str(), "bell");
    let printed = format!(in rt.alloc(); "{text}")?;
    assert_eq!(rt; printed.as_str(), "bell");
    assert_eq!(rt; text.into_string().as_str(), "bell");
    let rows = Rows::new(Vec::from_slice(rt.alloc(), &[3, 1, 2])?);
    assert_eq!(rt; rows.as_slice(), [3, 1, 2].as_slice());
    assert_eq!(rt; rows.into_vec().as_slice(), [3, 1, 2].as_slice());
    Ok(())
}

#[test]
fn names_outputs_and_replies(rt: HostRuntime) {
    assert!(rt; is_name("Aa0_-."));
    assert!(rt; !is_name("a b"));
    assert!(rt; is_file_name("a b"));
    assert!(rt; !is_file_name(""));
    assert_eq!(rt; NodeKind::Group.outputs(), 1);
    assert_eq!(rt; NodeKind::Splitter { outputs: 4 }.outputs(), 4);
    assert!(rt; Reply::Done.is_done());
    assert!(rt; !Reply::NoInput.is_done());
}

#[test]
fn a_reply_prints_its_name_and_number(rt: HostRuntime) -> Result<(), Fail> {
    let reply = Reply::AlreadyAttached { to: 2 };
    let printed = format!(in rt.alloc(); "{reply} {}", Reply::NoInput)?;
    assert_eq!(rt; printed.as_str(), "AlreadyAttached 2 NoInput");
    Ok(())
}

/// The numbers of edits at these frames, in the order in which they are made.
fn numbers(alloc: Global, frames: [u32; 4]) -> Result<Vec<u32>, OutOfMemory> {
    let rows = frames.map(|at| EditRow {
        at,
        editor: 0,
        edit: Edit::Start { node: 0 },
    });
    let mut numbers = Vec::new(alloc);
    for edit in edits_in_order(alloc, &rows)?.as_slice() {
        numbers.push(edit.number)?;
    }
    Ok(numbers)
}

#[test]
fn edits_come_by_frames_and_then_by_rows(rt: HostRuntime) -> Result<(), Fail> {
    let numbers = numbers(rt.alloc(), [9, 5, 9, 0])?;
    assert_eq!(rt; numbers.as_slice(), [3, 1, 0, 2].as_slice());
    Ok(())
}
