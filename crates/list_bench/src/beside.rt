//! Visits on this thread, and edits on another one.
ghost use Rattle.std.specs.Prelude.{◌≡◌, ℕ, ◌<◌, true, false, None};
ghost use Rattle.std.specs.Thread.{IsSync};
ghost use Rattle.bus_list.specs.Visits.{attached_feed};
ghost use Rattle.bus_list.specs.PassViews.{is_visiting};
ghost use Rattle.bus_list.specs.ListViews.{history_of_editor, buses_of_editor};

use crate::lists::{edit, visit_rounds};
use bus_list::{Editor, Pass};
use std::sync::Wait;
use std::sync::atomic::{AtomicBool, Ordering};
use std::thread::{Threads, join};

/// Visits the list so often, while another thread attaches a bus and detaches it. Answers how often.
pub fn visit_beside_edits<R: Threads + Wait + Sync>(
    rt: &R,
    editor: Editor<u32>,
    pass: Pass<u32>,
    bus: u32,
    rounds: u32,
) -> u32
    requires thread { IsSync R.row }
    requires bus { bus < buses_of_editor editor }
    requires off { attached_feed (history_of_editor editor) bus ≡ None }
    requires shut { is_visiting pass ≡ false }
{
    let over = AtomicBool::new(false);
    let (_edits, _sum) = join(
        rt,
        || -> u64
            requires { IsSync R.row × (bus < buses_of_editor editor)
                × (attached_feed (history_of_editor editor) bus ≡ None) }
        { edit_until(rt, editor, bus, &over) },
        || -> u32
            requires { is_visiting pass ≡ false }
        { visit_and_say(pass, rounds, &over) },
    );
    rounds
}

/// Attaches the bus and detaches it until the visits are over.
fn edit_until<R: Wait>(rt: &R, editor: Editor<u32>, bus: u32, over: &AtomicBool) -> u64
    requires bus { bus < buses_of_editor editor }
    requires off { attached_feed (history_of_editor editor) bus ≡ None }
{
    let mut editor = editor;
    for _ in rt.forever() {
        if over.load(Ordering::SeqCst) {
            break;
        }
        let _feed = edit(rt, &mut editor, bus, 1);
    }
    editor.edits()
}

/// Visits the list so often, and says that the visits are over.
fn visit_and_say(pass: Pass<u32>, rounds: u32, over: &AtomicBool) -> u32
    requires { is_visiting pass ≡ false }
{
    let mut pass = pass;
    let sum = visit_rounds(&mut pass, rounds);
    over.store(true, Ordering::SeqCst);
    sum
}
