//! A detach that waits for a pass on another thread.
ghost use Rattle.std.specs.Prelude.{◌≡◌, ◌≢◌, ℕ, ◌<◌, ◌+◌, ◌^◌, length, [], ◌∷◌, ◌++◌, true, false, is_some, Some, None};
ghost use Rattle.std.specs.Thread.{IsSync};
ghost use Rattle.bus_list.specs.declared.history.Entry.TheVariants.{On, Off};
ghost use Rattle.bus_list.specs.PassViews.{is_visiting, list_of_pass};
ghost use Rattle.bus_list.specs.ListViews.{history_of_editor, buses_of_editor, list_of_editor, OneList};

use crate::visited::next_pair;
use bus_list::{Both, BusList, Editor, Pass, Window};
use std::sync::Wait;
use std::sync::atomic::{AtomicBool, Ordering};
use std::test::*;
use std::thread;
use std::thread::{Threads, join};

/// The buses of the test, and how often the pass looks whether the detach has returned.
const A: u32 = 0;

const B: u32 = 1;

const C: u32 = 2;

const LOOKS: u32 = 2_000;

/// What the two threads tell each other.
#[derive(Drop)]
struct Signals {
    detach_begins: AtomicBool,
    pass_goes_on: AtomicBool,
    detach_returned: AtomicBool,
}

/// What the pass saw: whether the detach returned while the pass stood on the bus, and then the rest of
/// the visit.
#[derive(Drop)]
struct Seen {
    pass: Pass<u32>,
    returned_early: bool,
    rest: (Option<(u32, u32)>, Option<(u32, u32)>),
    window: Window,
}

/// Attaches C and detaches A. Gives A's feed, and whether the pass had left A by then.
fn attach_and_detach<R: Wait>(
    rt: &R,
    mut editor: Editor<u32>,
    signals: &Signals,
) -> (Editor<u32>, u32, bool)
    requires buses { buses_of_editor editor ≡ 3 }
    requires history { history_of_editor editor ≡ On 1 21 ∷ On 0 20 ∷ [] }
    ensures { list_of_editor result.0 ≡ list_of_editor editor }
{
    editor.attach(C, 22);
    signals.detach_begins.store(true, Ordering::SeqCst);
    let feed = editor.detach(rt, A);
    let left = signals.pass_goes_on.load(Ordering::SeqCst);
    signals.detach_returned.store(true, Ordering::SeqCst);
    (editor, feed, left)
}

/// Stands on A until the detach has begun and for a while longer, and then goes on.
fn stand_and_go_on<R: Wait>(rt: &R, mut pass: Pass<u32>, signals: &Signals) -> Seen
    requires { is_visiting pass ≡ true }
    ensures { (is_visiting result.pass ≡ false) × (list_of_pass result.pass ≡ list_of_pass pass) }
{
    for _ in rt.forever() {
        if signals.detach_begins.load(Ordering::SeqCst) {
            break;
        }
        thread::yield_now();
    }
    let mut returned_early = false;
    for _ in 0..LOOKS {
        returned_early = returned_early || signals.detach_returned.load(Ordering::SeqCst);
        thread::yield_now();
    }
    signals.pass_goes_on.store(true, Ordering::SeqCst);
    let first = next_pair(&mut pass);
    let second = next_pair(&mut pass);
    let window = pass.end();
    Seen {
        pass,
        returned_early,
        rest: (first, second),
        window,
    }
}

fn at_once<R: Threads + Wait + Sync>(
    rt: &R,
    editor: Editor<u32>,
    pass: Pass<u32>,
    signals: &Signals,
) -> ((Editor<u32>, u32, bool), Seen)
    requires editor { (buses_of_editor editor ≡ 3) × (history_of_editor editor ≡ On 1 21 ∷ On 0 20 ∷ []) }
    requires pass { OneList editor pass × (is_visiting pass ≡ true) }
    ensures { OneList result.0.0 result.1.pass × (is_visiting result.1.pass ≡ false) }
{
    join(
        rt,
        || -> (Editor<u32>, u32, bool)
            requires { IsSync R.row × (buses_of_editor editor ≡ 3)
                × (history_of_editor editor ≡ On 1 21 ∷ On 0 20 ∷ []) }
            ensures { list_of_editor result.0 ≡ list_of_editor editor }
        { attach_and_detach(rt, editor, signals) },
        || -> Seen
            requires { IsSync R.row × (is_visiting pass ≡ true) }
            ensures { (is_visiting result.pass ≡ false) × (list_of_pass result.pass ≡ list_of_pass pass) }
        { stand_and_go_on(rt, pass, signals) },
    )
}

#[test]
fn a_detach_waits_until_the_pass_has_left_the_bus(rt: HostRuntime) -> Result<(), Fail> {
    let mut both = BusList::<u32>::new(rt.alloc(), 3)?;
    both.attach(B, 21);
    both.attach(A, 20);
    let (editor, mut pass) = both.split();
    assert_eq!(rt; pass.begin(), 2);
    assert_eq!(rt; next_pair(&mut pass), Some((A, 20)));
    let signals = Signals {
        detach_begins: AtomicBool::new(false),
        pass_goes_on: AtomicBool::new(false),
        detach_returned: AtomicBool::new(false),
    };
    let ((editor, feed, left), seen) = at_once(&rt, editor, pass, &signals);
    let Seen {
        pass,
        returned_early,
        rest,
        window,
    } = seen;
    let _both = Both::join(editor, pass);
    assert_eq!(rt; feed, 20);
    assert!(rt; left && !returned_early);
    assert_eq!(rt; rest, (Some((B, 21)), None));
    assert!(rt; window.from == 2 && (window.until == 3 || window.until == 4));
    Ok(())
}
