//! Edits and visits on one thread.
ghost use Rattle.std.specs.Prelude.{◌≡◌, true, false};

use crate::visited::next_pair;
use bus_list::{Both, BusList, Editor, Pass, Window};
use std::test::*;

/// A list for 3 buses to which 0 was attached with 10 and then 1 with 11.
#[test]
fn visits_give_the_attached_buses_and_the_counts_of_edits(rt: HostRuntime) -> Result<(), Fail> {
    let mut both = BusList::<u32>::new(rt.alloc(), 3)?;
    both.attach(0, 10);
    both.attach(1, 11);
    let (mut editor, mut pass) = both.split();
    assert_eq!(rt; pass.begin(), 2);
    assert_eq!(rt; next_pair(&mut pass), Some((1, 11)));
    assert_eq!(rt; next_pair(&mut pass), Some((0, 10)));
    assert_eq!(rt; next_pair(&mut pass), None);
    assert_eq!(rt; next_pair(&mut pass), None);
    assert_eq!(rt; pass.end(), Window { from: 2, until: 2 });
    assert_eq!(rt; editor.detach(&rt, 0), 10);
    assert_eq!(rt; pass.begin(), 3);
    assert_eq!(rt; next_pair(&mut pass), Some((1, 11)));
    assert_eq!(rt; next_pair(&mut pass), None);
    assert_eq!(rt; pass.end(), Window { from: 3, until: 3 });
    assert_eq!(rt; editor.edits(), 3);
    let mut both = Both::join(editor, pass);
    assert_eq!(rt; both.detach(1), 11);
    Ok(())
}

#[test]
fn a_bus_attached_under_a_visit_comes_before_what_it_walked(rt: HostRuntime) -> Result<(), Fail> {
    let mut both = BusList::<u32>::new(rt.alloc(), 3)?;
    both.attach(0, 10);
    both.attach(1, 11);
    let (mut editor, mut pass) = both.split();
    assert_eq!(rt; pass.begin(), 2);
    assert_eq!(rt; next_pair(&mut pass), Some((1, 11)));
    editor.attach(2, 12);
    assert_eq!(rt; next_pair(&mut pass), Some((0, 10)));
    assert_eq!(rt; next_pair(&mut pass), None);
    assert_eq!(rt; pass.end(), Window { from: 2, until: 3 });
    let _both = Both::join(editor, pass);
    Ok(())
}

#[test]
fn a_bus_detached_under_a_visit_is_passed_over(rt: HostRuntime) -> Result<(), Fail> {
    let mut both = BusList::<u32>::new(rt.alloc(), 3)?;
    both.attach(0, 10);
    both.attach(1, 11);
    let (mut editor, mut pass) = both.split();
    assert_eq!(rt; pass.begin(), 2);
    assert_eq!(rt; next_pair(&mut pass), Some((1, 11)));
    assert_eq!(rt; editor.detach(&rt, 0), 10);
    assert_eq!(rt; next_pair(&mut pass), None);
    assert_eq!(rt; pass.end(), Window { from: 2, until: 3 });
    editor.attach(0, 13);
    assert_eq!(rt; pass.begin(), 4);
    assert_eq!(rt; next_pair(&mut pass), Some((0, 13)));
    assert_eq!(rt; next_pair(&mut pass), Some((1, 11)));
    assert_eq!(rt; pass.end(), Window { from: 4, until: 4 });
    let _both = Both::join(editor, pass);
    Ok(())
}

#[test]
fn a_bus_attached_again_does_not_come_twice_in_a_visit(rt: HostRuntime) -> Result<(), Fail> {
    let mut both = BusList::<u32>::new(rt.alloc(), 3)?;
    both.attach(0, 10);
    both.attach(1, 11);
    let (mut editor, mut pass) = both.split();
    assert_eq!(rt; pass.begin(), 2);
    assert_eq!(rt; next_pair(&mut pass), Some((1, 11)));
    assert_eq!(rt; next_pair(&mut pass), Some((0, 10)));
    assert_eq!(rt; editor.detach(&rt, 1), 11);
    editor.attach(1, 13);
    assert_eq!(rt; next_pair(&mut pass), None);
    assert_eq!(rt; pass.end(), Window { from: 2, until: 4 });
    assert_eq!(rt; pass.begin(), 4);
    assert_eq!(rt; next_pair(&mut pass), Some((1, 13)));
    assert_eq!(rt; pass.end(), Window { from: 4, until: 4 });
    let _both = Both::join(editor, pass);
    Ok(())
}
