//! Whether a visit is lawful, by a plain search in the edits that were made.
use crate::recorder::Edit;
use crate::visited::Visited;
use bus_list::Window;
use std::alloc::{AllocError, Global};
use std::test::*;

/// The feeds of the 8 buses after some edits, 0 where none is attached.
type Feeds = [u32; 8];

/// The feeds before the first edit and after each. `None` where a bus is none of the 8, or where a
/// count isn't the number of edits so far.
pub(crate) fn feeds_after_each(
    alloc: Global,
    edits: &[Edit],
) -> Result<Option<Vec<Feeds>>, AllocError> {
    let mut feeds = [0; 8];
    let mut all = Vec::new(alloc);
    all.push(feeds)?;
    for edit in edits {
        match feeds.get_mut(edit.bus as usize) {
            Some(feed) => *feed = edit.feed,
            None => return Ok(None),
        }
        if edit.count != all.len() as u64 {
            return Ok(None);
        }
        all.push(feeds)?;
    }
    Ok(Some(all))
}

/// Each pair stood in the list at a moment of the visit's window, none came twice, and a visit that
/// came to the end missed no bus that was attached all the while.
pub(crate) fn is_lawful(all: &[Feeds], visit: &Visited) -> bool {
    let from = visit.window.from as usize;
    let until = visit.window.until as usize;
    if until < from || all.len() <= until {
        return false;
    }
    let end = all.len().min(until + 2);
    let window = &all[from..end];
    let pairs = visit.pairs.as_slice();
    pairs
        .iter()
        .all(|pair| stood(window, *pair) && times(pairs, pair.0) == 1)
        && (!visit.whole || (0..8u32).all(|bus| !stayed(window, bus) || times(pairs, bus) == 1))
}

/// Whether the bus had this feed at some moment.
fn stood(window: &[Feeds], pair: (u32, u32)) -> bool {
    window
        .iter()
        .any(|feeds| feeds.get(pair.0 as usize) == Some(&pair.1))
}

/// Whether the bus was attached all the while.
fn stayed(window: &[Feeds], bus: u32) -> bool {
    window
        .iter()
        .all(|feeds| feeds.get(bus as usize) != Some(&0))
}

/// How often the bus was given.
fn times(pairs: &[(u32, u32)], bus: u32) -> usize {
    pairs.iter().filter(|pair| pair.0 == bus).count()
}

/// Windows and pairs of whole visits of a list to which 0 was attached with 1 and then 1 with 2, and from
/// which 0 was then detached; and whether each is lawful.
const CASES: [(u64, u64, &[(u32, u32)], bool); 9] = [
    (2, 2, &[(1, 2), (0, 1)], true),
    (2, 2, &[(1, 2)], true),
    (1, 1, &[(0, 1)], true),
    (1, 1, &[(1, 2)], false),
    (0, 0, &[(1, 2)], false),
    (2, 2, &[(1, 2), (0, 2)], false),
    (2, 2, &[(1, 2), (1, 2)], false),
    (3, 2, &[(1, 2)], false),
    (3, 4, &[(1, 2)], false),
];

#[test]
fn unlawful_visits_are_told_from_lawful_ones(rt: HostRuntime) -> Result<(), Fail> {
    let mut edits = Vec::new(rt.alloc());
    for (bus, feed, count) in [(0, 1, 1), (1, 2, 2), (0, 0, 3)] {
        edits.push(Edit { bus, feed, count })?;
    }
    let Some(all) = feeds_after_each(rt.alloc(), &edits)? else {
        return Err(Fail::new("the edits are in order"));
    };
    for (from, until, given, lawful) in CASES {
        let mut pairs = Vec::new(rt.alloc());
        for pair in given {
            pairs.push(*pair)?;
        }
        let visit = Visited {
            window: Window { from, until },
            pairs,
            whole: true,
        };
        assert_eq!(rt;
            is_lawful(&all, &visit),
            lawful,
            "from {from} until {until}"
        );
    }
    Ok(())
}
