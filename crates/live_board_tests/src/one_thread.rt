//! Changes, readings and a hand on one thread.
ghost use Rattle.std.specs.Prelude.{◌≡◌};

use crate::opened::open_at_zero;
use live_board::{Window, told_word};
use scene_model::Reply;
use std::test::*;

#[test]
fn a_reading_between_the_two_steps_of_a_change_has_its_word(rt: HostRuntime) -> Result<(), Fail> {
    let (board, mut seat) = open_at_zero(rt.alloc(), 3, 100, 1)?;
    let mut mixer = board.split_mixer(&mut seat);
    let mut words = [7u64; 3];
    assert_eq!(rt;
        board.read(&mut mixer, &mut words),
        Window { from: 0, until: 0 }
    );
    assert_eq!(rt; words, [0, 0, 0]);
    board.store_dial(&mut seat, 1, 5);
    assert_eq!(rt;
        board.read(&mut mixer, &mut words),
        Window { from: 0, until: 0 }
    );
    assert_eq!(rt; words, [0, 5, 0]);
    board.store_count(&mut seat, 1);
    assert_eq!(rt;
        board.read(&mut mixer, &mut words),
        Window { from: 1, until: 1 }
    );
    assert_eq!(rt; words, [0, 5, 0]);
    board.store_dial(&mut seat, 2, 100);
    board.store_count(&mut seat, 2);
    assert_eq!(rt;
        board.read(&mut mixer, &mut words),
        Window { from: 2, until: 2 }
    );
    assert_eq!(rt; words, [0, 5, 100]);
    board.join_mixer(&mut seat, mixer);
    board.learn(&mut seat);
    Ok(())
}

#[test]
fn what_a_hand_tells_is_found_and_not_yet_booked(rt: HostRuntime) -> Result<(), Fail> {
    let (board, mut seat) = open_at_zero(rt.alloc(), 2, 100, 1)?;
    let mut hand = board.split_hand(&mut seat);
    let word = told_word(1, Reply::Cycle { node: 3 });
    assert_eq!(rt; word, 17_179_869_197);
    assert_eq!(rt; board.load_told(&mut seat, 0), 0);
    board.store_told(&mut hand, 0, word);
    assert_eq!(rt; board.load_told(&mut seat, 0), word);
    assert_eq!(rt; board.load_booked(&mut hand, 0), 0);
    board.join_hand(&mut seat, hand);
    Ok(())
}
