//! Laws of stages. The functions do nothing.

ghost use Rattle.std.specs.Prelude.{◌≡◌, ◌+◌, ◌*◌, ℕ, length, if◌then◌else◌};
ghost use Rattle.node_graph.specs.Attached.{attached, count_of, is_attached};
ghost use Rattle.mix_model.specs.Board.{board};

use scene_model::{Bus, Plan};

/// A law: the buses that are attached to a node are listed by their numbers, each once, and no other
/// number is listed.
pub fn each_attached_bus_is_listed_once(buses: &[Bus], node: u32)
    ensures { (number : ℕ) → count_of number (attached buses.now node) ≡ (if is_attached buses.now node number then 1 else 0) }
{}

/// A law: the board has five words for each node and one for each bus.
pub fn the_board_has_a_word_for_each_dial(plan: &Plan)
    ensures { length (board plan.now) ≡ 5 * length plan.now.nodes + length plan.now.buses }
{}
