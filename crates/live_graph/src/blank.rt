ghost use Rattle.std.specs.Prelude.{◌≡◌, IfOk};

use crate::opening::{Sides, board_words, largest_words, open_sides};
use crate::stage::LiveStage;
use bus_list::Pass;
use live_board::{Board, Opening};
use node_graph::Feed;
use plain_data::OutOfMemory;
use scene_model::{Plan, Scene};
use std::alloc::Global;
use std::marker::Model;

/// How many editors a run has.
pub(crate) const EDITORS: usize = 4;

/// A run that has no name yet: the scene, its lists and its board. Contracts see what names it.
#[derive(Drop)]
pub struct Blank {
    pub(crate) scene: Scene,
    pub(crate) stage: LiveStage,
    pub(crate) board: Board,
    pub(crate) passes: Vec<Pass<Feed>>,
}

impl Model for Blank {
    ghost use Rattle.live_graph.specs.Runs.{RunData};
    ghost use Rattle.live_graph.specs.Blanks.{IsBlank};

    ghost Value = { RunData };

    ghost view = { λ b. record { scene = b.scene; board = b.stage.seat.table_id; opened = b.stage.inputs.items } };

    ghost invariant = { λ b. IsBlank b.scene b.stage b.board b.passes.items };
}

impl Blank {
    /// Opens the lists and the board of a scene, of which it takes a copy.
    ///
    /// # Errors
    ///
    /// [`OutOfMemory`] where there is no memory; nothing has changed then.
    pub fn new(alloc: Global, scene: &Scene) -> Result<Blank, OutOfMemory>
        ensures { IfOk result (λ blank. blank.scene ≡ scene.now) }
    {
        let scene = scene.try_clone(alloc)?;
        let plan = Plan::opening(alloc, &scene)?;
        let Sides { inputs, passes } = open_sides(alloc, &plan)?;
        let opening = Opening {
            dials: board_words(alloc, &plan)?,
            most: largest_words(alloc, &plan)?,
            hands: EDITORS,
        };
        let (board, seat) = Board::open(alloc, opening)?;
        let stage = LiveStage {
            plan,
            inputs,
            changes: 0,
            seat,
        };
        Ok(Blank {
            scene,
            stage,
            board,
            passes,
        })
    }
}
