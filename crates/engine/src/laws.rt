//! Laws of blocks, for readers of their definition. The functions do nothing.

ghost use Rattle.std.specs.Prelude.{◌≡◌, ℕ};
ghost use Rattle.scene_model.specs.SceneData.{SceneData};
ghost use Rattle.engine.specs.Playing.{IsBlock};

/// A law: the block that begins at a frame has one length.
pub fn a_block_has_one_length()
    ensures { (s : SceneData) (start m n : ℕ) → IsBlock s start m → IsBlock s start n → m ≡ n }
{}
