//! The blocks of a scene.

ghost use Rattle.std.specs.Prelude.{◌≡◌};

use crate::scripts::scene;
use engine::Renderer;
use scene_model::Scene;
use std::alloc::Global;
use std::test::Fail;

/// A scene of 1100 frames with an edit at frame 600.
const SCRIPT: &str = "version = 1
rate = 8000
channels = 1
width = 16
length = 1100
node = [{ kind = \"group\", name = \"g\" }]
edit = [{ op = \"stop\", at = 600, node = \"g\" }]
";

/// The frames of a block, as the first step said and as a second one did, and the clock behind it.
type Step = (u32, u32, u32);

/// Renders the next block of a scene of one channel.
fn next_block(alloc: Global, renderer: &mut Renderer) -> Result<Step, Fail>
    requires { renderer.old.scene.channels ≡ 1 }
    ensures { renderer.new.scene ≡ renderer.old.scene }
{
    let frames = renderer.step();
    let again = renderer.step();
    let mut out = vec![in alloc; 0i32; again as usize]?;
    renderer.ready().ok().ok_or("all pages are shown")?;
    renderer.block(&mut out);
    Ok((frames, again, renderer.clock()))
}

/// The first five blocks of a scene of one channel and no sounds.
fn steps(alloc: Global, scene: &Scene) -> Result<Vec<Step>, Fail>
    requires { scene.now.channels ≡ 1 }
{
    let mut renderer = Renderer::open(alloc, scene, Vec::new(alloc))?;
    let mut steps = Vec::new(alloc);
    for _ in 0..5u32 {
        steps.push(next_block(alloc, &mut renderer)?)?;
    }
    Ok(steps)
}

/// At the scene's end a block has no frames.
#[test]
fn a_block_ends_where_an_edit_falls_and_at_the_scenes_end(rt: HostRuntime) -> Result<(), Fail> {
    let alloc = rt.alloc();
    let scene = scene(alloc, SCRIPT)?;
    assert!(rt; scene.channels == 1);
    let want = [
        (512, 512, 512),
        (88, 88, 600),
        (500, 500, 1100),
        (0, 0, 1100),
        (0, 0, 1100),
    ];
    assert_eq!(rt; steps(alloc, &scene)?.as_slice(), want.as_slice());
    Ok(())
}
