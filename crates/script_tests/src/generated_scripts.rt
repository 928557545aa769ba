//! The scripts that `scenetool gen` writes: scenes, whatever their number.

use gen_scene::{Draws, script};
use scene_model::{Edit, NodeKind};
use scene_script::read_scene;
use std::test::Fail;

/// Whether the edit of that number is one of a sound, a gain where the number is even and else a
/// seek, with a value in its range.
fn is_generated(number: usize, edit: Edit) -> bool {
    match edit {
        Edit::SetGain { node, out, gain } => {
            number % 2 == 0 && (4..36).contains(&node) && out == 0 && gain < 4096
        }
        Edit::Seek { node, place } => {
            number % 2 == 1 && (4..36).contains(&node) && place < 65_536
        }
        _ => false,
    }
}

#[test]
fn what_gen_writes_is_a_scene(rt: HostRuntime) -> Result<(), Fail> {
    let alloc = rt.alloc();
    for number in [0, 1, 77_777, u32::MAX] {
        let text = script(alloc, Draws::new(number), "g")?;
        let scene = read_scene(alloc, text.as_str().as_bytes())
            .ok()
            .ok_or("a scene")?;
        assert_eq!(rt; scene.length, 480_000, "{number}");
        assert_eq!(rt; scene.resources.as_slice().len(), 8, "{number}");
        assert_eq!(rt; scene.nodes.as_slice().len(), 36, "{number}");
        assert_eq!(rt; scene.buses.as_slice().len(), 36, "{number}");
        assert_eq!(rt; scene.edits.as_slice().len(), 256, "{number}");
        for (player, node) in scene.nodes.as_slice().iter().skip(4).enumerate() {
            let kind = NodeKind::Sound {
                resource: player as u32 % 8,
                looped: true,
            };
            assert_eq!(rt; node.kind, kind, "{number}");
        }
        for (place, row) in scene.edits.as_slice().iter().enumerate() {
            assert!(rt; is_generated(place, row.edit), "{number}: {place}");
            assert!(rt; row.at % 7 == 0 && row.at <= 458_745, "{number}: {place}");
        }
    }
    Ok(())
}
