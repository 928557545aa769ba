//! Random scenes.

use crate::noise::bits;
use crate::random_rows::{edits, nodes, resources, rows};
use crate::rendering::common_summary;
use crate::sounds::{Sound, clips};
use mix_model::Summary;
use plain_data::{OutOfMemory, Rows};
use scene_model::Scene;
use std::alloc::Global;
use std::process::Abort;
use std::test::Fail;

/// A scene of 3 resources and 8 nodes, of up to 1500 frames.
fn scene(alloc: Global, seed: u64) -> Result<Scene, OutOfMemory> {
    let resources = resources(alloc)?;
    let nodes = nodes(alloc, bits(seed, 1))?;
    let buses = rows(alloc, nodes.len(), bits(seed, 2))?;
    let edits = edits(alloc, nodes.len(), bits(seed, 3))?;
    let numbers = bits(seed, 4);
    Ok(Scene {
        version: 1,
        rate: 8000,
        channels: if numbers % 2 == 0 { 1 } else { 2 },
        width: if (numbers >> 8) % 2 == 0 { 16 } else { 24 },
        length: ((numbers >> 16) % 1501) as u32,
        resources: Rows::new(resources),
        nodes: Rows::new(nodes),
        buses: Rows::new(buses),
        edits: Rows::new(edits),
    })
}

/// A sound of up to 800 frames.
fn sound(bits: u64) -> Sound {
    let rate = if bits % 4 == 0 {
        4000 + ((bits >> 8) % 8000) as u16
    } else {
        8000
    };
    Sound {
        stereo: (bits >> 24) % 2 == 0,
        wide: (bits >> 32) % 2 == 0,
        rate,
        frames: ((bits >> 40) % 801) as u16,
    }
}

/// The summary of a random scene, where both renderings are the same.
fn random_summary(rt: &impl Abort, alloc: Global, seed: u64) -> Result<Option<Summary>, Fail> {
    let scene = scene(alloc, seed)?;
    let sounds = [5, 6, 7].map(|place| sound(bits(seed, place)));
    let clips = clips(alloc, &sounds, bits(seed, 8))?;
    common_summary(rt, alloc, &scene, clips)
}

#[test]
fn random_scenes_are_the_plain_mix(rt: HostRuntime) -> Result<(), Fail> {
    let mut heard = 0u32;
    for number in 0..200u32 {
        let summary = random_summary(&rt, rt.alloc(), bits(1, number))?;
        assert!(rt; summary.is_some(), "scene {number}");
        if summary.is_some_and(|summary| summary.peak > 0) {
            heard = heard.saturating_add(1);
        }
    }
    assert!(rt; heard > 100, "{heard} scenes are heard");
    Ok(())
}
