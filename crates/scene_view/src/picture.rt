//! The whole picture.
ghost use Rattle.std.specs.Prelude.{◌≡◌, ◌<◌, ◌≤◌, ◌++◌, ℕ, length, IfOk, OnOk, string_bytes};
ghost use Rattle.scene_model.specs.IsPlan.{IsBusOf, IsPlan};
ghost use Rattle.scene_model.specs.Limits as limits;
ghost use Rattle.mix_model.specs.OrderedBuses.{mark_at};
ghost use Rattle.mix_model.specs.Pulled.{pulled};
ghost use Rattle.scene_view.specs.Wiring as spec;

use crate::lines::{arrow_line, node_line};
use crate::moment::{plan_at, pulled_at};
use mix_model::is_active;
use plain_data::OutOfMemory;
use scene_model::{Bus, Plan, Scene};
use std::alloc::Global;
use std::fmt;

/// The wiring of a scene at a frame, 0 to 16777216, after the edits of that frame, as a text in the DOT language.
///
/// # Errors
///
/// [`OutOfMemory`] where there is no memory.
pub fn wiring(alloc: Global, scene: &Scene, frame: u32) -> Result<String, OutOfMemory>
    requires { frame ≤ limits.most_frames }
    ensures { IfOk result (λ text. string_bytes text ≡ spec.wiring scene.now frame) }
{
    let plan = plan_at(alloc, scene, frame)?;
    let marks = pulled_at(alloc, &plan, frame)?;
    picture_of(alloc, scene, &plan, frame, marks.as_slice())
}

/// The first part of a picture, with the lines of its nodes.
#[derive(Clone, Copy)]
struct UpperPart<'a> {
    frame: u32,
    nodes: &'a str,
}

impl fmt::Display for UpperPart<'_> {
    ghost use Rattle.std.specs.Prelude.{Some};
    ghost use Rattle.scene_view.specs.Wiring.{upper_part};

    ghost output = { λ p. Some (upper_part p.frame p.nodes.now) };

    #[tactic(auto, unfolding(crate::specs::Wiring::upper_part))]
    fn fmt<W: fmt::Write>(&self, f: &mut fmt::Formatter<W>) -> fmt::Result {
        let UpperPart { frame, nodes } = *self;
        write!(
            f,
            "digraph scene {{\n  label=\"frame {frame}\";\n  rankdir=LR;\n  node [shape=box];\n{nodes}"
        )
    }
}

/// The other part of it, with the endpoint and the lines of the buses.
#[derive(Clone, Copy)]
struct LowerPart<'a> {
    endpoint: u32,
    buses: &'a str,
}

impl fmt::Display for LowerPart<'_> {
    ghost use Rattle.std.specs.Prelude.{Some};
    ghost use Rattle.scene_view.specs.Wiring.{lower_part};

    ghost output = { λ p. Some (lower_part p.endpoint p.buses.now) };

    #[tactic(auto, unfolding(crate::specs::Wiring::lower_part))]
    fn fmt<W: fmt::Write>(&self, f: &mut fmt::Formatter<W>) -> fmt::Result {
        let LowerPart { endpoint, buses } = *self;
        write!(
            f,
            "  n{endpoint} [label=\"endpoint\", shape=doublecircle];\n{buses}}}\n"
        )
    }
}

/// The picture of a plan at a frame.
fn picture_of(
    alloc: Global,
    scene: &Scene,
    plan: &Plan,
    frame: u32,
    marks: &[bool],
) -> Result<String, OutOfMemory>
    requires nodes { length plan.now.nodes ≡ length scene.now.nodes }
    requires marks { length plan.now.nodes < length marks.now }
    requires pulled { (n : ℕ) → n ≤ length plan.now.nodes → mark_at marks.now n ≡ pulled plan.now frame n }
    ensures { IfOk result (λ text. string_bytes text ≡ spec.picture scene.now plan.now frame) }
{
    let nodes = node_lines(alloc, scene, plan, frame, marks)?;
    let buses = bus_lines(alloc, plan, frame, marks)?;
    let upper = UpperPart {
        frame,
        nodes: nodes.as_str(),
    };
    let lower = LowerPart {
        endpoint: scene.endpoint(),
        buses: buses.as_str(),
    };
    Ok(format!(in alloc; "{upper}{lower}")?)
}

/// The lines of all nodes.
fn node_lines(
    alloc: Global,
    scene: &Scene,
    plan: &Plan,
    frame: u32,
    marks: &[bool],
) -> Result<String, OutOfMemory>
    requires nodes { length plan.now.nodes ≡ length scene.now.nodes }
    requires marks { length plan.now.nodes < length marks.now }
    requires pulled { (n : ℕ) → n ≤ length plan.now.nodes → mark_at marks.now n ≡ pulled plan.now frame n }
    ensures { IfOk result (λ text. string_bytes text ≡ spec.node_lines scene.now plan.now frame (length plan.now.nodes)) }
{
    let (rows, states) = (scene.nodes.as_slice(), plan.nodes());
    let mut text = String::new(alloc);
    for number in 0..states.len() {
        let name = rows[number].name.as_str();
        let line = node_line(
            alloc,
            scene,
            number as u32,
            name,
            &states[number],
            marks[number],
        )?;
        text.push_str(line.as_str())?;
    }
    Ok(text)
}

/// The lines of all buses that are attached.
fn bus_lines(alloc: Global, plan: &Plan, frame: u32, marks: &[bool]) -> Result<String, OutOfMemory>
    requires marks { length plan.now.nodes < length marks.now }
    requires pulled { (n : ℕ) → n ≤ length plan.now.nodes → mark_at marks.now n ≡ pulled plan.now frame n }
    ensures { IfOk result (λ text. string_bytes text ≡ spec.bus_lines plan.now frame plan.now.buses) }
{
    let mut text = String::new(alloc);
    for bus in plan.buses() {
        push_bus_line(alloc, &mut text, plan, bus, frame, marks)?;
    }
    Ok(text)
}

/// Appends the line of a bus where it is attached.
fn push_bus_line(
    alloc: Global,
    text: &mut String,
    plan: &Plan,
    bus: &Bus,
    frame: u32,
    marks: &[bool],
) -> Result<(), OutOfMemory>
    requires bus { IsBusOf (length plan.now.nodes) bus.now }
    requires marks { length plan.now.nodes < length marks.now }
    requires pulled { (n : ℕ) → n ≤ length plan.now.nodes → mark_at marks.now n ≡ pulled plan.now frame n }
    ensures { OnOk result (string_bytes text.new ≡ string_bytes text.old ++ spec.bus_line plan.now frame bus.now) }
{
    let Some(to) = bus.to else { return Ok(()) };
    let node = &plan.nodes()[bus.node as usize];
    let is_heard = is_active(node, frame) && marks[to as usize];
    let line = arrow_line(alloc, &node.kind, bus, to, is_heard)?;
    text.push_str(line.as_str())?;
    Ok(())
}
