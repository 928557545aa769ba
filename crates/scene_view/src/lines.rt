//! The lines of nodes and of buses.
ghost use Rattle.std.specs.Prelude.{◌≡◌, ◌<◌, length, IfOk, string_bytes};
ghost use Rattle.scene_model.specs.IsScene.{IsScene};
ghost use Rattle.scene_view.specs.Wiring as spec;

use crate::labels::{factor, label};
use plain_data::OutOfMemory;
use scene_model::{Bus, NodeKind, NodeState, Scene};
use std::alloc::Global;
use std::fmt;

/// What a node is, by texts of its label: the first part of its line.
#[derive(Clone, Copy)]
struct WhatItIs<'a> {
    number: u32,
    name: &'a str,
    kind: &'a str,
    looped: &'a str,
}

impl fmt::Display for WhatItIs<'_> {
    ghost use Rattle.std.specs.Prelude.{Some};
    ghost use Rattle.scene_view.specs.Wiring.{what_it_is};

    ghost output = { λ r. Some (what_it_is r.number r.name.now r.kind.now r.looped.now) };

    #[tactic(auto, unfolding(crate::specs::Wiring::what_it_is))]
    fn fmt<W: fmt::Write>(&self, f: &mut fmt::Formatter<W>) -> fmt::Result {
        let WhatItIs {
            number,
            name,
            kind,
            looped,
        } = *self;
        write!(f, "  n{number} [label=\"{name}\\n{kind}{looped}")
    }
}

/// When a node is active: the other part of its line.
#[derive(Clone, Copy)]
struct WhenItIs<'a> {
    from: u32,
    until: u32,
    stopped: &'a str,
    shade: &'a str,
}

impl fmt::Display for WhenItIs<'_> {
    ghost use Rattle.std.specs.Prelude.{Some};
    ghost use Rattle.scene_view.specs.Wiring.{when_it_is};

    ghost output = { λ r. Some (when_it_is r.from r.until r.stopped.now r.shade.now) };

    #[tactic(auto, unfolding(crate::specs::Wiring::when_it_is))]
    fn fmt<W: fmt::Write>(&self, f: &mut fmt::Formatter<W>) -> fmt::Result {
        let WhenItIs {
            from,
            until,
            stopped,
            shade,
        } = *self;
        write!(f, "\\nfrom {from} until {until}{stopped}\"{shade}];\n")
    }
}

/// An arrow from a node to another one.
#[derive(Clone, Copy)]
struct Arrow<'a> {
    from: u32,
    to: u32,
    gain: &'a str,
    shade: &'a str,
}

impl fmt::Display for Arrow<'_> {
    ghost use Rattle.std.specs.Prelude.{Some};
    ghost use Rattle.scene_view.specs.Wiring.{arrow};

    ghost output = { λ r. Some (arrow r.from r.to r.gain.now r.shade.now) };

    #[tactic(auto, unfolding(crate::specs::Wiring::arrow))]
    fn fmt<W: fmt::Write>(&self, f: &mut fmt::Formatter<W>) -> fmt::Result {
        let Arrow {
            from,
            to,
            gain,
            shade,
        } = *self;
        write!(f, "  n{from} -> n{to} [label=\"{gain}\"{shade}];\n")
    }
}

/// The line of a node by its number.
#[tactic(auto, unfolding(crate::specs::Wiring::node_line))]
pub(crate) fn node_line(
    alloc: Global,
    scene: &Scene,
    number: u32,
    name: &str,
    state: &NodeState,
    is_heard: bool,
) -> Result<String, OutOfMemory>
    ensures { IfOk result (λ text. string_bytes text ≡ spec.node_line scene.now number name.now state.now is_heard) }
{
    let name = label(alloc, name)?;
    let kind = kind_text(alloc, scene, &state.kind)?;
    let what = WhatItIs {
        number,
        name: name.as_str(),
        kind: kind.as_str(),
        looped: said_where(state.looped, "\\nlooped"),
    };
    let when = WhenItIs {
        from: state.from,
        until: state.until,
        stopped: said_where(!state.started, "\\nstopped"),
        shade: shade(is_heard),
    };
    Ok(format!(in alloc; "{what}{when}")?)
}

/// What a node is.
#[tactic(auto, unfolding(crate::specs::Wiring::kind_text))]
fn kind_text(alloc: Global, scene: &Scene, kind: &NodeKind) -> Result<String, OutOfMemory>
    ensures { IfOk result (λ text. string_bytes text ≡ spec.kind_text scene.now kind.now) }
{
    match *kind {
        NodeKind::Sound { resource, .. } => {
            let file = label(alloc, file_name(scene, resource))?;
            Ok(format!(in alloc; "sound {file}")?)
        }
        NodeKind::Group => Ok(String::from_str(alloc, "group")?),
        NodeKind::Splitter { outputs } => {
            Ok(format!(in alloc; "splitter with {outputs} outputs")?)
        }
    }
}

/// The sound file of a resource, or nothing where there is no such resource.
fn file_name(scene: &Scene, resource: u32) -> &str
    ensures { result.now ≡ spec.file_name scene.now resource }
{
    match scene.resources.as_slice().get(resource as usize) {
        Some(row) => row.file.as_str(),
        None => "",
    }
}

/// The line of a bus that is attached, by the kind of its node.
pub(crate) fn arrow_line(
    alloc: Global,
    kind: &NodeKind,
    bus: &Bus,
    to: u32,
    is_heard: bool,
) -> Result<String, OutOfMemory>
    ensures { IfOk result (λ text. string_bytes text ≡ spec.arrow_line kind.now bus.now to is_heard) }
{
    let gain = gain_text(alloc, kind, bus)?;
    let arrow = Arrow {
        from: bus.node,
        to,
        gain: gain.as_str(),
        shade: shade(is_heard),
    };
    Ok(format!(in alloc; "{arrow}")?)
}

/// The gain of a bus as a factor, behind the number of its output where its node has several.
fn gain_text(alloc: Global, kind: &NodeKind, bus: &Bus) -> Result<String, OutOfMemory>
    ensures { IfOk result (λ text. string_bytes text ≡ spec.gain_text kind.now bus.now) }
{
    let output = output_text(alloc, kind, bus.out)?;
    let factor = factor(alloc, bus.gain)?;
    Ok(format!(in alloc; "{output}{factor}")?)
}

/// The number of an output, of a node that has several.
#[tactic(auto, unfolding(crate::specs::Wiring::output_text))]
fn output_text(alloc: Global, kind: &NodeKind, out: u8) -> Result<String, OutOfMemory>
    ensures { IfOk result (λ text. string_bytes text ≡ spec.output_text kind.now out) }
{
    if kind.outputs() > 1 {
        Ok(format!(in alloc; "{out}: ")?)
    } else {
        Ok(String::new(alloc))
    }
}

/// The text where it is so, and else nothing.
#[tactic(auto, unfolding(crate::specs::Wiring::said_where))]
fn said_where(so: bool, text: &str) -> &str
    ensures { result.now ≡ spec.said_where so text.now }
{
    if so { text } else { "" }
}

/// What is not heard is grey.
#[tactic(auto, unfolding(crate::specs::Wiring::shade))]
fn shade(is_heard: bool) -> &'static str
    ensures { result.now ≡ spec.shade is_heard }
{
    if is_heard {
        ""
    } else {
        ", color=grey, fontcolor=grey"
    }
}
