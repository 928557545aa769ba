//! The rows of the script, each as its lines.
ghost use Rattle.std.specs.Prelude.{◌≡◌};
ghost use Rattle.gen_scene.specs.Script as spec;

use crate::script_text::GROUPS;
use crate::sounds::SOUNDS;
use std::fmt;

/// A sound file as a resource.
#[derive(Clone, Copy)]
pub(crate) struct ResourceRow<'a> {
    pub prefix: &'a str,
    pub number: u32,
}

impl fmt::Display for ResourceRow<'_> {
    ghost use Rattle.std.specs.Prelude.{Some};
    ghost use Rattle.gen_scene.specs.Script.{resource_lines};

    ghost output = { λ r. Some (resource_lines r.prefix.now r.number) };

    #[tactic(auto, unfolding(crate::specs::Script::resource_lines))]
    fn fmt<W: fmt::Write>(&self, f: &mut fmt::Formatter<W>) -> fmt::Result {
        let ResourceRow { prefix, number } = *self;
        write!(
            f,
            "[[resource]]\nname = \"r{number}\"\nfile = \"{prefix}-{number}.wav\"\n"
        )
    }
}

/// A group.
#[derive(Clone, Copy)]
pub(crate) struct GroupRow {
    pub number: u32,
}

impl fmt::Display for GroupRow {
    ghost use Rattle.std.specs.Prelude.{Some};
    ghost use Rattle.gen_scene.specs.Script.{group_lines};

    ghost output = { λ r. Some (group_lines r.number) };

    #[tactic(auto, unfolding(crate::specs::Script::group_lines))]
    fn fmt<W: fmt::Write>(&self, f: &mut fmt::Formatter<W>) -> fmt::Result {
        let number = self.number;
        write!(f, "[[node]]\nkind = \"group\"\nname = \"g{number}\"\n")
    }
}

/// A sound that plays a resource over and over.
#[derive(Clone, Copy)]
pub(crate) struct PlayerRow {
    pub number: u32,
}

impl fmt::Display for PlayerRow {
    ghost use Rattle.std.specs.Prelude.{Some};
    ghost use Rattle.gen_scene.specs.Script.{player_lines};

    ghost output = { λ r. Some (player_lines r.number) };

    #[tactic(auto, unfolding(crate::specs::Script::player_lines))]
    fn fmt<W: fmt::Write>(&self, f: &mut fmt::Formatter<W>) -> fmt::Result {
        let number = self.number;
        write!(
            f,
            "{}{}",
            PlayerNameLines { number },
            PlayerSourceLines { number }
        )
    }
}

/// The kind and the name of a sound.
#[derive(Clone, Copy)]
struct PlayerNameLines {
    number: u32,
}

impl fmt::Display for PlayerNameLines {
    ghost use Rattle.std.specs.Prelude.{Some};
    ghost use Rattle.gen_scene.specs.Script.{player_name_lines};

    ghost output = { λ r. Some (player_name_lines r.number) };

    #[tactic(auto, unfolding(crate::specs::Script::player_name_lines))]
    fn fmt<W: fmt::Write>(&self, f: &mut fmt::Formatter<W>) -> fmt::Result {
        let number = self.number;
        write!(f, "[[node]]\nkind = \"sound\"\nname = \"s{number}\"\n")
    }
}

/// What a sound plays.
#[derive(Clone, Copy)]
struct PlayerSourceLines {
    number: u32,
}

impl fmt::Display for PlayerSourceLines {
    ghost use Rattle.std.specs.Prelude.{Some};
    ghost use Rattle.gen_scene.specs.Script.{player_source_lines};

    ghost output = { λ r. Some (player_source_lines r.number) };

    #[tactic(auto, unfolding(crate::specs::Script::player_source_lines))]
    fn fmt<W: fmt::Write>(&self, f: &mut fmt::Formatter<W>) -> fmt::Result {
        let resource = self.number % SOUNDS;
        write!(f, "resource = \"r{resource}\"\n")?;
        f.write_str("loop = true\n")
    }
}

/// The bus from a group to the endpoint.
#[derive(Clone, Copy)]
pub(crate) struct GroupBus {
    pub number: u32,
}

impl fmt::Display for GroupBus {
    ghost use Rattle.std.specs.Prelude.{Some};
    ghost use Rattle.gen_scene.specs.Script.{group_bus_lines};

    ghost output = { λ r. Some (group_bus_lines r.number) };

    #[tactic(auto, unfolding(crate::specs::Script::group_bus_lines))]
    fn fmt<W: fmt::Write>(&self, f: &mut fmt::Formatter<W>) -> fmt::Result {
        let number = self.number;
        write!(f, "[[bus]]\nnode = \"g{number}\"\n")?;
        f.write_str("to = \"endpoint\"\n")
    }
}

/// The bus from a sound to its group.
#[derive(Clone, Copy)]
pub(crate) struct PlayerBus {
    pub gain: u32,
    pub number: u32,
}

impl fmt::Display for PlayerBus {
    ghost use Rattle.std.specs.Prelude.{Some};
    ghost use Rattle.gen_scene.specs.Script.{player_bus_lines};

    ghost output = { λ r. Some (player_bus_lines r.gain r.number) };

    #[tactic(auto, unfolding(crate::specs::Script::player_bus_lines))]
    fn fmt<W: fmt::Write>(&self, f: &mut fmt::Formatter<W>) -> fmt::Result {
        let PlayerBus { gain, number } = *self;
        let group = number % GROUPS;
        write!(
            f,
            "[[bus]]\nnode = \"s{number}\"\nto = \"g{group}\"\ngain = {gain}\n"
        )
    }
}

/// An edit: a gain where its number is even, and else a seek.
#[derive(Clone, Copy)]
pub(crate) struct EditLines {
    pub number: u32,
    pub at: u32,
    pub node: u32,
    pub value: u32,
}

impl fmt::Display for EditLines {
    ghost use Rattle.std.specs.Prelude.{Some};
    ghost use Rattle.gen_scene.specs.Script.{edit_text};

    ghost output = { λ r. Some (edit_text r.number r.at r.node r.value) };

    #[tactic(auto, unfolding(crate::specs::Script::edit_text))]
    fn fmt<W: fmt::Write>(&self, f: &mut fmt::Formatter<W>) -> fmt::Result {
        let EditLines {
            number,
            at,
            node,
            value,
        } = *self;
        let op = edit_op(number);
        write!(
            f,
            "[[edit]]\nop = \"{op}\"\nat = {at}\nnode = \"s{node}\"\nvalue = {value}\n"
        )
    }
}

/// The word of the edit of that number.
fn edit_op(number: u32) -> &'static str
    ensures { result.now ≡ spec.edit_op number }
{
    if number % 2 == 0 { "gain" } else { "seek" }
}
