ghost use Rattle.std.specs.Prelude.{◌≡◌, ◌++◌, IfOk, OnOk, string_bytes};
ghost use Rattle.gen_scene.specs.Draws.{state, stepped};
ghost use Rattle.gen_scene.specs.Script as spec;

use crate::draws::Draws;
use crate::rows::{EditLines, GroupBus, GroupRow, PlayerBus, PlayerRow, ResourceRow};
use crate::sounds::SOUNDS;
use plain_data::OutOfMemory;
use std::alloc::{AllocError, Global};
use std::fmt::Write;

/// Groups, sounds that are played, and edits.
pub(crate) const GROUPS: u32 = 4;

const PLAYERS: u32 = 32;

const EDITS: u32 = 256;

/// The lines at the top.
const TOP: &str = "version = 1\nrate = 48000\nchannels = 2\nwidth = 24\nlength = 480000\n";

/// The script of the scene, with the draws from `draws` on, which follow those of the sounds. Its
/// sound files are `PREFIX-0.wav` to `PREFIX-7.wav`.
///
/// # Errors
///
/// [`OutOfMemory`] where there is no memory.
pub fn script(alloc: Global, draws: Draws, prefix: &str) -> Result<String, OutOfMemory>
    ensures { IfOk result (λ text. string_bytes text ≡ spec.script_from draws prefix.now) }
{
    let mut draws = draws;
    let mut text = String::from_str(alloc, TOP)?;
    for number in 0..SOUNDS {
        write!(text, "{}", ResourceRow { prefix, number })?;
    }
    push_nodes(&mut text)?;
    push_buses(&mut text, &mut draws)?;
    push_edits(&mut text, &mut draws)?;
    Ok(text)
}

fn push_nodes(text: &mut String) -> Result<(), AllocError>
    ensures { OnOk result (string_bytes text.new ≡ string_bytes text.old ++ (spec.rows spec.groups spec.group_lines ++ spec.rows spec.players spec.player_lines)) }
{
    for number in 0..GROUPS {
        write!(text, "{}", GroupRow { number })?;
    }
    for number in 0..PLAYERS {
        write!(text, "{}", PlayerRow { number })?;
    }
    Ok(())
}

fn push_buses(text: &mut String, draws: &mut Draws) -> Result<(), AllocError>
    ensures text { OnOk result (string_bytes text.new ≡ string_bytes text.old ++ (spec.rows spec.groups spec.group_bus_lines ++ spec.rows spec.players (spec.player_bus draws.old))) }
    ensures draws { OnOk result (draws.new ≡ state draws.old spec.players) }
{
    for number in 0..GROUPS {
        write!(text, "{}", GroupBus { number })?;
    }
    for number in 0..PLAYERS {
        let gain = u32::from(draws.draw()) / 16;
        write!(text, "{}", PlayerBus { gain, number })?;
    }
    Ok(())
}

fn push_edits(text: &mut String, draws: &mut Draws) -> Result<(), AllocError>
    ensures { OnOk result (string_bytes text.new ≡ string_bytes text.old ++ spec.rows spec.edits (spec.edit_row draws.old)) }
{
    for number in 0..EDITS {
        let row = edit(draws, number);
        write!(text, "{row}")?;
    }
    Ok(())
}

/// The edit of that number, by three draws.
fn edit(draws: &mut Draws, number: u32) -> EditLines
    ensures value { spec.edit_text result.number result.at result.node result.value ≡ spec.edit_row_at draws.old number }
    ensures draws { draws.new ≡ stepped (stepped (stepped draws.old)) }
{
    let first = u32::from(draws.draw());
    let second = u32::from(draws.draw());
    let third = u32::from(draws.draw());
    EditLines {
        number,
        at: 7 * first,
        node: second % PLAYERS,
        value: edit_value(number, third),
    }
}

/// The value of the edit of that number, by its third draw.
fn edit_value(number: u32, third: u32) -> u32
    ensures { result ≡ spec.edit_value number third }
{
    if number % 2 == 0 { third / 16 } else { third }
}
