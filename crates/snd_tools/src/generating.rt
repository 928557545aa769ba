ghost use Rattle.std.specs.Prelude.{◌≡◌, true, None, string_bytes, IfOk, OnOk};
ghost use Rattle.gen_scene.specs.Draws.{state};
ghost use Rattle.gen_scene.specs.Script.{script_from, script_name};
ghost use Rattle.gen_scene.specs.Sounds.{first_draw, sounds, sound_from, sound_name, sound_samples};
ghost use Rattle.snd_io.specs.Answers.{put_failed, put_of};
ghost use Rattle.snd_io.specs.Faults.{CountsFaults, Rose};
ghost use Rattle.snd_io.specs.Files.{Files};
ghost use Rattle.snd_io.specs.Runs.{SetsFile};
ghost use Rattle.snd_tools.specs.Meets.{SetsAll, Works};
ghost use Rattle.snd_tools.specs.Outcome.{comes_to, gen_line, gen_outcome, gen_outputs, sound_outputs};
ghost use Rattle.snd_tools.specs.Reading.{can_stop, stopped_by_depot};

use gen_scene::{Draws, SOUNDS, script, script_name, sound_file, sound_name};
use plain_data::OutOfMemory;
use snd_io::{Depot, PutFault, write_file};
use snd_status::Status;
use std::alloc::Global;
use std::marker::Model;

/// `gen NUMBER PREFIX`: writes the sound files of the scene of a number, `PREFIX-0.wav` to
/// `PREFIX-7.wav`, and then its script `PREFIX.toml`. It gives its line.
pub(crate) fn generate<D: Depot>(
    alloc: Global,
    depot: &mut D,
    number: u32,
    prefix: &str,
) -> Result<String, Status>
    requires { D.writing depot.old ≡ None }
    ensures told { (before : Files) → D.files depot.old ≡ Some before → (after : Files) × (D.files depot.new ≡ Some after) × Works (comes_to (gen_outcome number prefix.now)) before after (Rose (D.faults depot.old) (D.faults depot.new)) result }
    ensures closed { D.writing depot.new ≡ None }
    ensures cause { CountsFaults (D.faults depot.old) (D.faults depot.new) (stopped_by_depot result) }
    ensures stop { can_stop result ≡ true }
{
    let line = gen_line(alloc)?;
    write_files(alloc, depot, number, prefix)?;
    Ok(line)
}

/// The line with the number of files.
fn gen_line(alloc: Global) -> Result<String, OutOfMemory>
    ensures { IfOk result (λ line. string_bytes line ≡ gen_line) }
{
    Ok(String::from_str(alloc, "files 9\n")?)
}

/// Writes the sound files, and then the script.
fn write_files<D: Depot>(
    alloc: Global,
    depot: &mut D,
    number: u32,
    prefix: &str,
) -> Result<(), PutFault>
    requires { D.writing depot.old ≡ None }
    ensures after { SetsAll (put_of result) (gen_outputs number prefix.now) (D.files depot.old) (D.files depot.new) }
    ensures closed { D.writing depot.new ≡ None }
    ensures cause { CountsFaults (D.faults depot.old) (D.faults depot.new) (put_failed (put_of result)) }
{
    let mut draws = Draws::new(number);
    write_sounds(alloc, depot, prefix, &mut draws)?;
    write_script(alloc, depot, prefix, draws)
}

/// Writes the sound files, with the draws from the first one on.
fn write_sounds<D: Depot>(
    alloc: Global,
    depot: &mut D,
    prefix: &str,
    draws: &mut Draws,
) -> Result<(), PutFault>
    requires { D.writing depot.old ≡ None }
    ensures after { SetsAll (put_of result) (sound_outputs draws.old prefix.now sounds) (D.files depot.old) (D.files depot.new) }
    ensures closed { D.writing depot.new ≡ None }
    ensures cause { CountsFaults (D.faults depot.old) (D.faults depot.new) (put_failed (put_of result)) }
    ensures draws { OnOk result (draws.new ≡ state draws.old (first_draw sounds)) }
{
    for i in 0..SOUNDS {
        write_sound(alloc, depot, prefix, i, draws)?;
    }
    Ok(())
}

/// Writes the file of sound `i`, with the draws that follow those of the sounds before it.
fn write_sound<D: Depot>(
    alloc: Global,
    depot: &mut D,
    prefix: &str,
    i: u32,
    draws: &mut Draws,
) -> Result<(), PutFault>
    requires { D.writing depot.old ≡ None }
    ensures after { SetsFile (put_of result) (sound_name prefix.now i) (sound_from draws.old i) (D.files depot.old) (D.files depot.new) }
    ensures closed { D.writing depot.new ≡ None }
    ensures cause { CountsFaults (D.faults depot.old) (D.faults depot.new) (put_failed (put_of result)) }
    ensures draws { OnOk result (draws.new ≡ state draws.old (sound_samples i)) }
{
    let name = sound_name(alloc, prefix, i)?;
    let bytes = sound_file(alloc, draws, i)?;
    write_file(alloc, depot, name.as_str(), &bytes)
}

/// Writes the script, with the draws that follow those of the sounds.
fn write_script<D: Depot>(
    alloc: Global,
    depot: &mut D,
    prefix: &str,
    draws: Draws,
) -> Result<(), PutFault>
    requires { D.writing depot.old ≡ None }
    ensures after { SetsFile (put_of result) (script_name prefix.now) (script_from draws prefix.now) (D.files depot.old) (D.files depot.new) }
    ensures closed { D.writing depot.new ≡ None }
    ensures cause { CountsFaults (D.faults depot.old) (D.faults depot.new) (put_failed (put_of result)) }
{
    let name = script_name(alloc, prefix)?;
    let text = script(alloc, draws, prefix)?;
    write_file(alloc, depot, name.as_str(), text.as_bytes())
}
