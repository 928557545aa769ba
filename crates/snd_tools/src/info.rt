ghost use Rattle.std.specs.Prelude.{◌≡◌, true, None, Some, IfOk, false, string_bytes};
ghost use Rattle.snd_io.specs.Faults.{CountsFaults, Rose};
ghost use Rattle.snd_io.specs.Files.{Files};
ghost use Rattle.snd_tools.specs.Meets.{Works};
ghost use Rattle.snd_tools.specs.Outcome.{comes_to, info_outcome, info_line, survey_line};
ghost use Rattle.snd_tools.specs.Reading.{GivesBy, stopped_by_depot, can_stop};

use crate::fetching::fetch_file;
use clip_decode::{MAX_SOUND_BYTES, pages};
use plain_data::OutOfMemory;
use snd_io::Depot;
use snd_status::{Status, WaveReport};
use std::alloc::Global;
use std::marker::Model;
use wave_read::{Wave, survey};

/// `info FILE`: gives the line on what a WAVE file says of its sound. No file changes.
pub(crate) fn info<D: Depot>(alloc: Global, depot: &mut D, file: &str) -> Result<String, Status>
    requires { D.writing depot.old ≡ None }
    ensures told { (before : Files) → D.files depot.old ≡ Some before → (after : Files) × (D.files depot.new ≡ Some after) × Works (comes_to (info_outcome before file.now)) before after (Rose (D.faults depot.old) (D.faults depot.new)) result }
    ensures closed { D.writing depot.new ≡ None }
    ensures cause { CountsFaults (D.faults depot.old) (D.faults depot.new) (stopped_by_depot result) }
    ensures stop { can_stop result ≡ true }
{
    let bytes = fetch_file(alloc, depot, file, MAX_SOUND_BYTES)?;
    wave_line(alloc, &bytes)
}

/// The line on a WAVE file, or its fault.
fn wave_line(alloc: Global, bytes: &[u8]) -> Result<String, Status>
    ensures value { GivesBy string_bytes result (survey_line bytes.now) }
    ensures no_fault { stopped_by_depot result ≡ false }
    ensures stop { can_stop result ≡ true }
{
    let wave = match survey(bytes) {
        Ok(wave) => wave,
        Err(fault) => return Err(Status::File { resource: 0, fault }),
    };
    Ok(info_line(alloc, wave)?)
}

/// The line of a sound.
fn info_line(alloc: Global, wave: Wave) -> Result<String, OutOfMemory>
    ensures { IfOk result (λ text. string_bytes text ≡ info_line wave) }
{
    let report = WaveReport {
        wave,
        pages: pages(&wave),
    };
    Ok(format!(in alloc; "{report}\n")?)
}
