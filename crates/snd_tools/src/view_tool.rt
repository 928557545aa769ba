ghost use Rattle.std.specs.Prelude.{◌≡◌, ◌⊎◌, ◌++◌, ℕ, List, Err, None, Some, map, option_map, string_bytes, true};
ghost use Rattle.snd_io.specs.Faults.{CountsFaults, Rose};
ghost use Rattle.snd_io.specs.Files.{Files};
ghost use Rattle.snd_tools.specs.Commands.{Sceneview, command};
ghost use Rattle.snd_tools.specs.Counts.{CountsDepot, CountsText};
ghost use Rattle.snd_tools.specs.Meets.{Meets, Works};
ghost use Rattle.snd_tools.specs.Outcome.{outcome};
ghost use Rattle.snd_tools.specs.Printing.{Tells, has_outcome_line};
ghost use Rattle.snd_tools.specs.Reading.{stopped_by_depot};

use crate::printing::print_outcome;
use crate::view::view;
use crate::view_command::{ViewCommand, read_view_command};
use snd_io::{Depot, Sink};
use snd_status::Status;
use std::alloc::Global;

/// Carries out the command of `sceneview`, given by the words after the program's name.
///
/// `SCENE FRAME` reads the scene's script SCENE and prints its wiring at a frame, 0 to 16777216, after the edits of that frame,
/// in the DOT language of Graphviz. With `SCENE` alone the frame is 0. The sound files aren't looked at, and no file changes.
/// Where the words or the script are refused, it prints one line on that.
pub fn run_view<D: Depot, T: Sink>(
    alloc: Global,
    words: &[String],
    depot: &mut D,
    text: &mut T,
) -> Status
    requires { D.writing depot.old ≡ None }

    // Where the files are told, the status is that of the outcome, and the files and the text are as it says.
    ensures told { (before : Files) → D.files depot.old ≡ Some before → (after : Files) × (added : List ℕ) × (D.files depot.new ≡ Some after) × (T.written text.new ≡ option_map (λ t. t ++ added) (T.written text.old)) × Meets (outcome Sceneview (map string_bytes words.now) before) before after added (Rose (D.faults depot.old) (D.faults depot.new)) (Rose (T.faults text.old) (T.faults text.new)) result }

    // Told or not: words that are no command are answered as such, unless there was no memory for the line, and
    // no others are.
    ensures usage { (word : ℕ) → command Sceneview (map string_bytes words.now) ≡ Err word → (D.files depot.new ≡ D.files depot.old) × ((result ≡ Status.Usage word) ⊎ (result ≡ Status.OutOfMemory)) }
    ensures words { (word : ℕ) → result ≡ Status.Usage word → command Sceneview (map string_bytes words.now) ≡ Err word }

    // Told of the files or not: the line of a refusal follows from the status.
    ensures text { (added : List ℕ) × (T.written text.new ≡ option_map (λ t. t ++ added) (T.written text.old)) × Tells result added (Rose (T.faults text.old) (T.faults text.new)) }

    // Told or not: the counts of faults never fall. The depot and the text are said to have failed only where they rose, and
    // `Done` comes only where they are what they were.
    ensures depot_count { CountsDepot (D.faults depot.old) (D.faults depot.new) result }
    ensures text_count { CountsText (T.faults text.old) (T.faults text.new) result }
    ensures closed { D.writing depot.new ≡ None }
{
    let came_to = carry_out(alloc, words, depot);
    print_outcome(alloc, text, came_to)
}

/// Does the work of a command on the files, and gives the line that is to be printed of it.
fn carry_out<D: Depot>(alloc: Global, words: &[String], depot: &mut D) -> Result<String, Status>
    requires { D.writing depot.old ≡ None }
    ensures told { (before : Files) → D.files depot.old ≡ Some before → (after : Files) × (D.files depot.new ≡ Some after) × Works (outcome Sceneview (map string_bytes words.now) before) before after (Rose (D.faults depot.old) (D.faults depot.new)) result }
    ensures closed { D.writing depot.new ≡ None }
    ensures cause { CountsFaults (D.faults depot.old) (D.faults depot.new) (stopped_by_depot result) }
    ensures usage { (word : ℕ) → command Sceneview (map string_bytes words.now) ≡ Err word → (result ≡ Err (Status.Usage word)) × (D.files depot.new ≡ D.files depot.old) }
    ensures words { (word : ℕ) → result ≡ Err (Status.Usage word) → command Sceneview (map string_bytes words.now) ≡ Err word }
    ensures line { has_outcome_line result ≡ true }
{
    match read_view_command(words) {
        Ok(ViewCommand { scene, frame }) => view(alloc, depot, scene, frame),
        Err(word) => Err(Status::Usage { word }),
    }
}
