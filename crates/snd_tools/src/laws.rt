//! Laws of what a command comes to. The functions do nothing.

ghost use Rattle.std.specs.Prelude.{◌≡◌, ◌++◌, ℕ, List, Err};
ghost use Rattle.std.specs.FinMap.{get};
ghost use Rattle.fx_nodes.specs.declared.effect.Effect.{Effect};
ghost use Rattle.scene_model.specs.declared.resource.Resource.{Resource};
ghost use Rattle.snd_io.specs.Files.{Files};
ghost use Rattle.snd_status.specs.declared.status.Status.{Status};
ghost use Rattle.snd_status.specs.declared.status.Status.TheVariants.{Usage};
ghost use Rattle.snd_tools.specs.Commands.{Command, Program, command};
ghost use Rattle.snd_tools.specs.Laws.{AgreeFor, AgreeOn, AgreeOnSounds};
ghost use Rattle.snd_tools.specs.Outcome.{IsRefused, command_result, fx_outcome, mix_outcome, outcome};
ghost use Rattle.snd_tools.specs.Reading.{scene_read, sound_file_read, sounds_read};

/// A law: the refusal is the first one in the order of the words, SCENE and the sound files of its
/// resources, or FILE, whatever comes later in that order. Words that are no command are refused as such over
/// every store. What SCENE is refused for stands in every store that has the same SCENE, and what the
/// first sound files are refused for in every store that has the same first files, whichever follow. What FILE of `fx` is
/// refused for stands in every store that has the same FILE, whatever the effects are.
pub fn the_refusal_is_the_first()
    ensures words { (program : Program) (words : List (List ℕ)) (word : ℕ) (files : Files) →
        command program words ≡ Err word → IsRefused (outcome program words files) (Usage word) }
    ensures scene { (a b : Files) (scene out : List ℕ) (status : Status) → AgreeOn a b scene →
        scene_read scene (get a scene) ≡ Err status → mix_outcome b scene out ≡ Err status }
    ensures sounds { (a b : Files) (first rest : List Resource) (status : Status) → AgreeOnSounds a b first →
        sounds_read a first ≡ Err status → sounds_read b (first ++ rest) ≡ Err status }
    ensures file { (a b : Files) (file out : List ℕ) (count : ℕ) (effects : List Effect) (status : Status) → AgreeOn a b file →
        sound_file_read file (get a file) ≡ Err status → fx_outcome b file out count effects ≡ Err status }
{}

/// A law: what a command comes to, the refusal or the files that are written and the line, depends on
/// its words and on the files that it names, and on no other file.
pub fn an_outcome_is_that_of_the_named_files()
    ensures { (a b : Files) (command : Command) → AgreeFor a b command →
        command_result a command ≡ command_result b command }
{}
