ghost use Rattle.std.specs.Prelude.{◌≡◌};
ghost use Rattle.toml.specs.View.{table_view};
ghost use Rattle.scene_script.specs.EditRows as spec;

use crate::fault::SceneFault;
use crate::fields::{known_keys, text};
use crate::limits::MAX_NAMED_GAIN;
use crate::place::Place;
use scene_model::{MAX_LENGTH, MAX_PLACE};
use toml::Table;

/// The word of a row of `edit` for what is changed.
#[derive(Clone, Copy)]
pub(crate) enum OpWord {
    Attach,
    Detach,
    Gain,
    Start,
    Stop,
    From,
    Until,
    Seek,
    Loop,
}

impl OpWord {
    /// Reads the word, and then that the row has no key that this op doesn't have.
    #[tactic(auto, unfolding(crate::specs::EditRows::op_word))]
    pub(crate) fn read(row: &Table, place: Place) -> Result<OpWord, SceneFault>
        ensures { result ≡ spec.op_word place (table_view row.now) }
    {
        let word = OpWord::at(row, place)?;
        word.check_keys(row, place)?;
        Ok(word)
    }

    /// The greatest value of the op, where it has one.
    pub(crate) fn most_value(self) -> Option<u64>
        ensures { result ≡ spec.most_value self }
    {
        match self {
            OpWord::Gain => Some(MAX_NAMED_GAIN),
            OpWord::From | OpWord::Until => Some(u64::from(MAX_LENGTH)),
            OpWord::Seek => Some(MAX_PLACE),
            OpWord::Loop => Some(1),
            OpWord::Attach | OpWord::Detach | OpWord::Start | OpWord::Stop => None,
        }
    }

    #[tactic(auto, unfolding(crate::specs::EditRows::op_at))]
    pub(crate) fn at(row: &Table, place: Place) -> Result<OpWord, SceneFault>
        ensures { result ≡ spec.op_at place (table_view row.now) }
    {
        let word = text(row, place, "op")?;
        OpWord::of(word, place)
    }

    fn of(word: &str, place: Place) -> Result<OpWord, SceneFault>
        ensures { result ≡ spec.op_of place word.now }
    {
        match word {
            "attach" => Ok(OpWord::Attach),
            "detach" => Ok(OpWord::Detach),
            "gain" => Ok(OpWord::Gain),
            "start" => Ok(OpWord::Start),
            "stop" => Ok(OpWord::Stop),
            "from" => Ok(OpWord::From),
            "until" => Ok(OpWord::Until),
            "seek" => Ok(OpWord::Seek),
            "loop" => Ok(OpWord::Loop),
            _ => Err(place.wrong_kind()),
        }
    }

    #[tactic(auto, unfolding(crate::specs::EditRows::known_of))]
    fn check_keys(self, row: &Table, place: Place) -> Result<(), SceneFault>
        ensures { result ≡ spec.known_of place self (table_view row.now) }
    {
        match self {
            OpWord::Attach => known_keys(row, place, &["op", "at", "node", "out", "to", "editor"]),
            OpWord::Detach => known_keys(row, place, &["op", "at", "node", "out", "editor"]),
            OpWord::Gain => known_keys(row, place, &["op", "at", "node", "out", "value", "editor"]),
            OpWord::Start | OpWord::Stop => {
                known_keys(row, place, &["op", "at", "node", "editor"])
            }
            OpWord::From | OpWord::Until | OpWord::Seek | OpWord::Loop => {
                known_keys(row, place, &["op", "at", "node", "value", "editor"])
            }
        }
    }
}
