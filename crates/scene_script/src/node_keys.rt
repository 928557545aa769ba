ghost use Rattle.std.specs.Prelude.{◌≡◌, ◌≤◌, ◌<◌, IfOk, IsTrue, length};
ghost use Rattle.toml.specs.View.{table_view};
ghost use Rattle.scene_model.specs.IsScene.{is_kind, is_time};
ghost use Rattle.scene_model.specs.Limits as limits;
ghost use Rattle.scene_script.specs.KeysRead.{IsOwn};
ghost use Rattle.scene_script.specs.NodeRows as spec;

use crate::bounds::Bounds;
use crate::fault::{SceneFault, Which};
use crate::fields::{flag_or, known_keys, number, number_or, text};
use crate::names::{known_name, resource_at};
use crate::place::Place;
use scene_model::{MAX_LENGTH, NodeKind, Resource};
use toml::Table;

const OUTPUTS: Bounds = Bounds {
    which: Which::Outputs,
    least: 2,
    most: 4,
};

const FROM: Bounds = Bounds {
    which: Which::From,
    least: 0,
    most: MAX_LENGTH as u64,
};

const UNTIL: Bounds = Bounds {
    which: Which::Until,
    least: 0,
    most: MAX_LENGTH as u64,
};

/// The word of a row of `node` for its kind.
#[derive(Clone, Copy)]
pub(crate) enum KindWord {
    Sound,
    Group,
    Splitter,
}

impl KindWord {
    /// Reads the word, and then that the row has no key that this kind doesn't have.
    #[tactic(auto, unfolding(crate::specs::NodeRows::kind_word))]
    pub(crate) fn read(row: &Table, place: Place) -> Result<KindWord, SceneFault>
        ensures { result ≡ spec.kind_word place (table_view row.now) }
    {
        let word = KindWord::at(row, place)?;
        word.check_keys(row, place)?;
        Ok(word)
    }

    #[tactic(auto, unfolding(crate::specs::NodeRows::word_at))]
    pub(crate) fn at(row: &Table, place: Place) -> Result<KindWord, SceneFault>
        ensures { result ≡ spec.word_at place (table_view row.now) }
    {
        let word = text(row, place, "kind")?;
        KindWord::of(word, place)
    }

    fn of(word: &str, place: Place) -> Result<KindWord, SceneFault>
        ensures { result ≡ spec.word_of place word.now }
    {
        match word {
            "sound" => Ok(KindWord::Sound),
            "group" => Ok(KindWord::Group),
            "splitter" => Ok(KindWord::Splitter),
            _ => Err(place.wrong_kind()),
        }
    }

    #[tactic(auto, unfolding(crate::specs::NodeRows::known_of))]
    fn check_keys(self, row: &Table, place: Place) -> Result<(), SceneFault>
        ensures { result ≡ spec.known_of place self (table_view row.now) }
    {
        match self {
            KindWord::Sound => known_keys(
                row,
                place,
                &[
                    "kind", "name", "resource", "loop", "started", "from", "until",
                ],
            ),
            KindWord::Group => {
                known_keys(row, place, &["kind", "name", "started", "from", "until"])
            }
            KindWord::Splitter => known_keys(
                row,
                place,
                &["kind", "name", "outputs", "started", "from", "until"],
            ),
        }
    }
}

/// The keys that only one kind of node has. A resource is the number of the one that is named,
/// where there is one.
#[derive(Clone, Copy)]
pub(crate) enum OwnKeys {
    Sound { resource: Option<u32>, looped: bool },
    Group,
    Splitter { outputs: u8 },
}

impl OwnKeys {
    pub(crate) fn read(
        row: &Table,
        place: Place,
        resources: &[Resource],
        word: KindWord,
    ) -> Result<OwnKeys, SceneFault>
        requires { length resources.now ≤ limits.most_resources }
        ensures value { result ≡ spec.own_keys place resources.now word (table_view row.now) }
        ensures within { IfOk result (λ own. IsOwn (length resources.now) own) }
    {
        match word {
            KindWord::Sound => OwnKeys::of_sound(row, place, resources),
            KindWord::Group => Ok(OwnKeys::Group),
            KindWord::Splitter => OwnKeys::of_splitter(row, place),
        }
    }

    #[tactic(auto, unfolding(crate::specs::NodeRows::sound_keys))]
    fn of_sound(row: &Table, place: Place, resources: &[Resource]) -> Result<OwnKeys, SceneFault>
        requires { length resources.now ≤ limits.most_resources }
        ensures value { result ≡ spec.sound_keys place resources.now (table_view row.now) }
        ensures within { IfOk result (λ own. IsOwn (length resources.now) own) }
    {
        let resource = resource_at(row, place, resources, "resource")?;
        let looped = flag_or(row, place, "loop", false)?;
        Ok(OwnKeys::Sound { resource, looped })
    }

    #[tactic(auto, unfolding(crate::specs::NodeRows::splitter_keys))]
    fn of_splitter(row: &Table, place: Place) -> Result<OwnKeys, SceneFault>
        ensures value { result ≡ spec.splitter_keys place (table_view row.now) }
        ensures within { IfOk result (λ own. IsOwn 0 own) }
    {
        let outputs = number(row, place, "outputs", OUTPUTS)?;
        Ok(OwnKeys::Splitter {
            outputs: outputs as u8,
        })
    }

    /// The kind of the node, where its resource is known.
    pub(crate) fn kind(self, place: Place, resources: usize) -> Result<NodeKind, SceneFault>
        requires { IsOwn resources self }
        ensures value { result ≡ spec.kind_of place self }
        ensures is_kind { IfOk result (λ kind. IsTrue (is_kind resources kind)) }
    {
        match self {
            OwnKeys::Sound { resource, looped } => {
                let resource = known_name(place, resource)?;
                Ok(NodeKind::Sound { resource, looped })
            }
            OwnKeys::Group => Ok(NodeKind::Group),
            OwnKeys::Splitter { outputs } => Ok(NodeKind::Splitter { outputs }),
        }
    }
}

/// When a node is active, as its row says it.
#[derive(Clone, Copy)]
pub(crate) struct Activity {
    pub(crate) started: bool,
    pub(crate) from: u32,
    pub(crate) until: u32,
}

impl Activity {
    #[tactic(auto, unfolding(crate::specs::NodeRows::activity))]
    pub(crate) fn read(row: &Table, place: Place) -> Result<Activity, SceneFault>
        ensures value { result ≡ spec.activity place (table_view row.now) }
        ensures from { IfOk result (λ a. IsTrue (is_time a.from)) }
        ensures until { IfOk result (λ a. IsTrue (is_time a.until)) }
    {
        let started = flag_or(row, place, "started", true)?;
        let from = number_or(row, place, "from", FROM, 0)?;
        let until = number_or(row, place, "until", UNTIL, MAX_LENGTH)?;
        Ok(Activity {
            started,
            from: from as u32,
            until: until as u32,
        })
    }
}
