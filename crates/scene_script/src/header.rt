ghost use Rattle.std.specs.Prelude.{◌≡◌, IfOk, IsTrue};
ghost use Rattle.toml.specs.View.{table_view};
ghost use Rattle.scene_model.specs.IsScene.{is_width};
ghost use Rattle.scene_script.specs.Headers as spec;

use crate::bounds::Bounds;
use crate::fault::{SceneFault, TableKind, Which};
use crate::fields::{integer, known_keys, number};
use crate::limits::MAX_CHANNELS;
use crate::place::Place;
use scene_model::{MAX_LENGTH, MAX_RATE};
use std::marker::Model;
use toml::Table;

/// The top level.
const TOP: Place = Place {
    table: TableKind::Scene,
    row: 0,
};

/// Its keys.
pub(crate) const TOP_KEYS: [&str; 9] = [
    "version", "rate", "channels", "width", "length", "resource", "node", "bus", "edit",
];

const RATE: Bounds = Bounds {
    which: Which::Rate,
    least: 1,
    most: MAX_RATE as u64,
};

const CHANNELS: Bounds = Bounds {
    which: Which::Channels,
    least: 1,
    most: MAX_CHANNELS as u64,
};

const LENGTH: Bounds = Bounds {
    which: Which::Length,
    least: 0,
    most: MAX_LENGTH as u64,
};

/// The numbers at the top of a script: the rate in Hz, the channels, the bits of a sample, the
/// length in frames.
#[derive(Drop)]
pub(crate) struct Header {
    pub(crate) rate: u32,
    pub(crate) channels: u8,
    pub(crate) width: u8,
    pub(crate) length: u32,
}

impl Model for Header {
    ghost use Rattle.scene_script.specs.Headers.{Header};
    ghost use Rattle.scene_script.specs.KeysRead.{IsHeader};

    ghost Value = { Header };

    ghost view = { λ h. record { rate = h.rate; channels = h.channels; width = h.width; length = h.length } };

    ghost invariant = { λ h. IsHeader (record { rate = h.rate; channels = h.channels; width = h.width; length = h.length }) };
}

impl Header {
    /// Reads the top level: its version, then that it has no key that isn't known, then its numbers.
    #[tactic(auto, unfolding(crate::specs::Headers::header))]
    pub(crate) fn read(script: &Table) -> Result<Header, SceneFault>
        ensures { result ≡ spec.header (table_view script.now) }
    {
        check_version(script)?;
        check_keys(script)?;
        Header::numbers(script)
    }

    #[tactic(auto, unfolding(crate::specs::Headers::numbers))]
    fn numbers(script: &Table) -> Result<Header, SceneFault>
        ensures { result ≡ spec.numbers (table_view script.now) }
    {
        let rate = number(script, TOP, "rate", RATE)?;
        let channels = number(script, TOP, "channels", CHANNELS)?;
        let width = width(script)?;
        let length = number(script, TOP, "length", LENGTH)?;
        Ok(Header {
            rate: rate as u32,
            channels: channels as u8,
            width,
            length: length as u32,
        })
    }
}

#[tactic(auto, unfolding(crate::specs::Headers::known_top))]
fn check_keys(script: &Table) -> Result<(), SceneFault>
    ensures { result ≡ spec.known_top (table_view script.now) }
{
    known_keys(script, TOP, &TOP_KEYS)
}

#[tactic(auto, unfolding(crate::specs::Headers::version))]
fn check_version(script: &Table) -> Result<(), SceneFault>
    ensures { result ≡ spec.version (table_view script.now) }
{
    match integer(script, TOP, "version")? {
        1 => Ok(()),
        n => Err(SceneFault::Version { n }),
    }
}

#[tactic(auto, unfolding(crate::specs::Headers::width_at))]
fn width(script: &Table) -> Result<u8, SceneFault>
    ensures value { result ≡ spec.width_at (table_view script.now) }
    ensures is_width { IfOk result (λ n. IsTrue (is_width n)) }
{
    match integer(script, TOP, "width")? {
        16 => Ok(16),
        24 => Ok(24),
        found => Err(SceneFault::Limit {
            which: Which::Width,
            found,
            limit: 24,
        }),
    }
}
