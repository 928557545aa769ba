//! Scripts that are joined of pieces, and what reading them answers.

use plain_data::OutOfMemory;
use scene_model::Reply;
use scene_script::{SceneFault, ScriptError, TableKind, Which, read_scene};
use std::alloc::{AllocError, Global};
use std::process::Abort;

/// The top of a script: mono, 16 bits, 8000 Hz, 600 frames.
pub const TOP: &str = "version = 1\nrate = 8000\nchannels = 1\nwidth = 16\nlength = 600\n";

/// The resource `r`.
pub const RESOURCE: &str = "[[resource]]\nname = 'r'\nfile = 'r.wav'\n";

/// The sound `s`, which plays `r`.
pub const SOUND: &str = "[[node]]\nkind = 'sound'\nname = 's'\nresource = 'r'\n";

/// The group `g`.
pub const GROUP: &str = "[[node]]\nkind = 'group'\nname = 'g'\n";

/// The splitter `p` of two outputs.
pub const SPLITTER: &str = "[[node]]\nkind = 'splitter'\nname = 'p'\noutputs = 2\n";

/// The top of a script and these nodes: `s`, `g` and `p` are the nodes 0, 1 and 2, and the endpoint
/// is 3.
pub const NODES: &str = "version = 1
rate = 8000
channels = 1
width = 16
length = 600
[[resource]]
name = 'r'
file = 'r.wav'
[[node]]
kind = 'sound'
name = 's'
resource = 'r'
[[node]]
kind = 'group'
name = 'g'
[[node]]
kind = 'splitter'
name = 'p'
outputs = 2
";

/// The bus of `s`, attached to the endpoint.
pub const BUS: &str = "[[bus]]\nnode = 's'\nto = 'endpoint'\n";

/// Edits of `s` at frame 5. The first lacks its target, and the third its value.
pub const ATTACH: &str = "[[edit]]\nop = 'attach'\nat = 5\nnode = 's'\n";

pub const DETACH: &str = "[[edit]]\nop = 'detach'\nat = 5\nnode = 's'\n";

pub const GAIN: &str = "[[edit]]\nop = 'gain'\nat = 5\nnode = 's'\n";

pub const START: &str = "[[edit]]\nop = 'start'\nat = 5\nnode = 's'\n";

/// Scripts, each by its pieces.
pub type Scripts = &'static [&'static [&'static str]];

/// A script by its pieces, the number in it that is out of its limits, and the limit.
pub type OutOfLimits = (&'static [&'static str], Which, i64, i64);

/// A script by its pieces, the row whose edit isn't made, and its reply.
pub type Refused = (&'static [&'static str], u32, Reply);

/// The fault of a script: none where it is a scene.
pub fn fault_of(alloc: Global, script: &[u8]) -> Result<Option<SceneFault>, OutOfMemory> {
    match read_scene(alloc, script) {
        Ok(_) => Ok(None),
        Err(ScriptError::Fault(fault)) => Ok(Some(fault)),
        Err(ScriptError::OutOfMemory) => Err(OutOfMemory),
    }
}

/// The fault of the script that is joined of these pieces.
pub fn fault_of_pieces(alloc: Global, pieces: &[&str]) -> Result<Option<SceneFault>, OutOfMemory> {
    let mut script = String::new(alloc);
    for piece in pieces {
        script.push_str(piece)?;
    }
    fault_of(alloc, script.as_bytes())
}

/// Asserts that each script has this fault, or is a scene where it is none.
pub fn check_scripts(
    rt: &impl Abort,
    alloc: Global,
    scripts: Scripts,
    want: Option<SceneFault>,
) -> Result<(), OutOfMemory> {
    for pieces in scripts {
        assert_eq!(rt; fault_of_pieces(alloc, pieces)?, want, "{pieces:?}");
    }
    Ok(())
}

/// Asserts that each script has a number out of its limits.
pub fn check_limits(
    rt: &impl Abort,
    alloc: Global,
    scripts: &[OutOfLimits],
) -> Result<(), OutOfMemory> {
    for (pieces, which, found, limit) in scripts {
        let want = SceneFault::Limit {
            which: *which,
            found: *found,
            limit: *limit,
        };
        assert_eq!(rt; fault_of_pieces(alloc, pieces)?, Some(want), "{pieces:?}");
    }
    Ok(())
}

/// Asserts that each script has a row of this table whose edit isn't made.
pub fn check_refusals(
    rt: &impl Abort,
    alloc: Global,
    table: TableKind,
    scripts: &[Refused],
) -> Result<(), OutOfMemory> {
    for (pieces, row, reply) in scripts {
        let want = SceneFault::EditRefused {
            table,
            row: *row,
            reply: *reply,
        };
        assert_eq!(rt; fault_of_pieces(alloc, pieces)?, Some(want), "{pieces:?}");
    }
    Ok(())
}

/// A piece `count` times.
pub fn repeated(alloc: Global, piece: &str, count: u32) -> Result<String, AllocError> {
    let mut all = String::new(alloc);
    for _ in 0..count {
        all.push_str(piece)?;
    }
    Ok(all)
}

/// The numbers below `count`, each between `before` and `after`.
pub fn numbered(
    alloc: Global,
    before: &str,
    after: &str,
    count: u32,
) -> Result<String, AllocError> {
    let mut all = String::new(alloc);
    for i in 0..count {
        let row = format!(in alloc; "{before}{i}{after}")?;
        all.push_str(row.as_str())?;
    }
    Ok(all)
}
