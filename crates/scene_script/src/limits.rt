/// The most channels of a scene.
pub(crate) const MAX_CHANNELS: u32 = 2;

/// The most rows of `resource`.
pub(crate) const MAX_RESOURCES: u32 = scene_model::MAX_RESOURCES as u32;

/// The most rows of `node`.
pub(crate) const MAX_NODES: u32 = scene_model::MAX_NODES as u32;

/// The most output buses of all nodes.
pub(crate) const MAX_BUSES: u32 = scene_model::MAX_BUSES as u32;

/// The most rows of `bus`.
pub(crate) const MAX_BUS_ROWS: u32 = scene_model::MAX_BUS_ROWS as u32;

/// The most rows of `edit`.
pub(crate) const MAX_EDITS: u32 = scene_model::MAX_EDITS as u32;

/// The last editor.
pub(crate) const LAST_EDITOR: u32 = scene_model::LAST_EDITOR as u32;

/// The greatest gain that a row can name, which is the greatest number of 32 bits.
pub(crate) const MAX_NAMED_GAIN: u64 = u32::MAX as u64;
