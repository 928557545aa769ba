//! The limits of a scene.

/// The highest sample rate of a scene, in Hz.
pub const MAX_RATE: u32 = 768_000;

/// The longest scene, in frames. It is also the last frame that a time of a scene can name.
pub const MAX_LENGTH: u32 = 16_777_216;

/// The most resources of a scene.
pub const MAX_RESOURCES: usize = 64;

/// The most nodes of a scene, without the endpoint.
pub const MAX_NODES: usize = 128;

/// The most output buses of all nodes together.
pub const MAX_BUSES: usize = 256;

/// The fewest outputs of a splitter.
pub const MIN_SPLITTER_OUTPUTS: u8 = 2;

/// The most outputs of a splitter.
pub const MAX_SPLITTER_OUTPUTS: u8 = 4;

/// The most rows that wire output buses at the start.
pub const MAX_BUS_ROWS: usize = 256;

/// The most edits of a scene.
pub const MAX_EDITS: usize = 4096;

/// The number of the last editor: they are numbered from 0.
pub const LAST_EDITOR: u8 = 3;

/// The most bytes of the name of a resource or a node.
pub const MAX_NAME_BYTES: usize = 64;

/// The most bytes of the name of a sound file.
pub const MAX_FILE_NAME_BYTES: usize = 255;

/// The last frame that a seek can name, at the scene's rate.
pub const MAX_PLACE: u64 = 140_737_488_355_327;

/// The most seeks of a node. With a place their number fits a word of 64 bits.
pub const MAX_SEEKS: u32 = 131_071;
