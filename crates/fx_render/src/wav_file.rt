//! The format of the WAVE file that effects are written to.

ghost use Rattle.std.specs.Prelude.{◌≡◌};
ghost use Rattle.fx_render.specs.Effected.{file_bytes};

/// The most frames that effects are heard on.
pub const MAX_FRAMES: u32 = 16_777_216;

/// The channels of the file.
pub const STEREO: u8 = 2;

/// The bits of its samples.
pub const WIDTH: u8 = 24;

/// The number of bytes of the file of so many frames: 44 of the header, and 6 of each frame.
pub fn file_bytes(count: u32) -> u64
    ensures { result ≡ file_bytes count }
{
    44 + 6 * u64::from(count)
}
