ghost use Rattle.std.specs.Prelude.{◌≡◌, ◌<◌, ◌≤◌};
ghost use Rattle.gen_scene.specs.Sounds as spec;

/// How many sounds there are.
pub const SOUNDS: u32 = 8;

/// The frames of each sound.
pub const SOUND_FRAMES: u32 = 220_500;

/// The channels of sound `i`: 1 where `i` is even, and 2 where it is odd.
pub fn sound_channels(i: u32) -> u8
    ensures { result ≡ spec.sound_channels i }
{
    1 + (i % 2) as u8
}

/// The rate of sound `i` in Hz: 44100 for the first four, and 48000 for the others.
pub fn sound_rate(i: u32) -> u32
    ensures { result ≡ spec.sound_rate i }
{
    if i < 4 { 44_100 } else { 48_000 }
}
