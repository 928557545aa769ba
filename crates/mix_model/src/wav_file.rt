//! What stands before and behind the frames in a scene's WAVE file.

ghost use Rattle.std.specs.Prelude.{◌≡◌, ℕ, List, [], ◌∷◌, if◌then◌else◌, length};
ghost use Rattle.scene_model.specs.IsScene.{IsScene};
ghost use Rattle.snd_io.specs.Answers.{put_failed, Writes};
ghost use Rattle.snd_io.specs.Faults.{CountsFaults};
ghost use Rattle.wave_write.specs.Header.{header as header_of, data_bytes};
ghost use Rattle.mix_model.specs.Mix.{mix};
ghost use Rattle.mix_model.specs.Output.{padding, wav};

use scene_model::Scene;
use snd_io::{Put, Sink};
use std::alloc::Global;
use wave_write::header;

/// The 44 bytes of the header of a scene's WAVE file (RIFF WAVE).
pub fn scene_header(scene: &Scene) -> [u8; 44]
    ensures { result ≡ header_of scene.now.channels scene.now.rate scene.now.width scene.now.length }
{
    header(scene.channels, scene.rate, scene.width, scene.length)
}

/// Writes what follows the frames of a scene: a zero byte where the data have an odd size (RIFF WAVE), and
/// nothing, with no call of the sink, where they have an even one.
pub fn write_padding<S: Sink>(alloc: Global, scene: &Scene, sink: &mut S) -> Put
    ensures after { Writes result (padding (data_bytes scene.now.channels scene.now.width scene.now.length)) (S.written sink.old) (S.written sink.new) }
    ensures cause { CountsFaults (S.faults sink.old) (S.faults sink.new) (put_failed result) }
{
    if is_padded(scene) {
        sink.write(alloc, &[0])
    } else {
        Put::Done
    }
}

/// Whether a zero byte follows the frames of a scene: where their data have an odd size (RIFF WAVE).
pub fn is_padded(scene: &Scene) -> bool
    ensures { padding (data_bytes scene.now.channels scene.now.width scene.now.length) ≡ if result then 0 ∷ [] else [] }
{
    data_size(scene) % 2 == 1
}

/// The number of bytes of a scene's WAVE file: 44 of the header, the packed samples, and the pad byte if
/// there is one.
pub fn file_bytes(scene: &Scene) -> u64
    ensures { (files : List (List ℕ)) → result ≡ length (wav scene.now (mix scene.now files)) }
{
    44 + u64::from(data_size(scene)) + u64::from(is_padded(scene))
}

/// The number of bytes of the packed samples of a scene.
fn data_size(scene: &Scene) -> u32
    ensures value { result ≡ data_bytes scene.now.channels scene.now.width scene.now.length }
    ensures scene { IsScene scene.now }
{
    scene.length * (u32::from(scene.channels) * u32::from(scene.width / 8))
}
