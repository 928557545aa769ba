ghost use Rattle.std.specs.Prelude.{◌≡◌, pos, ◌-ℤ◌, ◌*ℤ◌, length, All};
ghost use Rattle.gen_scene.specs.Draws.{state, stepped, drawn};
ghost use Rattle.gen_scene.specs.Sounds as spec;
ghost use Rattle.mix_fixed.specs.Sound.{Is24};

use crate::draws::Draws;

/// Fills `out` with samples of noise in 24 bits, interleaved where the sound is stereo: one draw
/// each, in order, less 32768, and eight more low bits, which are 0.
pub fn noise(draws: &mut Draws, out: &mut [i32])
    ensures value { out.new ≡ spec.noise draws.old 0 (length out.old) }
    ensures draws { draws.new ≡ state draws.old (length out.old) }
    ensures range { All Is24 out.new }
{
    for i in 0..out.len() {
        out[i] = noise_sample(draws);
    }
}

/// A sample of 16 bits, which is a draw less 32768, in 24 bits.
fn noise_sample(draws: &mut Draws) -> i32
    ensures value { result ≡ (pos (drawn (stepped draws.old)) -ℤ pos 32768) *ℤ pos 256 }
    ensures draws { draws.new ≡ stepped draws.old }
    ensures range { Is24 result }
{
    (i32::from(draws.draw()) - 32_768) * 256
}
