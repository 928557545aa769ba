//! Samples of linear PCM.

ghost use Rattle.std.specs.Prelude.{◌≡◌, ◌≤◌, ◌*◌, length};
ghost use Rattle.clip_decode.specs.Cells.{ContainersDecoded};
ghost use Rattle.clip_decode.specs.Pcm.{pcm_value};
ghost use Rattle.mix_fixed.specs.Sound.{Is24};

use byteorder::{ByteOrder, LittleEndian};

/// The sample in a container of one byte, as a number of 24 bits.
#[tactic(auto, unfolding(crate::specs::Pcm::pcm_value))]
fn sample_8(container: &[u8]) -> i32
    requires { length container.now ≡ 1 }
    ensures exact { result ≡ pcm_value container.now }
    ensures range { Is24 result }
{
    (i32::from(container[0]) - 128) * 65_536
}

/// The same of two bytes.
#[tactic(auto, unfolding(crate::specs::Pcm::pcm_value))]
fn sample_16(container: &[u8]) -> i32
    requires { length container.now ≡ 2 }
    ensures exact { result ≡ pcm_value container.now }
    ensures range { Is24 result }
{
    i32::from(LittleEndian::read_i16(container)) * 256
}

/// The same of three bytes.
#[tactic(auto, unfolding(crate::specs::Pcm::pcm_value))]
fn sample_24(container: &[u8]) -> i32
    requires { length container.now ≡ 3 }
    ensures exact { result ≡ pcm_value container.now }
    ensures range { Is24 result }
{
    LittleEndian::read_i24(container)
}

/// The same of four bytes.
#[tactic(auto, unfolding(crate::specs::Pcm::pcm_value))]
fn sample_32(container: &[u8]) -> i32
    requires { length container.now ≡ 4 }
    ensures exact { result ≡ pcm_value container.now }
    ensures range { Is24 result }
{
    LittleEndian::read_i32(container) >> 8
}

// One loop for each size, so that the size is a constant in it.

fn samples_8_into(containers: &[u8], count: usize, out: &mut [i32])
    requires there { 1 * count ≤ length containers.now }
    requires room { count ≤ length out.old }
    ensures { ContainersDecoded pcm_value 1 containers.now count out.new }
{
    for i in 0..count {
        out[i] = sample_8(&containers[i..i + 1]);
    }
}

fn samples_16_into(containers: &[u8], count: usize, out: &mut [i32])
    requires there { 2 * count ≤ length containers.now }
    requires room { count ≤ length out.old }
    ensures { ContainersDecoded pcm_value 2 containers.now count out.new }
{
    for i in 0..count {
        out[i] = sample_16(&containers[2 * i..2 * i + 2]);
    }
}

fn samples_24_into(containers: &[u8], count: usize, out: &mut [i32])
    requires there { 3 * count ≤ length containers.now }
    requires room { count ≤ length out.old }
    ensures { ContainersDecoded pcm_value 3 containers.now count out.new }
{
    for i in 0..count {
        out[i] = sample_24(&containers[3 * i..3 * i + 3]);
    }
}

fn samples_32_into(containers: &[u8], count: usize, out: &mut [i32])
    requires there { 4 * count ≤ length containers.now }
    requires room { count ≤ length out.old }
    ensures { ContainersDecoded pcm_value 4 containers.now count out.new }
{
    for i in 0..count {
        out[i] = sample_32(&containers[4 * i..4 * i + 4]);
    }
}

/// Writes the samples of the first `count` containers of `size` bytes in `containers` to the front of
/// `out`.
pub fn samples_into(size: u8, containers: &[u8], count: usize, out: &mut [i32])
    requires least { 1 ≤ size }
    requires most { size ≤ 4 }
    requires there { size * count ≤ length containers.now }
    requires room { count ≤ length out.old }
    ensures { ContainersDecoded pcm_value size containers.now count out.new }
{
    match size {
        1 => samples_8_into(containers, count, out),
        2 => samples_16_into(containers, count, out),
        3 => samples_24_into(containers, count, out),
        _ => samples_32_into(containers, count, out),
    }
}
