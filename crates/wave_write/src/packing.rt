ghost use Rattle.std.specs.Prelude.{◌≡◌, ◌≤◌, ◌⊎◌, ◌*◌, ◌++◌, length, All, OnOk, OnErr};
ghost use Rattle.mix_fixed.specs.Sound.{Is24};
ghost use Rattle.wave_write.specs.Samples.{packed_sample, packed};

use plain_data::OutOfMemory;
use std::alloc::Global;

/// Appends samples of 24 bits to `out`, packed at a width of 16 or 24 bits: 2 bytes each with the
/// sample divided by 256, rounded down, or 3 bytes each, little-endian (Microsoft's RIFF WAVE
/// description). Interleaved frames give interleaved frames.
///
/// # Errors
///
/// [`OutOfMemory`] where there is no memory; `out` is unchanged then.
pub fn pack(_alloc: Global, x: &[i32], width: u8, out: &mut Vec<u8>) -> Result<(), OutOfMemory>
    requires samples { All Is24 x.now }
    requires width { (width ≡ 16) ⊎ (width ≡ 24) }
    ensures ok { OnOk result (out.new.items ≡ out.old.items ++ packed width x.now) }
    ensures err { OnErr result (out.new.items ≡ out.old.items) }
{
    let start = out.len();
    if width == 16 {
        out.resize(start + 2 * x.len(), 0)?;
        write_16(x, &mut out[start..]);
    } else {
        out.resize(start + 3 * x.len(), 0)?;
        write_24(x, &mut out[start..]);
    }
    Ok(())
}

fn write_16(x: &[i32], out: &mut [u8])
    requires samples { All Is24 x.now }
    requires room { length out.old ≡ 2 * length x.now }
    ensures { out.new ≡ packed 16 x.now }
{
    for i in 0..x.len() {
        let [low, high] = bytes_16(x[i]);
        out[2 * i] = low;
        out[2 * i + 1] = high;
    }
}

fn write_24(x: &[i32], out: &mut [u8])
    requires samples { All Is24 x.now }
    requires room { length out.old ≡ 3 * length x.now }
    ensures { out.new ≡ packed 24 x.now }
{
    for i in 0..x.len() {
        let [low, middle, high] = bytes_24(x[i]);
        out[3 * i] = low;
        out[3 * i + 1] = middle;
        out[3 * i + 2] = high;
    }
}

fn bytes_16(x: i32) -> [u8; 2]
    requires { Is24 x }
    ensures { result ≡ packed_sample 16 x }
{
    ((x >> 8) as i16).to_le_bytes()
}

fn bytes_24(x: i32) -> [u8; 3]
    requires { Is24 x }
    ensures { result ≡ packed_sample 24 x }
{
    let [low, middle, high, _] = x.to_le_bytes();
    [low, middle, high]
}
