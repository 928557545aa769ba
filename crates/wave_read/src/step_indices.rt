//! The step indices in the headers of IMA blocks.

ghost use Rattle.std.specs.Prelude.{◌≡◌, ℕ, ◌+◌, ◌*◌, ◌<◌, ◌≤◌, length};
ghost use Rattle.wave_read.specs.StepIndices.{block_count, block_fault, step_fault};

use crate::format::IMA_WORD;
use crate::frames::frames_per_block;
use crate::kind::Kind;
use crate::wave::Wave;
use crate::wave_fault::WaveFault;

/// The last row of the step table.
const MAX_STEP_INDEX: u8 = 88;

/// The fault of the first channel of a block whose step index is too large. Each channel has four
/// bytes of the header, of which the third is its step index.
fn block_fault(bytes: &[u8], wave: &Wave, block: u64) -> Option<WaveFault>
    requires { wave.now.data_from + block * wave.now.align + 4 * wave.now.channels ≤ length bytes.now }
    ensures { result ≡ block_fault bytes.now wave.now block }
{
    let header = (wave.data_from + block * u64::from(wave.align)) as usize;
    for channel in 0..wave.channels {
        let found = bytes[header + usize::from(IMA_WORD) * usize::from(channel) + 2];
        if found > MAX_STEP_INDEX {
            return Some(WaveFault::StepIndex {
                block,
                channel,
                found,
            });
        }
    }
    None
}

/// The fault of the first block that holds a frame and has a step index that is too large.
pub fn first_step_fault(bytes: &[u8], wave: &Wave) -> Option<WaveFault>
    requires some { 1 ≤ wave.now.channels }
    requires header { 4 * wave.now.channels ≤ wave.now.align }
    requires headers { (block : ℕ) → block < block_count wave.now →
        wave.now.data_from + block * wave.now.align + 4 * wave.now.channels ≤ length bytes.now }
    ensures { result ≡ step_fault bytes.now wave.now }
{
    let blocks = wave
        .frames
        .div_ceil(frames_per_block(wave.align, wave.channels));
    for block in 0..blocks {
        let fault = block_fault(bytes, wave, block);
        if fault.is_some() {
            return fault;
        }
    }
    None
}
