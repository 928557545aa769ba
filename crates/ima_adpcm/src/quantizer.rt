//! The quantizer's tables, and what one code does to a sample and to the place in the tables.

ghost use Rattle.std.specs.Prelude.{◌≡◌, ◌<◌, ◌≤◌, ◌^◌};
ghost use Rattle.ima_adpcm.specs.Quantizer.{step_size, difference, index_change};
ghost use Rattle.ima_adpcm.specs.Quantizer.{nearest_index, next_index, last_index};

/// The step sizes, by index.
const STEPS: [u16; 89] = [
    7, 8, 9, 10, 11, 12, 13, 14, 16, 17, 19, 21, 23, 25, 28, 31, 34, 37, 41, 45, 50, 55, 60, 66,
    73, 80, 88, 97, 107, 118, 130, 143, 157, 173, 190, 209, 230, 253, 279, 307, 337, 371, 408, 449,
    494, 544, 598, 658, 724, 796, 876, 963, 1060, 1166, 1282, 1411, 1552, 1707, 1878, 2066, 2272,
    2499, 2749, 3024, 3327, 3660, 4026, 4428, 4871, 5358, 5894, 6484, 7132, 7845, 8630, 9493,
    10442, 11487, 12635, 13899, 15289, 16818, 18500, 20350, 22385, 24623, 27086, 29794, 32767,
];

/// How far the low three bits of a code move the index.
const INDEX_CHANGES: [i8; 8] = [-1, -1, -1, -1, 2, 4, 6, 8];

/// The last index of the step table.
pub(crate) const LAST_INDEX: u8 = 88;

/// The step size at an index.
pub(crate) fn step_size(index: u8) -> u16
    requires { index ≤ last_index }
    ensures { result ≡ step_size index }
{
    STEPS[index as usize]
}

/// How far a code moves the predictor, by its low three bits.
pub(crate) fn difference(step: u16, code: u8) -> u32
    requires { code < 16 }
    ensures value { result ≡ difference step code }
    ensures bound { result < 2 ^ 17 }
{
    let step = u32::from(step);
    let code = u32::from(code);
    step / 8 + code / 4 % 2 * step + code / 2 % 2 * (step / 2) + code % 2 * (step / 4)
}

/// The index after a code, within the table.
pub(crate) fn next_index(index: u8, code: u8) -> u8
    requires { index ≤ last_index }
    ensures { result ≡ next_index index code }
{
    nearest_index(i16::from(index) + i16::from(index_change(code)))
}

/// How far a code moves the index, by its low three bits.
fn index_change(code: u8) -> i8
    ensures { result ≡ index_change code }
{
    INDEX_CHANGES[code as usize % 8]
}

/// The index of the table that is nearest to `index`.
fn nearest_index(index: i16) -> u8
    ensures { result ≡ nearest_index index }
{
    index.clamp(0, i16::from(LAST_INDEX)) as u8
}
