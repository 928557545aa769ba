//! The number that tells whether two programs wrote the same samples.

/// The checksum with one more sample.
pub fn mixed(sum: u32, sample: i32) -> u32 {
    sum.wrapping_mul(31).wrapping_add(sample.cast_unsigned())
}
