//! Numbers that look random.

/// The bits of a place of a sequence (SplitMix64, with the seed mixed in before).
pub fn bits(seed: u64, place: u32) -> u64 {
    let first = seed.wrapping_add(
        u64::from(place)
            .wrapping_add(1)
            .wrapping_mul(0x9e37_79b9_7f4a_7c15),
    );
    let second = (first ^ (first >> 30)).wrapping_mul(0xbf58_476d_1ce4_e5b9);
    let third = (second ^ (second >> 27)).wrapping_mul(0x94d0_49bb_1331_11eb);
    third ^ (third >> 31)
}
