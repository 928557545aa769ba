//! Decoding whole blocks of IMA ADPCM.

ghost use Rattle.std.specs.Prelude.{◌≡◌, ◌+◌, ◌*◌, ◌≤◌, IfOk, length, vec_len};

use crate::checksum::mixed;
use crate::generator::Generator;
use ima_adpcm::{block_frames, block_into};
use std::alloc::{AllocError, Global};

/// The blocks of a round.
pub const BLOCKS: usize = 16;

/// The bytes of a block for each channel.
const CHANNEL_BYTES: usize = 4096;

/// The samples that the blocks' frames take at most.
const SAMPLES: usize = 2 * 8185;

/// The channels of a block, 1 or 2.
#[derive(Clone, Copy)]
pub struct Channels {
    pub count: u8,
    ghost some: { 1 ≤ count },
    ghost few: { count ≤ 2 },
}

impl Channels {
    /// The channels that a word gives; `None` for a word that is no such number.
    pub fn read(word: &str) -> Option<Channels> {
        let count = word.parse::<u8>().ok()?;
        if (1..=2).contains(&count) {
            Some(Channels { count })
        } else {
            None
        }
    }

    /// The bytes of a block.
    fn block_bytes(self) -> usize
        ensures { result ≡ 4096 * self.count }
    {
        CHANNEL_BYTES * usize::from(self.count)
    }
}

/// Decodes the blocks in each round, and answers a number made of a sample of each block and of all
/// samples of the last one.
pub fn checksum(alloc: Global, channels: Channels, rounds: u32) -> Result<u32, AllocError> {
    let blocks = make_blocks(alloc, channels)?;
    let mut out = vec![in alloc; 0i16; SAMPLES]?;
    let mut sum = 0;
    for _ in 0..rounds {
        sum = decode_round(&blocks, channels, &mut out, sum);
    }
    Ok(out.iter().fold(sum, |sum, sample| with_bits(sum, *sample)))
}

/// The blocks, one after the other.
fn make_blocks(alloc: Global, channels: Channels) -> Result<Vec<u8>, AllocError>
    ensures { IfOk result (λ blocks. vec_len blocks ≡ 16 * (4096 * channels.count)) }
{
    let mut blocks = vec![in alloc; 0u8; BLOCKS * channels.block_bytes()]?;
    fill_blocks(&mut blocks, channels);
    Ok(blocks)
}

/// Fills the blocks, one after the other.
fn fill_blocks(blocks: &mut [u8], channels: Channels)
    requires { length blocks.old ≡ 16 * (4096 * channels.count) }
{
    let bytes = channels.block_bytes();
    let mut generator = Generator::new(1);
    for i in 0..BLOCKS {
        fill_block(
            &mut blocks[i * bytes..(i + 1) * bytes],
            channels,
            &mut generator,
        );
    }
}

/// Fills a block, with a step index of the table in each header.
fn fill_block(block: &mut [u8], channels: Channels, generator: &mut Generator)
    requires { 4 * channels.count ≤ length block.old }
{
    for byte in block.iter_mut() {
        *byte = generator.next_byte();
    }
    for channel in 0..usize::from(channels.count) {
        block[4 * channel + 2] %= 89;
    }
}

/// Decodes each block once.
fn decode_round(blocks: &[u8], channels: Channels, out: &mut [i16], sum: u32) -> u32
    requires { length blocks.now ≡ 16 * (4096 * channels.count) }
{
    let bytes = channels.block_bytes();
    let mut sum = sum;
    for i in 0..BLOCKS {
        sum = decode_block(&blocks[i * bytes..(i + 1) * bytes], channels, out, sum);
    }
    sum
}

/// Decodes one block, where it has room, and mixes its last sample in.
fn decode_block(block: &[u8], channels: Channels, out: &mut [i16], sum: u32) -> u32
    requires { length block.now ≤ 8192 }
{
    let samples = block_frames(block.len(), channels.count) * usize::from(channels.count);
    if samples > out.len() {
        return sum;
    }
    match block_into(block, channels.count, out) {
        Ok(_) => out[..samples]
            .last()
            .map_or(sum, |sample| with_bits(sum, *sample)),
        Err(_) => sum,
    }
}

/// The checksum with one more sample, taken as its 16 bits without a sign, as `bench/ima.c` does.
fn with_bits(sum: u32, sample: i16) -> u32 {
    mixed(sum, i32::from(sample.cast_unsigned()))
}
