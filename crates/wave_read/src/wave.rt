use crate::kind::Kind;

/// What a WAVE file says of its sound, and where its samples stand.
#[derive(Clone, Copy, Debug, PartialEq, Eq)]
pub struct Wave {
    /// How the samples are coded.
    pub kind: Kind,
    /// 1 to 8 channels, interleaved.
    pub channels: u8,
    /// Frames a second, 1 to 768000.
    pub rate: u32,
    /// Bits: 8, 16, 24 or 32 of a sample's container for PCM, 8 for G.711, 4 for IMA.
    pub width: u8,
    /// Bytes of a frame for PCM and G.711, bytes of a block for IMA. It is above 0.
    pub align: u32,
    /// The place of the first byte of sound in the file.
    pub data_from: u64,
    /// Bytes of sound, all of which are in the file.
    pub data_len: u64,
    /// Frames of one sample a channel.
    pub frames: u64,
}
