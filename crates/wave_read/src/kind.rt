/// How the samples of a WAVE file are coded.
#[derive(Clone, Copy, Debug, PartialEq, Eq)]
pub enum Kind {
    /// Linear PCM (format tag 1). A container of one byte is unsigned, a longer one signed (fewer
    /// bits than 8 stand in one byte too).
    Pcm,
    /// ITU-T G.711 A-law (tag 6), a byte a sample.
    Alaw,
    /// ITU-T G.711 mu-law (tag 7), a byte a sample.
    Ulaw,
    /// IMA ADPCM (tag 17), in blocks of four bits a sample.
    Ima,
}
