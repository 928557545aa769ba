//! What a clip's sound is coded as.

/// A kind of sound.
#[derive(Clone, Copy)]
pub enum Kind {
    /// Linear PCM of 16 bits, stereo.
    Pcm16,
    /// Linear PCM of 24 bits, stereo.
    Pcm24,
    /// A-law (ITU-T G.711), stereo.
    Alaw,
    /// IMA ADPCM, mono, in blocks of 256 bytes.
    Ima,
}

impl Kind {
    /// The kind that a word names; `None` for any other word.
    pub fn read(word: &str) -> Option<Kind> {
        match word {
            "pcm16" => Some(Kind::Pcm16),
            "pcm24" => Some(Kind::Pcm24),
            "alaw" => Some(Kind::Alaw),
            "ima" => Some(Kind::Ima),
            _ => None,
        }
    }
}
