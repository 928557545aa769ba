ghost use Rattle.std.specs.Prelude.{◌≡◌};
ghost use Rattle.snd_status.specs.Texts.{kind_text};

use std::fmt;
use wave_read::{Kind, Wave};

/// The line of a WAVE file.
#[derive(Clone, Copy, Debug, PartialEq, Eq)]
pub struct WaveReport {
    /// The format of the sound, and its frames.
    pub wave: Wave,
    /// The number of its frames divided by 8192, the frames of a page, rounded up.
    pub pages: u64,
}

impl fmt::Display for WaveReport {
    ghost use Rattle.std.specs.Prelude.{Some};
    ghost use Rattle.snd_status.specs.Texts.{wave_text};

    ghost output = { λ report. Some (wave_text report) };

    fn fmt<W: fmt::Write>(&self, f: &mut fmt::Formatter<W>) -> fmt::Result {
        let WaveReport { wave, pages } = *self;
        let Wave {
            channels,
            rate,
            width,
            align,
            frames,
            ..
        } = wave;
        let kind = kind_name(wave.kind);
        write!(
            f,
            "{kind} channels {channels} rate {rate} width {width} align {align} frames {frames} pages {pages}"
        )
    }
}

fn kind_name(kind: Kind) -> &'static str
    ensures { result.now ≡ kind_text kind }
{
    match kind {
        Kind::Pcm => "pcm",
        Kind::Alaw => "alaw",
        Kind::Ulaw => "ulaw",
        Kind::Ima => "ima",
    }
}
