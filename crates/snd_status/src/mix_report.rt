use std::fmt;

/// The line of a scene that was rendered.
#[derive(Clone, Copy, Debug, PartialEq, Eq)]
pub struct MixReport {
    /// The frames of the scene.
    pub frames: u32,
    /// The rate of the scene in Hz.
    pub rate: u32,
    /// The channels of the scene.
    pub channels: u8,
    /// The bits of a sample of the output.
    pub width: u8,
    /// The bytes of the output file.
    pub bytes: u64,
    /// The greatest magnitude of the samples in 24 bits, before they are packed.
    pub peak: u32,
    /// The sum of the bytes of the packed samples, without the header and the pad byte, modulo
    /// 4294967296.
    pub sum: u32,
}

impl fmt::Display for MixReport {
    ghost use Rattle.std.specs.Prelude.{Some};
    ghost use Rattle.snd_status.specs.Texts.{mix_text};

    ghost output = { λ report. Some (mix_text report) };

    fn fmt<W: fmt::Write>(&self, f: &mut fmt::Formatter<W>) -> fmt::Result {
        let MixReport {
            frames,
            rate,
            channels,
            width,
            bytes,
            peak,
            sum,
        } = *self;
        write!(
            f,
            "frames {frames} rate {rate} channels {channels} width {width} bytes {bytes} peak {peak} sum {sum}"
        )
    }
}
