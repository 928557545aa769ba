//! Sound files that are refused, each with what is said of it.

use hints::file_hint;
use std::test::Fail;
use wave_read::WaveFault;

/// What a sound file begins with, its fault, and what is said of it.
const HINTS: &[(&[u8], WaveFault, &str)] = &[
    (b"", WaveFault::NotRiff, "an empty file (NotRiff)"),
    (b"ID3\x03", WaveFault::NotRiff, "an MP3 file (NotRiff)"),
    (b"\xff\xfb\x90", WaveFault::NotRiff, "an MP3 file (NotRiff)"),
    (b"fLaC\0", WaveFault::NotRiff, "a FLAC file (NotRiff)"),
    (b"OggS", WaveFault::NotRiff, "an Ogg file (NotRiff)"),
    (b"FORM", WaveFault::NotRiff, "an AIFF file (NotRiff)"),
    (b"fLa", WaveFault::NotRiff, "no RIFF file (NotRiff)"),
    (
        b"RIFF",
        WaveFault::NotWave,
        "a RIFF file, but no WAVE file (NotWave)",
    ),
    (
        b"RIFF",
        WaveFault::Unsupported { tag: 3 },
        "a WAVE file of IEEE floats (Unsupported 3)",
    ),
    (
        b"RIFF",
        WaveFault::Unsupported { tag: 2 },
        "a WAVE file of another format (Unsupported 2)",
    ),
    (
        b"RIFF",
        WaveFault::NoData,
        "a WAVE file without data (NoData)",
    ),
];

#[test]
fn refused_files_are_said(rt: HostRuntime) -> Result<(), Fail> {
    let alloc = rt.alloc();
    for (bytes, fault, what) in HINTS {
        let hint = file_hint(alloc, "a.wav", *fault, bytes)?;
        let want = format!(in alloc;
            "a.wav: this is {what}\nffmpeg -i a.wav -c:a pcm_s24le OUT.wav makes a file that is read, where it knows this one\n"
        )?;
        assert_eq!(rt; hint.as_str(), want.as_str());
    }
    Ok(())
}
