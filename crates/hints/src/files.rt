ghost use Rattle.std.specs.Prelude.{◌≡◌, IfOk, string_bytes};
ghost use Rattle.hints.specs.FileHints as spec;

use plain_data::OutOfMemory;
use std::alloc::Global;
use wave_read::WaveFault;

/// What is said of a sound file that is refused: its name, what it is by its fault and its first bytes, and a command that makes
/// a file that is read.
///
/// # Errors
///
/// Want of memory.
#[tactic(auto, unfolding(crate::specs::FileHints::file_text))]
pub fn file_hint(
    alloc: Global,
    name: &str,
    fault: WaveFault,
    bytes: &[u8],
) -> Result<String, OutOfMemory>
    ensures { IfOk result (λ said. string_bytes said ≡ spec.file_text name.now fault bytes.now) }
{
    let what = file_what(fault, bytes);
    Ok(format!(in alloc;
        "{name}: this is {what} ({fault})\nffmpeg -i {name} -c:a pcm_s24le OUT.wav makes a file that is read, where it knows this one\n"
    )?)
}

/// What a file is that is refused.
#[tactic(auto, unfolding(crate::specs::FileHints::file_what))]
fn file_what(fault: WaveFault, bytes: &[u8]) -> &'static str
    ensures { result.now ≡ spec.file_what fault bytes.now }
{
    match fault {
        WaveFault::NotRiff => content_text(bytes),
        WaveFault::NotWave => "a RIFF file, but no WAVE file",
        WaveFault::Ds64Missing => "an RF64 file without its sizes",
        WaveFault::ChunkPastEnd { .. } => "a WAVE file that was cut short",
        WaveFault::NoFmt => "a WAVE file without a format",
        WaveFault::FmtShort { .. } => "a WAVE file with half a format",
        WaveFault::Unsupported { tag } => {
            if tag == 3 {
                "a WAVE file of IEEE floats"
            } else {
                "a WAVE file of another format"
            }
        }
        WaveFault::Channels { .. } => "a WAVE file of no channel or more than 8",
        WaveFault::Rate { .. } => "a WAVE file of no rate or more than 768000 Hz",
        WaveFault::Width { .. } => "a WAVE file with samples of another width",
        WaveFault::ImaAlign { .. } => "a WAVE file of IMA ADPCM with blocks of another size",
        WaveFault::StepIndex { .. } => "a WAVE file of IMA ADPCM with a spoilt block",
        WaveFault::NoData => "a WAVE file without data",
    }
}

/// What the first bytes of a file say of it, if it isn't a RIFF file.
#[tactic(auto, unfolding(crate::specs::FileHints::content_text))]
fn content_text(bytes: &[u8]) -> &'static str
    ensures { result.now ≡ spec.content_text bytes.now }
{
    if bytes.is_empty() {
        "an empty file"
    } else if bytes.starts_with(b"fLaC") {
        "a FLAC file"
    } else if bytes.starts_with(b"OggS") {
        "an Ogg file"
    } else if bytes.starts_with(b"FORM") {
        "an AIFF file"
    } else if bytes.starts_with(b"ID3") {
        "an MP3 file"
    } else if bytes.starts_with(&[255, 251]) {
        "an MP3 file"
    } else {
        "no RIFF file"
    }
}
