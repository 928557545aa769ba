//! Laws of a file's frames at a scene's rate and in its channels. The functions do nothing.

ghost use Rattle.std.specs.Prelude.{◌≡◌, ℕ, List, [], Err};
ghost use Rattle.scene_clips.specs.ClipFrames.{clip_frames, clip_length, clip_sample};
ghost use Rattle.clip_decode.specs.Frames.{HasSamples};
ghost use Rattle.wave_read.specs.Wave.{wave};
ghost use Rattle.wave_read.specs.declared.wave_fault.WaveFault.{WaveFault};

/// The list of a file's frames at a rate has as many frames as its length says, of one sample a
/// channel, each by the numbers of its frame and its channel.
pub fn clip_has_samples()
    ensures { (bytes : List ℕ) (rate channels : ℕ) →
        HasSamples (clip_length bytes rate) channels (clip_sample bytes rate channels)
        (clip_frames bytes rate channels) }
{}

/// A file that is refused has no frames.
pub fn no_frames_where_refused()
    ensures frames { (bytes : List ℕ) (rate channels : ℕ) (fault : WaveFault) →
        wave bytes ≡ Err fault → clip_frames bytes rate channels ≡ [] }
    ensures length { (bytes : List ℕ) (rate : ℕ) (fault : WaveFault) →
        wave bytes ≡ Err fault → clip_length bytes rate ≡ 0 }
{}
