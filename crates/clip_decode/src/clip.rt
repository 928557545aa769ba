ghost use Rattle.std.specs.Prelude.{◌≡◌, ◌↔◌, IfOk};
ghost use Rattle.wave_read.specs.Wave.{wave};
ghost use Rattle.wave_read.specs.Laws.{IsWaveOf};
ghost use Rattle.wave_read.specs.declared.wave_fault.WaveFault.{WaveFault};

use crate::clip_error::ClipError;
use std::alloc::{AllocError, Global};
use std::marker::Model;
use std::sync::Arc;
use wave_read::{Wave, survey};

/// The most bytes of a sound file of a scene, 64 MiB. A clip may have more.
pub const MAX_SOUND_BYTES: u64 = 67_108_864;

/// The bytes of a WAVE file, with what they say of their sound. Clones share the bytes.
///
/// Contracts see a clip as its `bytes` and its `wave`. Each clip keeps that `survey` of its bytes
/// gives its wave; `Clip::wave` says so.
#[derive(Drop)]
pub struct Clip {
    bytes: Arc<Vec<u8>, Global>,
    wave: Wave,
}

impl Model for Clip {
    ghost use Rattle.std.specs.Arc.{arc_value};
    ghost use Rattle.clip_decode.specs.ClipData.{ClipData, IsClip};

    ghost Value = { ClipData };

    ghost view = { λ c. record { bytes = (arc_value c.bytes).items; wave = c.wave } };

    ghost invariant = { λ c. IsClip (arc_value c.bytes).items c.wave };
}

impl Clip {
    /// The clip of a file, which keeps its bytes.
    ///
    /// # Errors
    ///
    /// [`ClipError::Fault`] exactly where the file has a fault: the first one, as
    /// `wave_read::survey` answers it. [`ClipError::OutOfMemory`] where there is no memory, only for
    /// a file without a fault.
    pub fn new(alloc: Global, bytes: Vec<u8>) -> Result<Clip, ClipError>
        ensures bytes { IfOk result (λ clip. clip.bytes ≡ bytes.items) }
        ensures wave { IfOk result (λ clip. wave bytes.items ≡ Ok clip.wave) }
        ensures fault { (fault : WaveFault) →
            (result ≡ Err (ClipError.Fault fault)) ↔ (wave bytes.items ≡ Err fault) }
    {
        let wave = survey(&bytes)?;
        let bytes = Arc::new(alloc, bytes)?;
        Ok(Clip { bytes, wave })
    }

    /// What the file says of its sound, as `survey` answers it.
    pub fn wave(&self) -> &Wave
        ensures value { result.now ≡ self.now.wave }
        ensures surveyed { wave self.now.bytes ≡ Ok self.now.wave }
        ensures lawful { IsWaveOf self.now.bytes self.now.wave }
    {
        &self.wave
    }

    /// The bytes of the file, from its beginning to its end.
    pub fn bytes(&self) -> &[u8]
        ensures { result.now ≡ self.now.bytes }
    {
        self.bytes.as_slice()
    }

    /// An equal clip over the same bytes, which are not copied. It takes no memory on the heap; the error
    /// comes where there are too many clips of these bytes to be counted.
    pub fn share(&self) -> Result<Clip, AllocError>
        ensures equal { IfOk result (λ clip. clip ≡ self.now) }
    {
        let bytes = self.bytes.clone()?;
        Ok(Clip {
            bytes,
            wave: self.wave,
        })
    }
}

impl Clone for Clip {
    ghost use Rattle.std.specs.Prelude.{◌≡◌};

    ghost is_clone = { λ clip copy. copy ≡ clip };

    fn clone(&self) -> Result<Clip, AllocError> {
        self.share()
    }
}
