ghost use Rattle.std.specs.Prelude.{◌≡◌, ◌%◌, ◌+◌, ◌^◌, ℕ, ℤ, List, [], ◌++◌, sum, fold, max, unsigned_abs};
ghost use Rattle.mix_model.specs.Summary as spec;

/// The peak and a checksum of a rendering. Renderings with different summaries are different.
#[derive(Clone, Copy, Debug, PartialEq, Eq)]
pub struct Summary {
    /// The greatest magnitude of the samples in 24 bits, 0 to 8388608, before they are packed.
    pub peak: u32,
    /// The sum of the bytes of the packed samples, modulo 4294967296.
    pub sum: u32,
}

impl Summary {
    /// The summary of no samples.
    pub fn empty() -> Self
        ensures { result ≡ spec.summary [] [] }
    {
        Summary { peak: 0, sum: 0 }
    }

    /// The summary with these samples, and the bytes that they are packed in, after those that it
    /// was of.
    pub fn extended(self, samples: &[i32], bytes: &[u8]) -> Self
        ensures { (before : List ℤ) (packed : List ℕ) → self ≡ spec.summary before packed → result ≡ spec.summary (before ++ samples.now) (packed ++ bytes.now) }
    {
        Summary {
            peak: peak_from(self.peak, samples),
            sum: sum_from(self.sum, bytes),
        }
    }
}

/// The greatest of a magnitude and those of samples.
fn peak_from(greatest: u32, samples: &[i32]) -> u32
    ensures { result ≡ fold (λ m x. max m (unsigned_abs x)) greatest samples.now }
{
    let mut peak = greatest;
    for sample in samples {
        peak = peak.max(sample.unsigned_abs());
    }
    peak
}

/// A sum with these bytes, modulo 4294967296.
fn sum_from(start: u32, bytes: &[u8]) -> u32
    ensures { result ≡ (start + sum bytes.now) % 2 ^ 32 }
{
    let mut total = start;
    for byte in bytes {
        total = total.wrapping_add(u32::from(*byte));
    }
    total
}
