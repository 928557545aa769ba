//! Laws of the list of a file's frames, for crates that stand on it. The functions do nothing.

ghost use Rattle.std.specs.Prelude.{◌≡◌, ℕ, ◌+◌, ◌*◌, ◌<◌, ◌≤◌, pos, List, [], length, slice_index_or, Ok, Err};
ghost use Rattle.std.specs.Int.{div_ceil};
ghost use Rattle.std.specs.List.{flat_map, range_with_len, sum_by};
ghost use Rattle.ima_adpcm.specs.Blocks.{block_frames};
ghost use Rattle.clip_decode.specs.Ima.{block_bytes};
ghost use Rattle.clip_decode.specs.Samples.{sample_of};
ghost use Rattle.clip_decode.specs.Frames.{frames, interleaved, HasSamples};
ghost use Rattle.clip_decode.specs.Pages.{frames_per_page, page_count, page_frames};
ghost use Rattle.wave_read.specs.Frames.{frames_held, frames_per_block};
ghost use Rattle.wave_read.specs.Wave.{wave};
ghost use Rattle.wave_read.specs.declared.kind.Kind.TheVariants.{Ima};
ghost use Rattle.wave_read.specs.declared.wave.Wave.{Wave};
ghost use Rattle.wave_read.specs.declared.wave_fault.WaveFault.{WaveFault};

/// A file has as many frames as its `Wave` says, of one sample a channel, each by the numbers of its
/// frame and its channel.
pub fn frames_have_samples()
    ensures { (bytes : List ℕ) (w : Wave) → wave bytes ≡ Ok w →
        HasSamples w.frames w.channels (sample_of bytes w) (frames bytes) }
{}

/// A file that is refused has no frames.
#[tactic(auto, unfolding(crate::specs::Frames::frames))]
pub fn no_frames_where_refused()
    ensures { (bytes : List ℕ) (fault : WaveFault) → wave bytes ≡ Err fault → frames bytes ≡ [] }
{}

/// A file has at most two frames a byte.
pub fn frames_are_few()
    ensures { (bytes : List ℕ) (w : Wave) → wave bytes ≡ Ok w → w.frames ≤ 2 * length bytes }
{}

/// An IMA ADPCM file holds the frames of its blocks, of which the last one may be shorter: the number
/// by which they are counted is the sum of the frames that the decoder has of each block. A whole
/// block has as many frames by the one count as by the other.
pub fn ima_has_the_frames_of_its_blocks()
    ensures held { (bytes : List ℕ) (w : Wave) → wave bytes ≡ Ok w → w.kind ≡ Ima →
        frames_held w.align w.channels w.data_len
        ≡ sum_by (λ b. block_frames (length (block_bytes bytes w b)) w.channels) (range_with_len 0 (div_ceil w.data_len w.align)) }
    ensures per_block { (bytes : List ℕ) (w : Wave) → wave bytes ≡ Ok w → w.kind ≡ Ima →
        frames_per_block w.align w.channels ≡ block_frames w.align w.channels }
{}

/// The samples of page `k`, interleaved, are those of the frames from `8192 * k` on, each by the
/// numbers of its frame and its channel.
pub fn pages_have_samples()
    ensures { (bytes : List ℕ) (w : Wave) (k f c : ℕ) → wave bytes ≡ Ok w →
        f < frames_per_page → frames_per_page * k + f < w.frames → c < w.channels →
        slice_index_or (interleaved (page_frames bytes k)) (f * w.channels + c) (pos 0)
        ≡ sample_of bytes w (frames_per_page * k + f) c }
{}

/// The pages of a file, one after the other, are its frames.
pub fn pages_are_the_frames()
    ensures { (bytes : List ℕ) →
        flat_map (page_frames bytes) (range_with_len 0 (page_count (length (frames bytes)))) ≡ frames bytes }
{}
