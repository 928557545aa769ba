//! Laws of the definitions that `survey` meets, for crates that stand on it. The functions do
//! nothing.

ghost use Rattle.std.specs.Prelude.{◌≡◌, ℕ, List, Ok};
ghost use Rattle.wave_read.specs.Chunks.{Chunk};
ghost use Rattle.wave_read.specs.Wave.{Chunks, chunks_of, wave_of, wave};
ghost use Rattle.wave_read.specs.Laws.{IsWaveOf};
ghost use Rattle.wave_read.specs.declared.wave.Wave.{Wave};

/// Each file has a list of chunks, and only one.
pub fn one_chunk_list()
    ensures there { (bytes : List ℕ) → Chunks bytes (chunks_of bytes) }
    ensures only { (bytes : List ℕ) (chunks others : List Chunk) →
        Chunks bytes chunks → Chunks bytes others → chunks ≡ others }
{}

/// What a file says is what its chunks say, by whatever list that has them.
pub fn wave_from_its_chunks()
    ensures { (bytes : List ℕ) (chunks : List Chunk) →
        Chunks bytes chunks → wave bytes ≡ wave_of bytes chunks }
{}

/// A wave that a file gives lies in it, with a lawful format and whole frames or blocks.
pub fn a_wave_lies_in_its_file()
    ensures { (bytes : List ℕ) (w : Wave) → wave bytes ≡ Ok w → IsWaveOf bytes w }
{}
