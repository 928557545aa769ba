//! The pages of a clip, as they are shown.

ghost use Rattle.std.specs.Prelude.{⊤, ◌≡◌, ◌+◌, ◌<◌, ◌≤◌, ℕ, None, Some, Ok, length, slice_index_or, IfOk, IfErr, OnOk, MatchResult};
ghost use Rattle.clip_decode.specs.Limits.{most_sound_bytes};
ghost use Rattle.exec_reel.specs.ClipPages.{page_of, page_total};
ghost use Rattle.exec_reel.specs.ReadPages.{Gave, IsNotYet};
ghost use Rattle.exec_reel.specs.Reels.{clip_of_reader, shown_of};
ghost use Rattle.wave_read.specs.Wave.{wave};
ghost use Rattle.resource_mgr.specs.Reading.{HasFirst, IsLaterReader};

use clip_decode::{Clip, Page, pages};
use exec_reel::{NotYet, Reader, Reel};
use plain_data::OutOfMemory;
use std::alloc::Global;
use wave_read::Wave;

/// The pages of a clip of at most 67108864 bytes, which are shown one after the other, from page 0 on.
///
/// A page that it was asked for stays with it: its samples are never copied.
#[derive(Drop)]
pub struct Tape {
    pub(crate) reader: Reader,
    /// So many of the first pages were asked for and given.
    pub(crate) first: u32,
    pub(crate) ghost short: { length (clip_of_reader reader).bytes ≤ most_sound_bytes },
    pub(crate) ghost surveyed: { wave (clip_of_reader reader).bytes ≡ Ok (clip_of_reader reader).wave },
    pub(crate) ghost has: { HasFirst first reader },
}

impl Tape {
    ghost use Rattle.std.specs.Borrow.{sem};
    ghost use Rattle.resource_mgr.specs.Tapes.{bytes_of, clip_of, wave_of, shown_to, HasPages, IsLater, IsWholeTape};
    ghost use Rattle.resource_mgr.specs.contracts.tape.Tape.{the_row};
    ghost use denote.Follow.{follows_so};
    ghost use mathlib.Core.Option.{none};
    ghost use Rattle.wave_read.specs.Laws.{IsWaveOf};

    /// The tape of a reader.
    pub(crate) fn of(reader: Reader) -> Tape
        requires { length (clip_of_reader reader).bytes ≤ most_sound_bytes }
        ensures { result.reader ≡ reader }
    {
        // A clip's wave is what its bytes say: the call tells it, and the tape keeps it.
        let _wave = reader.clip().wave();
        Tape { reader, first: 0 }
    }

    /// Decodes all pages of a clip of at most 67108864 bytes on the calling thread, and shows them all.
    ///
    /// # Errors
    ///
    /// [`OutOfMemory`] where there is no memory.
    pub fn whole(alloc: Global, clip: Clip) -> Result<Tape, OutOfMemory>
        requires { length clip.bytes ≤ most_sound_bytes }
        ensures { IfOk result (λ tape. IsWholeTape clip tape) }
    {
        let reader = Reel::whole(alloc, clip)?;
        Ok(Tape::of(reader))
    }

    /// The page of number `k`, counted from 0, below `pages`: the frames of the file from frame
    /// 8192 * k on, 8192 of them or as many as are left, in the file's channels. It is answered wherever it
    /// was shown to this tape before.
    ///
    /// It takes no memory, and waits for nobody.
    ///
    /// # Errors
    ///
    /// [`NotYet`] where the page wasn't shown before, and the number of pages that this call found
    /// shown is at most `k`; with that number.
    pub fn page(&mut self, k: u32) -> Result<&Page, NotYet>
        requires { k < page_total (clip_of self.old) }
        ensures given { IfOk result (λ page. page.now ≡ page_of (clip_of self.old) k) }
        ensures not_yet { IfErr result (λ early. (shown_to self.old ≤ k) × (early.shown ≤ k)) }
        ensures* after { sem 𝓛 (follows_so the_row the_row self.entry.ghost_name none (λ _ _. ⊤)
            (λ n. MatchResult result (λ _. Gave self.old.reader n.reader k) (λ early. IsNotYet self.old.reader n.reader k early.shown))) }
    {
        self.ask(k)?;
        Ok(self.reader.taken(k))
    }

    /// Asks for page `k`, which stays with this tape from then on.
    fn ask(&mut self, k: u32) -> Result<(), NotYet>
        requires { k < page_total (clip_of self.old) }
        ensures { MatchResult result (λ _. Gave self.old.reader self.new.reader k) (λ early. IsNotYet self.old.reader self.new.reader k early.shown) }
    {
        self.reader.ask(k)
    }

    /// Asks for the first `count` pages, at most `pages`, which are at hand from then on.
    ///
    /// It takes no memory, and waits for nobody.
    ///
    /// # Errors
    ///
    /// [`NotYet`] where the last of them wasn't shown before, and the number of pages that this call found
    /// shown doesn't reach it; with that number.
    pub fn ask_first(&mut self, count: u32) -> Result<(), NotYet>
        requires { count ≤ page_total (clip_of self.old) }
        ensures later { IsLater self.old self.new }
        ensures there { OnOk result (HasPages count self.new) }
        ensures not_yet { IfErr result (λ early. (0 < count) × ((k : ℕ) → k + 1 ≡ count → IsNotYet self.old.reader self.new.reader k early.shown)) }
    {
        if count <= self.first {
            return Ok(());
        }
        self.reader.ask(count - 1)?;
        ask_between(&mut self.reader, self.first, count);
        self.first = count;
        Ok(())
    }

    /// By number, the pages that are at hand. Those of the first are that [`Tape::ask_first`] gave.
    pub fn given(&self) -> &[Option<Page>]
        ensures { (count k : ℕ) → HasPages count self.now → k < count →
            slice_index_or result.now k None ≡ Some (page_of (clip_of self.now) k) }
    {
        self.reader.given()
    }

    /// The clip whose pages these are.
    pub fn clip(&self) -> &Clip
        ensures value { result.now ≡ clip_of self.now }
        ensures short { length (bytes_of self.now) ≤ most_sound_bytes }
    {
        self.reader.clip()
    }

    /// The number of pages of the file, shown or not: its frames divided by 8192, rounded up.
    pub fn pages(&self) -> u32
        ensures { result ≡ page_total (clip_of self.now) }
    {
        pages(self.clip().wave()) as u32
    }

    /// What the file says of its sound, as its clip answered it.
    pub fn wave(&self) -> Wave
        ensures value { result ≡ wave_of self.now }
        ensures surveyed { wave (bytes_of self.now) ≡ Ok (wave_of self.now) }
        ensures lawful { IsWaveOf (bytes_of self.now) (wave_of self.now) }
    {
        *self.clip().wave()
    }
}

/// Asks for the pages from `from` on that come before `until`, all of which were shown.
fn ask_between(reader: &mut Reader, from: u32, until: u32)
    requires first { HasFirst from reader.old }
    requires most { until ≤ page_total (clip_of_reader reader.old) }
    requires shown { until ≤ shown_of reader.old }
    requires order { from ≤ until }
    ensures first { HasFirst until reader.new }
    ensures later { IsLaterReader reader.old reader.new }
{
    for k in from..until {
        let _ = reader.ask(k);
    }
}
