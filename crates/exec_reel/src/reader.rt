ghost use Rattle.std.specs.Prelude.{⊤, ◌≡◌, ◌<◌, ◌≤◌, ℕ, [], None, true, length, slice_index_or, IfOk, IfErr, MatchResult};
ghost use Rattle.std.specs.Arc.{arc_value};
ghost use Rattle.exec_reel.specs.ClipPages.{page_total, page_of};
ghost use Rattle.exec_reel.specs.ReaderPages.{AreNone, KeepsPages, kept_at};
ghost use Rattle.exec_reel.specs.Rule.{is_among, IsAmong};
ghost use Rattle.exec_reel.specs.Seats.{IsAt};
ghost use Rattle.exec_reel.specs.declared.view.Role.TheVariants.{Reading};

use crate::not_yet::NotYet;
use crate::reel_table::{ReelSeat, ReelTable};
use clip_decode::{Clip, Page};
use plain_data::OutOfMemory;
use std::alloc::Global;
use std::sync::Arc;

/// What the pages of a reel are read with. There is one for each reel.
///
/// A page that it was asked for stays with it, so that no sample is copied, and a page is taken from the
/// reel's table once.
#[derive(Drop)]
pub struct Reader {
    pub(crate) shared: Arc<ReelTable, Global>,
    pub(crate) seat: ReelSeat,
    pub(crate) shown: u32,
    /// By number, the pages that were asked for.
    pub(crate) pages: Vec<Option<Page>>,
    pub(crate) ghost at: { IsAt (arc_value shared) seat },
    pub(crate) ghost reads: { (seat.me.0.role ≡ Reading) × (seat.me.0.shown ≡ shown) },
    pub(crate) ghost kept: { KeepsPages seat.me.0.clip seat.me.0.taken pages.items },
}

impl Reader {
    ghost use Rattle.exec_reel.specs.Reels.{clip_of_reader, shown_of, reel_of_reader, taken_of, notes_of_reader};
    ghost use Rattle.exec_reel.specs.ReadPages.{Looked, Took, Gave, IsNotYet};
    ghost use Rattle.exec_reel.specs.contracts.reader.Reader.{the_row};
    ghost use Rattle.std.specs.Borrow.{sem};
    ghost use denote.Follow.{follows_so};
    ghost use mathlib.Core.Option.{none};

    /// The reader with this seat.
    pub(crate) fn new(
        alloc: Global,
        shared: Arc<ReelTable, Global>,
        seat: ReelSeat,
        shown: u32,
    ) -> Result<Reader, OutOfMemory>
        requires at { IsAt (arc_value shared) seat }
        requires reads { (seat.me.0.role ≡ Reading) × (seat.me.0.shown ≡ shown) }
        requires none { seat.me.0.taken ≡ [] }
        ensures { IfOk result (λ r. (r.seat ≡ seat) × (shown_of r ≡ shown)) }
    {
        let pages = no_pages(alloc, shared.pages)?;
        Ok(Reader {
            shared,
            seat,
            shown,
            pages,
        })
    }

    /// Page `k` of the clip, counted from 0, below the number of the clip's pages: the samples of its
    /// frames from frame 8192 * k on, 8192 of them or as many as are left, in the clip's channels. The
    /// samples aren't copied. It is answered wherever it was shown to this reader before.
    ///
    /// It takes no memory, and waits for nobody.
    ///
    /// # Errors
    ///
    /// [`NotYet`] where the page wasn't shown before, and the pointer that this call loaded is at most
    /// `k`. The pointer is the number of pages that are shown then.
    pub fn page(&mut self, k: u32) -> Result<&Page, NotYet>
        requires { k < page_total (clip_of_reader self.old) }
        ensures given { IfOk result (λ page. page.now ≡ page_of (clip_of_reader self.old) k) }
        ensures not_yet { IfErr result (λ early. (shown_of self.old ≤ k) × (early.shown ≤ k)) }
        ensures* after { sem 𝓛 (follows_so the_row the_row self.entry.ghost_name none (λ _ _. ⊤)
            (λ n. MatchResult result (λ _. Gave self.old n k) (λ early. IsNotYet self.old n k early.shown))) }
    {
        self.ask(k)?;
        Ok(self.taken(k))
    }

    /// Asks for page `k`, as [`Reader::page`] does, which stays with this reader from then on.
    ///
    /// # Errors
    ///
    /// Those of [`Reader::page`].
    pub fn ask(&mut self, k: u32) -> Result<(), NotYet>
        requires { k < page_total (clip_of_reader self.old) }
        ensures { MatchResult result (λ _. Gave self.old self.new k) (λ early. IsNotYet self.old self.new k early.shown) }
    {
        self.look(k)?;
        self.take(k);
        Ok(())
    }

    /// Page `k`, which this reader was asked for and has given before.
    pub fn taken(&self, k: u32) -> &Page
        requires among { IsAmong k (taken_of self.now) }
        requires below { k < page_total (clip_of_reader self.now) }
        ensures { result.now ≡ page_of (clip_of_reader self.now) k }
    {
        match &self.pages[k as usize] {
            Some(page) => page,
            None => unreachable!(),
        }
    }

    /// By number, the pages that this reader was asked for and has given so far, and no other.
    pub fn given(&self) -> &[Option<Page>]
        ensures count { length result.now ≡ page_total (clip_of_reader self.now) }
        ensures each { (k : ℕ) → k < page_total (clip_of_reader self.now) →
            slice_index_or result.now k None ≡ kept_at (clip_of_reader self.now) (taken_of self.now) k }
    {
        self.pages.as_slice()
    }

    /// The clip whose pages these are.
    pub fn clip(&self) -> &Clip
        ensures { result.now ≡ clip_of_reader self.now }
    {
        &self.shared.opening.clip
    }

    // Loads the pointer, where page k wasn't shown before.
    fn look(&mut self, k: u32) -> Result<(), NotYet>
        requires { k < page_total (clip_of_reader self.old) }
        ensures { MatchResult result (λ _. Looked self.old self.new k) (λ early. IsNotYet self.old self.new k early.shown) }
    {
        if k >= self.shown {
            self.shown = self.shared.load_shown(&mut self.seat) as u32;
        }
        if k < self.shown {
            Ok(())
        } else {
            Err(NotYet { shown: self.shown })
        }
    }

    // Takes page k out of the table, where the reader hasn't got it.
    fn take(&mut self, k: u32)
        requires below { k < page_total (clip_of_reader self.old) }
        requires shown { k < shown_of self.old }
        ensures { Took self.old self.new k }
    {
        if !self.has(k) {
            let page = self.shared.shown_page(&mut self.seat, k);
            self.pages[k as usize] = Some(page);
        }
    }

    // Whether the reader has page k.
    fn has(&self, k: u32) -> bool
        requires { k < page_total (clip_of_reader self.now) }
        ensures { result ≡ is_among k (taken_of self.now) }
    {
        self.pages[k as usize].is_some()
    }
}

/// No pages, with a place for each of so many.
fn no_pages(alloc: Global, count: u32) -> Result<Vec<Option<Page>>, OutOfMemory>
    ensures { IfOk result (λ pages. AreNone count pages.items) }
{
    let mut pages = Vec::with_capacity(alloc, count as usize)?;
    for _ in 0..count {
        pages.push(None)?;
    }
    Ok(pages)
}
