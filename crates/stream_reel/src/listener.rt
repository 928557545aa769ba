//! The end that hears.

ghost use Rattle.std.specs.Prelude.{◌≡◌, ℕ, ◌+◌, ◌<◌, ◌≤◌, ◌∷◌, [], ◌++◌, length, map, List, All, true, false};
ghost use Rattle.std.specs.Coded.{→_prop, Π_prop};
ghost use Rattle.rtrb.specs.Ring.{sent, received, consumer_capacity};
ghost use Rattle.stream_reel.specs.Heard.{entry_of, heard_of, InOrder, InOrder-prop};
ghost use Rattle.stream_reel.specs.Asks.{wanted_by, key_of, back_of, awaited, AllCame, HasChannels, IsPageAt};
ghost use Rattle.stream_reel.specs.Due.{IsDue, IsDue-prop};

use crate::buffer::{Ask, Buffer, Held};
use crate::not_loaded::NotLoaded;
use crate::two::Two;
use clip_decode::Page;
use rtrb::{Consumer, Producer};

/// The end of a stream that hears its pages, in order from any page on.
///
/// It keeps the list of what was heard, which contracts see by `heard`: it isn't stored, but stands in
/// the buffers that were sent back and in those that are here.
#[derive(Drop)]
pub struct Listener {
    pub(crate) asks: Producer<Ask>,
    pub(crate) fills: Consumer<Buffer>,
    /// The buffers that are here. The page that was lent is in the last one.
    pub(crate) kept: Two<Held>,
    pub(crate) round: u32,
    pub(crate) place: u32,
    /// The page that is asked for next in this round.
    pub(crate) next: u32,
    pub(crate) pages: u32,
    pub(crate) channels: u8,
    /// Whether the next call need not look for buffers, since `meet` just did.
    pub(crate) looked: bool,
    ghost came: { AllCame (map entry_of (received fills)) (heard_of (back_of (sent asks) kept)) },
    ghost order: { InOrder (heard_of (back_of (sent asks) kept) ++ awaited round place ∷ []) } by { InOrder-prop (heard_of (back_of (sent asks) kept) ++ awaited round place ∷ []) },
    ghost inside: { (place ≤ pages) × (next ≤ pages) },
    ghost small: { consumer_capacity fills ≡ 2 },
    ghost two: { length (sent asks) + length kept ≡ length (received fills) + 2 },
    ghost asked: { All (λ a. a.number < pages) (sent asks) },
    ghost room: { All (HasChannels channels) (received fills)
        → All (λ h. HasChannels channels h.buffer) (back_of (sent asks) kept) },
    ghost due: { All (HasChannels channels) (received fills) → (rest : List (ℕ × ℕ))
        → map wanted_by (sent asks) ≡ map key_of (received fills) ++ rest → IsDue round place next rest } by { →_prop (Π_prop λ rest. →_prop (IsDue-prop round place next rest)) },
}

/// What became of the first buffer that was known to the listener.
enum Taken {
    Heard,
    Other,
    Nothing,
}

/// Whether a buffer has this page of this round, for so many channels.
fn is_page_at(buffer: &Buffer, round: u32, place: u32, channels: u8) -> bool
    ensures is { result ≡ true → IsPageAt round place channels buffer.now }
    ensures not { result ≡ false → IsPageAt round place channels buffer.now → ⊥ }
{
    buffer.round == round && buffer.number == place && buffer.page.channels() == channels
}

impl Listener {
    ghost use Rattle.std.specs.Prelude.{◌≡◌, ◌↔◌, ℕ, ◌+◌, ◌<◌, ◌≤◌, ◌^◌, ◌⊎◌, ◌∷◌, [], ◌++◌, length, map, min, List, true, false, MatchResult, IsErr, ⊤, cond};
    ghost use Rattle.std.specs.Borrow.{sem};
    ghost use mathlib.Core.Option.{none};
    ghost use denote.Follow.{follows_so};
    ghost use Rattle.rtrb.specs.Ring.{sent, received, known_items, known_free, consumer_capacity, ConsumerLooked, SameProducer};
    ghost use Rattle.stream_reel.specs.contracts.listener.Listener.{the_row};
    ghost use Rattle.stream_reel.specs.Asks.{wanted_by, asks_from, HasChannels};
    ghost use Rattle.stream_reel.specs.Ends.{back, heard, SameListener, HeardNothing};
    ghost use Rattle.stream_reel.specs.Steps.{AskedAll, CannotAsk, AskedFor, HeardNext, HeardNone, NextIsFirst, Sought, TookNext, TookOther};
    ghost use Rattle.stream_reel.specs.Met.{ListenerHasMet, NoneOfRound};
    ghost use Rattle.stream_reel.specs.declared.buffer.Held.{Held};

    /// A listener that asked for pages 0 and 1, as far as there are such, with two buffers.
    pub(crate) fn new(
        asks: Producer<Ask>,
        fills: Consumer<Buffer>,
        first: Held,
        second: Held,
        pages: u32,
        channels: u8,
    ) -> Listener
        requires asks { (sent asks ≡ []) × (known_free asks ≡ 2) }
        requires fills { (received fills ≡ []) × (consumer_capacity fills ≡ 2) }
        requires first { (first.heard ≡ false) × HasChannels channels first.buffer }
        requires second { (second.heard ≡ false) × HasChannels channels second.buffer }
        ensures asks { SameProducer asks result.asks }
        ensures fills { result.fills ≡ fills }
        ensures file { (result.pages ≡ pages) × (result.channels ≡ channels) }
        ensures heard { heard result ≡ [] }
        ensures place { (result.round ≡ 0) × (result.place ≡ 0) }
        ensures asked { map wanted_by (sent result.asks) ≡ asks_from 0 0 (min 2 pages) }
        ensures beside { (result.kept ≡ []) ⊎ CannotAsk result }
    {
        let mut kept = Two::new();
        kept.push(first);
        kept.push(second);
        let mut listener = Listener {
            asks,
            fills,
            kept,
            round: 0,
            place: 0,
            next: 0,
            pages,
            channels,
            looked: false,
        };
        listener.ask();
        listener
    }

    /// The number of the page that `next` gives, from 0 to the number of the file's pages, where none
    /// is left.
    pub fn place(&self) -> u32
        ensures { result ≡ self.now.place }
    {
        self.place
    }

    /// The number of seeks.
    pub fn round(&self) -> u32
        ensures { result ≡ self.now.round }
    {
        self.round
    }

    /// Gives the page `place`, which then rises by 1, and lets go of the page before. Buffers of an older
    /// round are asked for anew on the way. There is a page left.
    ///
    /// It takes no memory, and waits for nobody.
    ///
    /// # Errors
    ///
    /// [`NotLoaded`] only where no buffer was known to the listener when it looked last, or both were here
    /// already. Round and place are as before then. Directly after
    /// [`Stream::meet`](crate::Stream::meet) it comes exactly where no buffer of the present round lay in
    /// the ring to the listener.
    pub fn next(&mut self) -> Result<&Page, NotLoaded>
        requires { self.old.place < self.old.pages }
        ensures* after { sem 𝓛 (follows_so the_row the_row self.entry.ghost_name none (λ _ _. ⊤)
            (λ new. MatchResult result (λ page. HeardNext self.old new page.now) (λ _. HeardNone self.old new))) }
        ensures met { ListenerHasMet self.old → IsErr result ↔ NoneOfRound self.old }
    {
        if self.advance() {
            Ok(&self.kept.last().buffer.page)
        } else {
            Err(NotLoaded)
        }
    }

    /// Goes to page `number`, from 0 to the number of the file's pages: lets go of the page before, and
    /// raises the round. There were fewer than 2^32 - 1 seeks.
    ///
    /// It takes no memory, and waits for nobody.
    pub fn seek(&mut self, number: u32)
        requires inside { number ≤ self.old.pages }
        requires few { self.old.round + 1 < 2 ^ 32 }
        ensures { Sought self.old self.new number }
    {
        self.turn_to(number);
        self.ask();
    }

    /// Begins a round at a page, with no buffer asked for.
    fn turn_to(&mut self, number: u32)
        requires inside { number ≤ self.old.pages }
        requires few { self.old.round + 1 < 2 ^ 32 }
        ensures same { SameListener self.old self.new }
        ensures heard { heard self.new ≡ heard self.old }
        ensures round { self.new.round ≡ self.old.round + 1 }
        ensures place { self.new.place ≡ number }
    {
        self.round += 1;
        self.place = number;
        self.next = number;
        self.looked = false;
    }

    /// Asks for the next pages with the buffers that are here, as far as there are pages and places.
    pub(crate) fn ask(&mut self)
        ensures same { SameListener self.old self.new }
        ensures asked { AskedAll self.old self.new }
    {
        if self.ask_one() {
            self.ask_one();
        }
    }

    /// Asks for the next page with the buffer that came first, and says whether it did.
    fn ask_one(&mut self) -> bool
        ensures same { SameListener self.old self.new }
        ensures few { length self.old.kept ≤ 2 }
        ensures asked { AskedFor self.old self.new (cond result 1 0) }
        ensures beside { result ≡ false → (self.new.kept ≡ []) ⊎ CannotAsk self.new }
    {
        if self.kept.is_empty() || self.next == self.pages || self.asks.is_full() {
            return false;
        }
        if let Some(held) = self.kept.pop() {
            let ask = Ask {
                held,
                round: self.round,
                number: self.next,
            };
            self.next += 1;
            self.asks.push_reserved(ask);
        }
        true
    }

    /// Looks for buffers, unless `meet` just did.
    fn look(&mut self)
        ensures same { SameListener self.old self.new }
        ensures nothing { HeardNothing self.old self.new }
        ensures rest { (self.new.asks ≡ self.old.asks) × (self.new.kept ≡ self.old.kept) × (self.new.next ≡ self.old.next) }
        ensures looked { ConsumerLooked self.old.fills self.new.fills }
        ensures met { self.old.looked ≡ true → self.new.fills ≡ self.old.fills }
    {
        if !self.looked {
            self.fills.slots();
        }
        self.looked = false;
    }

    /// Takes the first buffer that is known, if there is one and the other isn't here already.
    fn take_one(&mut self) -> Taken
        requires { self.old.place < self.old.pages }
        ensures heard { result ≡ Taken.Heard → TookNext self.old self.new }
        ensures other { result ≡ Taken.Other → TookOther self.old self.new }
        ensures nothing { result ≡ Taken.Nothing → (self.new ≡ self.old)
            × ((known_items self.old.fills ≡ []) ⊎ (length self.old.kept ≡ 2)) }
    {
        if self.kept.is_full() || self.fills.cached_slots() == 0 {
            return Taken::Nothing;
        }
        let buffer = self.fills.pop_known();
        let heard = is_page_at(&buffer, self.round, self.place, self.channels);
        self.kept.push(Held { buffer, heard });
        if heard {
            self.place += 1;
            Taken::Heard
        } else {
            Taken::Other
        }
    }

    /// Takes the page at the place, and says whether it was known. Of two buffers that are known the first
    /// may be of an older round.
    fn advance(&mut self) -> bool
        requires { self.old.place < self.old.pages }
        ensures some { result ≡ true → 0 < length self.new.kept }
        ensures next { result ≡ true → (before : List Held) (last : Held) → self.new.kept ≡ before ++ last ∷ []
            → HeardNext self.old self.new last.buffer.page }
        ensures none { result ≡ false → HeardNone self.old self.new }
        ensures met { ListenerHasMet self.old → (result ≡ false) ↔ NoneOfRound self.old }
    {
        self.ask();
        self.look();
        match self.take_one() {
            Taken::Heard => true,
            Taken::Nothing => false,
            Taken::Other => self.take_second(),
        }
    }

    /// The same behind a buffer that isn't the one that was awaited.
    fn take_second(&mut self) -> bool
        requires place { self.old.place < self.old.pages }
        requires few { length (known_items self.old.fills) ≤ 1 }
        ensures some { result ≡ true → 0 < length self.new.kept }
        ensures next { result ≡ true → (before : List Held) (last : Held) → self.new.kept ≡ before ++ last ∷ []
            → HeardNext self.old self.new last.buffer.page }
        ensures none { result ≡ false → HeardNone self.old self.new }
        ensures met { length (known_items self.old.fills) + length self.old.kept ≤ 2
            → (result ≡ true) ↔ NextIsFirst self.old }
    {
        self.ask();
        match self.take_one() {
            Taken::Heard => true,
            Taken::Nothing => false,
            Taken::Other => {
                self.ask();
                false
            }
        }
    }
}
