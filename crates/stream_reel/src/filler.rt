//! The end that fills.

ghost use Rattle.std.specs.Prelude.{◌≡◌, ◌+◌, ◌<◌, ◌++◌, [], length, map, All, true, false};
ghost use Rattle.clip_decode.specs.Cursors.{StandsAt};
ghost use Rattle.clip_decode.specs.Frames.{interleaved};
ghost use Rattle.clip_decode.specs.Pages.{page_count, page_frames};
ghost use Rattle.rtrb.specs.Ring.{sent, received, consumer_capacity};
ghost use Rattle.stream_reel.specs.Heard.{entry_of, IsPageOf};
ghost use Rattle.stream_reel.specs.Asks.{wanted_by, key_of, HasChannels, IsAskFor};

use crate::buffer::{Ask, Buffer};
use crate::turned::Turned;
use crate::two::Two;
use clip_decode::{Clip, Cursor, Page, fill, pages};
use rtrb::{Consumer, Producer};
use std::sync::Wait;
use std::sync::atomic::{AtomicBool, Ordering};
use std::thread;

/// The end of a stream that fills the buffers which the listener sends, each with the page that it
/// wants.
#[derive(Drop)]
pub struct Filler {
    pub(crate) clip: Clip,
    pub(crate) cursor: Cursor,
    pub(crate) asks: Consumer<Ask>,
    pub(crate) fills: Producer<Buffer>,
    /// The filled buffers that the ring didn't take.
    pub(crate) kept: Two<Buffer>,
    /// Whether an ask came that isn't one of this stream. None ever does, as both ends show where they
    /// meet, but this end alone can't know it. Such an ask is dropped, and the filler sends nothing more.
    pub(crate) lost: bool,
    /// Whether the next call need not look for asks, since `meet` just did.
    pub(crate) looked: bool,
    ghost stands: { StandsAt clip.bytes cursor },
    ghost small: { consumer_capacity asks ≡ 2 },
    ghost true_pages: { All (λ b. IsPageOf clip.bytes (entry_of b)) (sent fills ++ kept) },
    ghost room: { All (HasChannels clip.wave.channels) (sent fills ++ kept) },
    ghost served: { lost ≡ false → map wanted_by (received asks) ≡ map key_of (sent fills ++ kept) },
    ghost loss: { lost ≡ true → (kept ≡ [])
        × (All (IsAskFor (page_count clip.wave.frames) clip.wave.channels) (received asks)
        → length (sent fills ++ kept) + 2 < length (received asks)) },
}

/// Fills a page with the clip's frames from 8192 times `number` on.
fn fill_page(clip: &Clip, cursor: &mut Cursor, number: u64, page: &mut Page)
    requires below { number < page_count clip.now.wave.frames }
    requires stands { StandsAt clip.now.bytes cursor.old }
    requires channels { page.old.channels ≡ clip.now.wave.channels }
    ensures page { page.new ≡ record {
      channels = clip.now.wave.channels;
      samples = interleaved (page_frames clip.now.bytes number);
    } }
    ensures stands { StandsAt clip.now.bytes cursor.new }
{
    if cursor.page() != number {
        *cursor = Cursor::at(clip, number);
    }
    fill(cursor, clip, page);
}

/// Whether an ask can be served.
fn can_serve(clip: &Clip, ask: &Ask) -> bool
    ensures can { result ≡ true → IsAskFor (page_count clip.now.wave.frames) clip.now.wave.channels ask.now }
    ensures not { result ≡ false → IsAskFor (page_count clip.now.wave.frames) clip.now.wave.channels ask.now → ⊥ }
{
    let wave = clip.wave();
    u64::from(ask.number) < pages(wave) && ask.held.buffer.page.channels() == wave.channels
}

impl Filler {
    ghost use Rattle.std.specs.Prelude.{◌≡◌, ◌↔◌, ℕ, ◌+◌, ◌<◌, ◌≤◌, ◌⊎◌, [], length, All, true, false};
    ghost use Rattle.rtrb.specs.Ring.{sent, received, known_items, known_free, consumer_capacity, ConsumerLooked};
    ghost use Rattle.clip_decode.specs.Pages.{page_count};
    ghost use Rattle.stream_reel.specs.Asks.{IsAskFor};
    ghost use Rattle.stream_reel.specs.Ends.{SameFiller, filled};
    ghost use Rattle.stream_reel.specs.Met.{FillerHasMet};
    ghost use Rattle.stream_reel.specs.Steps.{CanServe, FilledOne, Offered, StayedIdle};
    ghost use Rattle.stream_reel.specs.declared.turned.Turned.TheVariants.{Filled, Idle};

    pub(crate) fn new(clip: Clip, asks: Consumer<Ask>, fills: Producer<Buffer>) -> Filler
        requires asks { (received asks ≡ []) × (consumer_capacity asks ≡ 2) }
        requires fills { sent fills ≡ [] }
        ensures { (result.clip ≡ clip) × (result.asks ≡ asks) × (result.fills ≡ fills) }
    {
        Filler {
            clip,
            cursor: Cursor::start(),
            asks,
            fills,
            kept: Two::new(),
            lost: false,
            looked: false,
        }
    }

    /// Fills the buffer that came first with the page that it wants, and sends it. A buffer that the ring
    /// doesn't take stays here, and is offered first in the next call.
    ///
    /// `Idle` only where no buffer was known to the filler when it looked. Directly after
    /// [`Stream::meet`](crate::Stream::meet) it comes exactly where no buffer lay in the ring to the filler.
    ///
    /// It takes no memory, and waits for nobody.
    pub fn turn(&mut self) -> Turned
        ensures same { SameFiller self.old self.new }
        ensures filled { (round number : ℕ) → result ≡ Filled round number
            → FilledOne self.old self.new round number }
        ensures idle { result ≡ Idle → StayedIdle self.old self.new }
        ensures met { FillerHasMet self.old → (self.new.lost ≡ false)
            × ((result ≡ Idle) ↔ (known_items self.old.asks ≡ [])) }
        ensures kept { (self.new.kept ≡ []) ⊎ (known_free self.new.fills ≡ 0) }
    {
        self.offer();
        self.look();
        let turned = self.serve();
        self.offer();
        turned
    }

    /// Takes turns until `stop` is set. While it has nothing to do it lets other threads run.
    pub fn work(&mut self, rt: &impl Wait, stop: &AtomicBool)
        ensures same { SameFiller self.old self.new }
    {
        for _ in rt.forever() {
            if stop.load(Ordering::SeqCst) {
                break;
            }
            if self.turn() == Turned::Idle {
                thread::yield_now();
            }
        }
    }

    /// Sends the buffers that were filled, as far as the ring takes them.
    fn offer(&mut self)
        ensures same { SameFiller self.old self.new }
        ensures offered { Offered self.old self.new }
        ensures kept { (self.new.kept ≡ []) ⊎ (known_free self.new.fills ≡ 0) }
    {
        if self.offer_one() {
            self.offer_one();
        }
    }

    /// Sends the buffer that was filled first, and says whether it did.
    fn offer_one(&mut self) -> bool
        ensures same { SameFiller self.old self.new }
        ensures few { length self.old.kept ≤ 2 }
        ensures offered { Offered self.old self.new }
        ensures fewer { result ≡ true → length self.new.kept + 1 ≡ length self.old.kept }
        ensures kept { result ≡ false → (self.new.kept ≡ []) ⊎ (known_free self.new.fills ≡ 0) }
    {
        if self.kept.is_empty() || self.fills.is_full() {
            return false;
        }
        if let Some(buffer) = self.kept.pop() {
            self.fills.push_reserved(buffer);
        }
        true
    }

    /// Looks for asks, unless `meet` just did.
    fn look(&mut self)
        ensures same { SameFiller self.old self.new }
        ensures rest { (self.new.fills ≡ self.old.fills) × (self.new.kept ≡ self.old.kept) × (self.new.lost ≡ self.old.lost) }
        ensures looked { ConsumerLooked self.old.asks self.new.asks }
        ensures met { self.old.looked ≡ true → self.new.asks ≡ self.old.asks }
    {
        if !self.looked {
            self.asks.slots();
        }
        self.looked = false;
    }

    /// Takes the ask that came first, if one is known, and fills its buffer.
    fn serve(&mut self) -> Turned
        ensures same { SameFiller self.old self.new }
        ensures filled { (round number : ℕ) → result ≡ Filled round number
            → FilledOne self.old self.new round number }
        ensures idle { result ≡ Idle → StayedIdle self.old self.new }
        ensures can { CanServe self.old → (self.new.lost ≡ false)
            × ((result ≡ Idle) ↔ (known_items self.old.asks ≡ [])) }
    {
        if self.asks.cached_slots() == 0 {
            return Turned::Idle;
        }
        let ask = self.asks.pop_known();
        if self.lost || self.kept.is_full() || !can_serve(&self.clip, &ask) {
            self.lost = true;
            self.kept = Two::new();
            self.drop_ask();
            return Turned::Idle;
        }
        let Ask {
            held,
            round,
            number,
        } = ask;
        let mut page = held.buffer.page;
        fill_page(&self.clip, &mut self.cursor, u64::from(number), &mut page);
        self.kept.push(Buffer {
            round,
            number,
            page,
        });
        Turned::Filled { round, number }
    }

    /// Drops the ask that came first, if one is known, where one was lost before.
    fn drop_ask(&mut self)
        requires { self.old.lost ≡ true }
        ensures same { SameFiller self.old self.new }
        ensures lost { self.new.lost ≡ true }
        ensures fewer { length (known_items self.old.asks) ≤ 1 → known_items self.new.asks ≡ [] }
    {
        if self.asks.cached_slots() > 0 {
            self.asks.pop_known();
        }
    }
}
