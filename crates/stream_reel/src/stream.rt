//! Both ends on one thread.

ghost use Rattle.std.specs.Prelude.{◌≡◌, ◌≤◌, length, false, IfOk};
ghost use Rattle.clip_decode.specs.Limits.{most_sound_bytes};
ghost use Rattle.clip_decode.specs.Pages.{page_count};
ghost use Rattle.stream_reel.specs.Heard.{IsLawful};
ghost use Rattle.stream_reel.specs.Asks.{HasChannels};
ghost use Rattle.stream_reel.specs.Ends.{back, file, filled, heard, AllKnown, IsStream, SameFiller, SameListener, HeardNothing};
ghost use Rattle.stream_reel.specs.Met.{ListenerHasMet, FillerHasMet};
ghost use Rattle.stream_reel.specs.Opened.{IsOpened};

use crate::buffer::{Buffer, Held};
use crate::filler::Filler;
use crate::listener::Listener;
use clip_decode::{Clip, Page, pages};
use plain_data::OutOfMemory;
use rtrb::RingBuffer;
use std::alloc::Global;

/// The calls for both ends of a stream, on one thread.
pub struct Stream;

/// The two ends of a stream.
#[derive(Drop)]
pub struct Ends {
    pub filler: Filler,
    pub listener: Listener,
}

impl Stream {
    /// Opens a stream of a clip of at most 67108864 bytes, with the memory of its two pages and its two
    /// rings. Pages 0 and 1 are asked for, as far as there are such. Nothing is decoded yet.
    ///
    /// # Errors
    ///
    /// [`OutOfMemory`] where there is no memory.
    pub fn open(alloc: Global, clip: Clip) -> Result<Ends, OutOfMemory>
        requires { length clip.bytes ≤ most_sound_bytes }
        ensures { IfOk result (λ ends. IsOpened clip ends) }
    {
        let channels = clip.wave().channels;
        let pages = page_number(&clip);
        let first = empty_buffer(alloc, channels)?;
        let second = empty_buffer(alloc, channels)?;
        let (asks, taken) = RingBuffer::new(alloc, 2)?;
        let (filled, fills) = RingBuffer::new(alloc, 2)?;
        let listener = Listener::new(asks, fills, first, second, pages, channels);
        let filler = Filler::new(clip, taken, filled);
        Ok(Ends { filler, listener })
    }

    /// Makes every buffer that lies in a ring known to the end that takes from it. The two are the ends
    /// of one stream.
    ///
    /// The next call of each end goes by what is known now, and doesn't look again.
    pub fn meet(filler: &mut Filler, listener: &mut Listener)
        requires { IsStream filler.old listener.old }
        ensures stream { IsStream filler.new listener.new }
        ensures filler { SameFiller filler.old filler.new × FillerHasMet filler.new }
        ensures listener { SameListener listener.old listener.new × ListenerHasMet listener.new }
        ensures nothing { HeardNothing listener.old listener.new }
        ensures buffers { (filled filler.new ≡ filled filler.old) × (back listener.new ≡ back listener.old) }
        ensures known { AllKnown filler.new listener.new }
    {
        look_beside(filler, listener);
        filler.looked = true;
        listener.looked = true;
    }

    /// Drops the filler and gives the listener back. The two are the ends of one stream. What was heard is
    /// lawful for the stream's file: the rounds never fall, the numbers of one round rise by 1, and each
    /// page has the samples of the file's page with its number.
    pub fn close(filler: Filler, listener: Listener) -> Listener
        requires { IsStream filler listener }
        ensures lawful { IsLawful (file filler) (heard result) }
        ensures same { SameListener listener result }
        ensures nothing { HeardNothing listener result }
    {
        let mut filler = filler;
        let mut listener = listener;
        listener.fills.slots_beside(&mut filler.fills);
        listener
    }
}

/// Each end looks into the ring from which it takes, on one thread.
fn look_beside(filler: &mut Filler, listener: &mut Listener)
    requires { IsStream filler.old listener.old }
    ensures stream { IsStream filler.new listener.new }
    ensures same { SameFiller filler.old filler.new × SameListener listener.old listener.new }
    ensures nothing { HeardNothing listener.old listener.new }
    ensures buffers { (filled filler.new ≡ filled filler.old) × (back listener.new ≡ back listener.old) }
    ensures known { AllKnown filler.new listener.new }
{
    listener.fills.slots_beside(&mut filler.fills);
    filler.asks.slots_beside(&mut listener.asks);
}

/// A buffer that wasn't heard.
fn empty_buffer(alloc: Global, channels: u8) -> Result<Held, OutOfMemory>
    requires { (1 ≤ channels) × (channels ≤ 8) }
    ensures { IfOk result (λ held. (held.heard ≡ false) × HasChannels channels held.buffer) }
{
    let page = Page::new(alloc, channels)?;
    Ok(Held {
        buffer: Buffer {
            round: 0,
            number: 0,
            page,
        },
        heard: false,
    })
}

/// The number of pages of a clip of at most 64 MiB.
fn page_number(clip: &Clip) -> u32
    requires { length clip.now.bytes ≤ most_sound_bytes }
    ensures { result ≡ page_count clip.now.wave.frames }
{
    pages(clip.wave()) as u32
}
