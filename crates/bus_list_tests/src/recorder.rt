//! An editor that keeps what it did.
ghost use Rattle.std.specs.Prelude.{◌≡◌, ◌≢◌, ℕ, ◌<◌, ◌≤◌, ◌+◌, [], replicate, length, slice_index};
ghost use Rattle.bus_list.specs.ListViews.{history_of_editor, buses_of_editor, list_of_editor};
ghost use Rattle.bus_list_tests.specs.Feeds.{Knows};

use bus_list::Editor;
use std::alloc::Global;
use std::sync::Wait;

/// More edits than these are not made.
pub(crate) const MOST_EDITS: u64 = 1_000_000;

/// An edit of a list: the feed with which the bus was attached, or 0 where it was detached, and the
/// count of edits after it.
#[derive(Drop)]
pub(crate) struct Edit {
    pub bus: u32,
    pub feed: u32,
    pub count: u64,
}

/// The editor of a list of 8 buses, with the feeds that are attached now, 0 where none is. A feed is the
/// count of edits after its attach.
#[derive(Drop)]
pub(crate) struct Recorder {
    pub editor: Editor<u32>,
    pub feeds: Vec<u32>,
    pub edits: Vec<Edit>,
    pub faults: u32,
    ghost buses: { (buses_of_editor editor ≡ 8) × (length feeds.items ≡ 8) },
    ghost known: { Knows feeds.items (history_of_editor editor) },
}

impl Recorder {
    /// The recorder of a list for 8 buses that was never edited.
    pub(crate) fn new(editor: Editor<u32>, feeds: Vec<u32>, edits: Vec<Edit>) -> Recorder
        requires editor { (buses_of_editor editor ≡ 8) × (history_of_editor editor ≡ []) }
        requires feeds { feeds.items ≡ replicate 8 0 }
        ensures { list_of_editor result.editor ≡ list_of_editor editor }
    {
        Recorder {
            editor,
            feeds,
            edits,
            faults: 0,
        }
    }

    /// Attaches the bus where it isn't attached, and detaches it where it is.
    pub(crate) fn edit<R: Wait>(&mut self, rt: &R, bus: u32)
        requires { bus < 8 }
        ensures { list_of_editor self.new.editor ≡ list_of_editor self.old.editor }
    {
        if MOST_EDITS <= self.editor.edits() {
            return;
        }
        let feed = self.feeds[bus as usize];
        if feed == 0 {
            self.attach(bus);
        } else {
            self.detach(rt, bus, feed);
        }
    }

    fn attach(&mut self, bus: u32)
        requires bus { bus < 8 }
        requires off { slice_index self.old.feeds.items bus ≡ 0 }
        requires room { length (history_of_editor self.old.editor) < 1000000 }
        ensures { list_of_editor self.new.editor ≡ list_of_editor self.old.editor }
    {
        let feed = self.editor.edits() as u32 + 1;
        self.editor.attach(bus, feed);
        self.feeds[bus as usize] = feed;
        self.keep(bus, feed);
    }

    fn detach<R: Wait>(&mut self, rt: &R, bus: u32, feed: u32)
        requires bus { bus < 8 }
        requires on { (slice_index self.old.feeds.items bus ≡ feed) × (0 < feed) }
        requires room { length (history_of_editor self.old.editor) < 1000000 }
        ensures { list_of_editor self.new.editor ≡ list_of_editor self.old.editor }
    {
        let had = self.editor.detach(rt, bus);
        self.feeds[bus as usize] = 0;
        self.keep(bus, 0);
        if had != feed {
            self.faults = self.faults.saturating_add(1);
        }
    }

    /// Keeps the edit that was made. Want of memory counts as a fault.
    fn keep(&mut self, bus: u32, feed: u32)
        ensures { (self.new.editor ≡ self.old.editor) × (self.new.feeds ≡ self.old.feeds) }
    {
        let count = self.editor.edits();
        let made = Edit { bus, feed, count };
        if self.edits.push(made).is_err() {
            self.faults = self.faults.saturating_add(1);
        }
    }
}
