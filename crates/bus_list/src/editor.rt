ghost use Rattle.std.specs.Prelude.{List, ◌≡◌, ℕ, ◌+◌, ◌^◌, ◌<◌, ◌≤◌, [], ◌∷◌, ◌++◌, true, false, length, is_some, Some, None};

use crate::list_editor::ListEditor;
use std::sync::Wait;

/// The side of a list that edits it, while the [`Pass`](crate::Pass) may walk.
#[derive(Drop)]
pub struct Editor<T> {
    pub(crate) list_editor: ListEditor<T>,
}

impl<T> Editor<T> {
    ghost use Rattle.bus_list.specs.declared.history.Entry.TheVariants.{On, Off};
    ghost use Rattle.bus_list.specs.Visits.{attached_feed};
    ghost use Rattle.bus_list.specs.ListViews.{history_of_editor, buses_of_editor, list_of_editor};

    /// Puts a bus that isn't attached at the front of the list, with its feed. A visit that is under
    /// way may give it or not.
    pub fn attach(&mut self, bus: u32, feed: T)
        requires bus { bus < buses_of_editor self.old }
        requires off { attached_feed (history_of_editor self.old) bus ≡ None }
        requires room { length (history_of_editor self.old) < 2 ^ 62 }
        ensures history { history_of_editor self.new ≡ history_of_editor self.old ++ On bus feed ∷ [] }
        ensures list { (list_of_editor self.new ≡ list_of_editor self.old)
            × (buses_of_editor self.new ≡ buses_of_editor self.old) }
    {
        self.list_editor.attach(bus, feed);
    }

    /// Takes an attached bus out of the list, waits until the pass can't stand on it any more, and
    /// gives the feed with which it was attached, which is the caller's alone then.
    pub fn detach<R: Wait>(&mut self, rt: &R, bus: u32) -> T
        requires bus { bus < buses_of_editor self.old }
        requires on { is_some (attached_feed (history_of_editor self.old) bus) ≡ true }
        requires room { length (history_of_editor self.old) < 2 ^ 62 }
        ensures history { history_of_editor self.new ≡ history_of_editor self.old ++ Off bus ∷ [] }
        ensures feed { attached_feed (history_of_editor self.old) bus ≡ Some result }
        ensures list { (list_of_editor self.new ≡ list_of_editor self.old)
            × (buses_of_editor self.new ≡ buses_of_editor self.old) }
    {
        self.list_editor.detach(rt, bus)
    }

    /// The number of edits so far.
    pub fn edits(&self) -> u64
        ensures { result ≡ length (history_of_editor self.now) }
    {
        self.list_editor.edits()
    }
}
