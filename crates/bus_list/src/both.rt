ghost use Rattle.std.specs.Prelude.{List, ◌≡◌, ℕ, ◌+◌, ◌^◌, ◌<◌, ◌≤◌, [], ◌∷◌, ◌++◌, true, false, length, is_some, Some, None};
ghost use Rattle.bus_list.specs.Seats.{IsAt, IsPassOf};
ghost use Rattle.bus_list.specs.PassStates.{IsResting};
ghost use Rattle.bus_list.specs.Rule.{first_links, first_view};

use crate::editor::Editor;
use crate::list_editor::ListEditor;
use crate::pass::Pass;
use crate::table::{ListSeat, ListTable};

/// A list whose two sides are in one hand, so that no visit runs while it is edited.
#[derive(Drop)]
pub struct Both<T> {
    list_editor: ListEditor<T>,
    table: ListTable<T>,
    ghost pass: { IsPassOf table list_editor.seat × (table.buses ≡ list_editor.table.buses) },
    ghost resting: { IsResting list_editor.table.buses list_editor.seat.me.0.reading },
}

impl<T> Both<T> {
    ghost use Rattle.bus_list.specs.declared.history.Entry.TheVariants.{On, Off};
    ghost use Rattle.bus_list.specs.Visits.{attached_feed, LawfulFrom};
    ghost use Rattle.bus_list.specs.PassViews.{is_visiting, is_whole, visits_of, start_of, last_count_of, list_of_pass, buses_of_pass};
    ghost use Rattle.bus_list.specs.ListViews.{history_of, buses_of_list, history_of_editor, buses_of_editor, OneList};

    /// The list of a new table, whose first seat is `seat`. The copy of its links is `links`.
    pub(crate) fn new(
        table: ListTable<T>,
        other: ListTable<T>,
        seat: ListSeat<T>,
        links: Vec<u32>,
    ) -> Both<T>
        requires tables { IsAt table seat × IsAt other seat × (other.buses ≡ table.buses) }
        requires links { links.items ≡ first_links table.buses }
        requires seat { seat.me ≡ (first_view table.buses, []) }
        ensures { (history_of result ≡ []) × (buses_of_list result ≡ table.buses) }
    {
        Both {
            list_editor: ListEditor::new(table, links, seat),
            table: other,
        }
    }

    /// Puts a bus that isn't attached at the front of the list, with its feed.
    pub fn attach(&mut self, bus: u32, feed: T)
        requires bus { bus < buses_of_list self.old }
        requires off { attached_feed (history_of self.old) bus ≡ None }
        requires room { length (history_of self.old) < 2 ^ 62 }
        ensures history { history_of self.new ≡ history_of self.old ++ On bus feed ∷ [] }
        ensures buses { buses_of_list self.new ≡ buses_of_list self.old }
    {
        self.list_editor.attach(bus, feed);
    }

    /// Takes an attached bus out of the list, and gives the feed with which it was attached. It waits
    /// for nobody, since no visit is open.
    pub fn detach(&mut self, bus: u32) -> T
        requires bus { bus < buses_of_list self.old }
        requires on { is_some (attached_feed (history_of self.old) bus) ≡ true }
        requires room { length (history_of self.old) < 2 ^ 62 }
        ensures history { history_of self.new ≡ history_of self.old ++ Off bus ∷ [] }
        ensures feed { attached_feed (history_of self.old) bus ≡ Some result }
        ensures buses { buses_of_list self.new ≡ buses_of_list self.old }
    {
        self.list_editor.detach_now(bus)
    }

    /// Parts the two sides. The pass has seen the whole history, and has no visits.
    pub fn split(self) -> (Editor<T>, Pass<T>)
        ensures history { history_of_editor result.0 ≡ history_of self }
        ensures pass { (visits_of result.1 ≡ []) × (is_visiting result.1 ≡ false)
            × (start_of result.1 ≡ length (history_of self))
            × (last_count_of result.1 ≡ length (history_of self)) }
        ensures list { OneList result.0 result.1 × (buses_of_editor result.0 ≡ buses_of_list self)
            × (buses_of_pass result.1 ≡ buses_of_list self) }
    {
        let Both {
            mut list_editor,
            table,
        } = self;
        let seat = list_editor.split();
        let pass = Pass::new(table, seat);
        (Editor { list_editor }, pass)
    }

    /// Puts the two sides of one list together again. Each visit of the pass was lawful in the
    /// editor's history, and none began before the one before it ended.
    pub fn join(editor: Editor<T>, pass: Pass<T>) -> Both<T>
        requires list { OneList editor pass }
        requires shut { is_visiting pass ≡ false }
        ensures history { history_of result ≡ history_of_editor editor }
        ensures buses { buses_of_list result ≡ buses_of_editor editor }
        ensures lawful { LawfulFrom (history_of_editor editor) (start_of pass) (visits_of pass) (last_count_of pass) }
    {
        let Editor { mut list_editor } = editor;
        let (table, seat) = pass.into_parts();
        list_editor.join(seat);
        Both { list_editor, table }
    }
}
