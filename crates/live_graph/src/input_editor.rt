ghost use Rattle.std.specs.Prelude.{◌≡◌, ◌<◌, ◌^◌, IfSome, None, Some, length};
ghost use Rattle.std.specs.Option.{option_map};
ghost use Rattle.node_graph.specs.ListChanges.{CanAttach, CanDetach};
ghost use Rattle.live_graph.specs.InputEditors.{EditorData, editor_data, entered};

use bus_list::Editor;
use node_graph::Feed;
use std::marker::Model;
use std::sync::Wait;

/// The side of an input's list that edits it. A sound, which has no input, has none.
#[derive(Drop)]
pub struct InputEditor {
    editor: Option<Editor<Feed>>,
}

impl Model for InputEditor {
    ghost use Rattle.std.specs.Prelude.{Option};
    ghost use Rattle.std.specs.Option.{option_map};
    ghost use Rattle.live_graph.specs.InputEditors.{EditorData, editor_data};

    ghost Value = { Option EditorData };

    ghost view = { λ i. option_map editor_data i.editor };
}

impl InputEditor {
    ghost use Rattle.bus_list.specs.declared.history.Entry.TheVariants.{On, Off};

    /// What stands for a sound.
    pub(crate) fn none() -> Self
        ensures { result ≡ None }
    {
        InputEditor { editor: None }
    }

    /// The editor of an input.
    pub(crate) fn new(editor: Editor<Feed>) -> Self
        ensures { result ≡ Some (editor_data editor) }
    {
        InputEditor {
            editor: Some(editor),
        }
    }

    /// The editor itself, if there is one.
    pub(crate) fn into_editor(self) -> Option<Editor<Feed>>
        ensures { option_map editor_data result ≡ self }
    {
        self.editor
    }

    /// Puts a bus at the front of the list.
    pub(crate) fn attach(&mut self, feed: Feed)
        requires free { IfSome self.old (λ d. CanAttach feed.bus d.list) }
        requires room { IfSome self.old (λ d. length d.list.history < 2 ^ 62) }
        ensures { self.new ≡ option_map (entered (On feed.bus feed)) self.old }
    {
        if let Some(editor) = &mut self.editor {
            editor.attach(feed.bus, feed);
        }
    }

    /// Takes a bus out of the list, and waits until no visit can stand on it any more.
    pub(crate) fn detach<R: Wait>(&mut self, rt: &R, bus: u32)
        requires on { IfSome self.old (λ d. CanDetach bus d.list) }
        requires room { IfSome self.old (λ d. length d.list.history < 2 ^ 62) }
        ensures { self.new ≡ option_map (entered (Off bus)) self.old }
    {
        if let Some(editor) = &mut self.editor {
            editor.detach(rt, bus);
        }
    }
}
