ghost use Rattle.std.specs.Prelude.{◌≡◌, ◌≤◌, ◌<◌, ◌^◌, IfOk, IfSome, IsTrue, length};
ghost use Rattle.toml.specs.View.{table_view};
ghost use Rattle.scene_model.specs.IsScene.{is_edit, is_edit_row};
ghost use Rattle.scene_model.specs.Limits as limits;
ghost use Rattle.scene_script.specs.EditRows as spec;
ghost use Rattle.scene_script.specs.KeysRead.{IsEditKeys};

use crate::bounds::Bounds;
use crate::fault::{SceneFault, Which};
use crate::fields::{number, number_or, output};
use crate::limits::LAST_EDITOR;
use crate::names::{known_name, node_at, target_at};
use crate::op_word::OpWord;
use crate::place::Place;
use scene_model::{Edit, EditRow, MAX_LENGTH, Node};
use toml::Table;

const AT: Bounds = Bounds {
    which: Which::At,
    least: 0,
    most: MAX_LENGTH as u64,
};

const EDITOR: Bounds = Bounds {
    which: Which::Editor,
    least: 0,
    most: LAST_EDITOR as u64,
};

/// The keys of a row of `edit` beside its op, as far as the op has them. The node and the target are
/// the numbers of those that are named, where there are such.
#[derive(Clone, Copy)]
pub(crate) struct EditKeys {
    pub(crate) at: u32,
    pub(crate) node: Option<u32>,
    pub(crate) out: u8,
    pub(crate) to: Option<u32>,
    pub(crate) value: u64,
    pub(crate) editor: u8,
}

impl EditKeys {
    #[tactic(auto, unfolding(crate::specs::EditRows::edit_keys))]
    pub(crate) fn read(
        row: &Table,
        place: Place,
        nodes: &[Node],
        op: OpWord,
    ) -> Result<EditKeys, SceneFault>
        requires { length nodes.now ≤ limits.most_nodes }
        ensures value { result ≡ spec.edit_keys place nodes.now op (table_view row.now) }
        ensures are { IfOk result (λ k. IsEditKeys (length nodes.now) op k) }
    {
        let at = number(row, place, "at", AT)?;
        let node = node_at(row, place, nodes, "node")?;
        let out = output(row, place)?;
        let to = to_at(row, place, nodes, op)?;
        let value = value_at(row, place, op)?;
        let editor = number_or(row, place, "editor", EDITOR, 0)?;
        Ok(EditKeys {
            at: at as u32,
            node,
            out,
            to,
            value,
            editor: editor as u8,
        })
    }

    /// The row, where its names are those of rows.
    #[tactic(auto, unfolding(crate::specs::EditRows::known_edit))]
    pub(crate) fn known(self, place: Place, op: OpWord, nodes: usize) -> Result<EditRow, SceneFault>
        requires { IsEditKeys nodes op self }
        ensures value { result ≡ spec.known_edit place op self }
        ensures is_row { IfOk result (λ e. IsTrue (is_edit_row nodes e)) }
    {
        let node = known_name(place, self.node)?;
        let edit = self.edit(place, op, node, nodes)?;
        Ok(EditRow {
            at: self.at,
            editor: self.editor,
            edit,
        })
    }

    /// The edit that the op stands for, at that node, where its target is known.
    fn edit(self, place: Place, op: OpWord, node: u32, nodes: usize) -> Result<Edit, SceneFault>
        requires keys { IsEditKeys nodes op self }
        requires node { node < nodes }
        ensures value { result ≡ spec.edit_of place op self node }
        ensures is_edit { IfOk result (λ e. IsTrue (is_edit nodes e)) }
    {
        let (out, value) = (self.out, self.value);
        match op {
            OpWord::Attach => {
                let to = known_name(place, self.to)?;
                Ok(Edit::Attach { node, out, to })
            }
            OpWord::Detach => Ok(Edit::Detach { node, out }),
            OpWord::Gain => Ok(Edit::SetGain {
                node,
                out,
                gain: value as u32,
            }),
            OpWord::Start => Ok(Edit::Start { node }),
            OpWord::Stop => Ok(Edit::Stop { node }),
            OpWord::From => Ok(Edit::From {
                node,
                value: value as u32,
            }),
            OpWord::Until => Ok(Edit::Until {
                node,
                value: value as u32,
            }),
            OpWord::Seek => Ok(Edit::Seek { node, place: value }),
            OpWord::Loop => Ok(Edit::Loop {
                node,
                on: value == 1,
            }),
        }
    }
}

/// The target that the op has at `to`, if it has one.
fn to_at(row: &Table, place: Place, nodes: &[Node], op: OpWord) -> Result<Option<u32>, SceneFault>
    requires { length nodes.now ≤ limits.most_nodes }
    ensures value { result ≡ spec.to_at place nodes.now op (table_view row.now) }
    ensures below { IfOk result (λ r. IfSome r (λ n. n ≤ length nodes.now)) }
{
    match op {
        OpWord::Attach => target_at(row, place, nodes, "to"),
        _ => Ok(None),
    }
}

/// The value, which is 0 where the op has none.
#[tactic(auto, unfolding(crate::specs::EditRows::value_at))]
fn value_at(row: &Table, place: Place, op: OpWord) -> Result<u64, SceneFault>
    ensures value { result ≡ spec.value_at place op (table_view row.now) }
    ensures most { IfOk result (λ n. IfSome (spec.most_value op) (λ greatest. n ≤ greatest)) }
{
    match op.most_value() {
        Some(most) => value_up_to(row, place, most),
        None => Ok(0),
    }
}

/// The value, up to the greatest one.
fn value_up_to(row: &Table, place: Place, most: u64) -> Result<u64, SceneFault>
    requires { most < 2 ^ 63 }
    ensures value { result ≡ spec.value_up_to place (Some most) (table_view row.now) }
    ensures most { IfOk result (λ n. n ≤ most) }
{
    let bounds = Bounds {
        which: Which::Value,
        least: 0,
        most,
    };
    number(row, place, "value", bounds)
}
