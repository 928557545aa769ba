ghost use Rattle.std.specs.Prelude.{◌≡◌, ◌↔◌, ◌++◌, ◌∷◌, ℕ, List, [], Ok, Err, Some, length, map, option_map, slice_get};
ghost use Rattle.toml.specs.Data.{Members};
ghost use Rattle.scene_model.specs.declared.bus_row.BusRow.{BusRow};
ghost use Rattle.scene_model.specs.declared.edit.EditRow.{EditRow};
ghost use Rattle.scene_model.specs.declared.node.Node.{Node};
ghost use Rattle.scene_model.specs.declared.resource.Resource.{Resource};
ghost use Rattle.scene_model.specs.Opening.{unwired};
ghost use Rattle.scene_model.specs.PlanData.{PlanData};
ghost use Rattle.scene_model.specs.SceneData.{SceneData};
ghost use Rattle.scene_script.specs.declared.fault.SceneFault.{SceneFault};
ghost use Rattle.scene_script.specs.declared.placed_edit.PlacedEdit.{PlacedEdit};
ghost use Rattle.scene_script.specs.BusRows.{bus_row, bus_rows};
ghost use Rattle.scene_script.specs.EditRows.{edit_row, edit_rows};
ghost use Rattle.scene_script.specs.FirstFault.{HasFirst, RefusesFirst};
ghost use Rattle.scene_script.specs.SceneLaws.{AreDistinct, AreDone};
ghost use Rattle.scene_script.specs.Wiring.{all_done, all_edits};
ghost use Rattle.scene_script.specs.Names.{endpoint, node_named, resource_named, target_named};
ghost use Rattle.scene_script.specs.NodeRows.{node_row, node_rows};
ghost use Rattle.scene_script.specs.ResourceRows.{resource_row, resource_rows};
ghost use Rattle.scene_script.specs.RowsRead.{AreReadInOrder};
ghost use Rattle.scene_script.specs.Script.{scene};

/// A law: the rows of a kind have a fault exactly where some row has it, by what the rows before it
/// give, and no row before it has one. The edits of a script are refused exactly where some edit is,
/// in the plan after those before it, and each of those is done.
pub fn faults_are_the_first()
    ensures resources { (rows : List Members) (f : SceneFault) → (resource_rows rows ≡ Err f) ↔ HasFirst resource_row [] rows f }
    ensures nodes { (resources : List Resource) (rows : List Members) (f : SceneFault) → (node_rows resources rows ≡ Err f) ↔ HasFirst (node_row resources) [] rows f }
    ensures buses { (nodes : List Node) (rows : List Members) (f : SceneFault) → (bus_rows nodes rows ≡ Err f) ↔ HasFirst (bus_row nodes) [] rows f }
    ensures edits { (nodes : List Node) (rows : List Members) (f : SceneFault) → (edit_rows nodes rows ≡ Err f) ↔ HasFirst (edit_row nodes) [] rows f }
    ensures made { (plan : PlanData) (edits : List PlacedEdit) (f : SceneFault) → (all_done plan edits ≡ Err f) ↔ RefusesFirst plan edits f }
{}

/// A law: rows that were read gave one value each, in order. A row's value stands at its place, and
/// is what the row says by the values of the rows before it.
pub fn rows_are_read_in_order()
    ensures resources { (rows : List Members) (all : List Resource) → resource_rows rows ≡ Ok all → AreReadInOrder resource_row rows all }
    ensures nodes { (resources : List Resource) (rows : List Members) (all : List Node) → node_rows resources rows ≡ Ok all → AreReadInOrder (node_row resources) rows all }
    ensures buses { (nodes : List Node) (rows : List Members) (all : List BusRow) → bus_rows nodes rows ≡ Ok all → AreReadInOrder (bus_row nodes) rows all }
    ensures edits { (nodes : List Node) (rows : List Members) (all : List EditRow) → edit_rows nodes rows ≡ Ok all → AreReadInOrder (edit_row nodes) rows all }
{}

/// A law: in a scene that was read no two resources have the same name, nor two nodes, and no node
/// that of the endpoint.
pub fn names_are_distinct()
    ensures resources { (text : List ℕ) (s : SceneData) → scene text ≡ Ok s → AreDistinct (map (λ (r : Resource). r.name) s.resources) }
    ensures nodes { (text : List ℕ) (s : SceneData) → scene text ≡ Ok s → AreDistinct (map (λ (n : Node). n.name) s.nodes ++ endpoint ∷ []) }
{}

/// A law: in a scene that was read a name refers to a resource or a node by its number exactly where
/// the one of that number has the name, and the word for the endpoint to the number after the last
/// node.
pub fn references_are_by_name()
    ensures resources { (text : List ℕ) (s : SceneData) → scene text ≡ Ok s → (name : List ℕ) (n : ℕ) →
        (resource_named s.resources name ≡ Some n) ↔ (option_map (λ (r : Resource). r.name) (slice_get s.resources n) ≡ Some name) }
    ensures nodes { (text : List ℕ) (s : SceneData) → scene text ≡ Ok s → (name : List ℕ) (n : ℕ) →
        (node_named s.nodes name ≡ Some n) ↔ (option_map (λ (x : Node). x.name) (slice_get s.nodes n) ≡ Some name) }
    ensures endpoint { (nodes : List Node) → target_named nodes endpoint ≡ Some (length nodes) }
{}

/// A law: in a scene that was read each edit that a row stands for is done, in the plan after those
/// before it.
pub fn edits_are_done()
    ensures { (text : List ℕ) (s : SceneData) → scene text ≡ Ok s → AreDone (unwired s.nodes) (all_edits s.buses s.edits) }
{}
