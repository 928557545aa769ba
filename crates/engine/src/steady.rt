//! How far a span goes.

ghost use Rattle.std.specs.Prelude.{◌≡◌, ◌≤◌, ◌<◌, ◌-◌};
ghost use Rattle.scene_model.specs.PlanData.{PlanData};
ghost use Rattle.mix_model.specs.Spans.{IsSteady, IsApart};

use scene_model::NodeState;

/// The end of the span that begins at `time`: the first frame after it at which a node begins or
/// ceases to be active, or `end` where that comes first.
pub(crate) fn span_end(nodes: &[NodeState], time: u32, end: u32) -> u32
    requires { time < end }
    ensures after { time < result }
    ensures within { result ≤ end }
    ensures steady { (p : PlanData) → p.nodes ≡ nodes.now → IsSteady p time (result - time) }
{
    let mut until = end;
    for node in nodes {
        until = bounded(node.from, time, bounded(node.until, time, until));
    }
    until
}

/// `until`, or the edge where that lies between.
fn bounded(edge: u32, time: u32, until: u32) -> u32
    requires { time < until }
    ensures after { time < result }
    ensures within { result ≤ until }
    ensures apart { IsApart edge time result }
{
    if time < edge && edge < until {
        edge
    } else {
        until
    }
}
