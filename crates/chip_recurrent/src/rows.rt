ghost use Rattle.std.specs.Prelude.{◌≡◌, ◌↔◌, ℕ, length, slice_index, IsTrue};
ghost use Rattle.chip_sequence.specs.Firing.{IsStable};
ghost use Rattle.chip_graph.specs.Multigraph.{IsGraph};
ghost use Rattle.chip_group.specs.Recurrent.{AgreeOffSink};

use chip_fire::is_legal;
use chip_graph::Graph;

/// Whether no vertex is legal.
pub(crate) fn is_stable(graph: &Graph, chips: &[u64]) -> bool
    requires { length chips.now ≡ graph.now.vertices }
    ensures { IsTrue result ↔ IsStable graph.now (slice_index chips.now) }
{
    for vertex in 0..graph.vertices() {
        if is_legal(graph, chips, vertex) {
            return false;
        }
    }
    true
}

/// Whether both agree on each vertex but the sink.
pub fn agree_off_sink(graph: &Graph, chips: &[u64], others: &[u64]) -> bool
    requires chips_each { length chips.now ≡ graph.now.vertices }
    requires others_each { length others.now ≡ graph.now.vertices }
    ensures graph { IsGraph graph.now }
    ensures agree { IsTrue result ↔ AgreeOffSink graph.now (slice_index chips.now) (slice_index others.now) }
{
    for vertex in 0..graph.vertices() {
        if vertex != graph.sink() && chips[vertex as usize] != others[vertex as usize] {
            return false;
        }
    }
    true
}
