ghost use Rattle.std.specs.Prelude.{◌≡◌, ℕ, ◌+◌, ◌*◌, ◌<◌, ◌≤◌, ◌↔◌, SomeIff, IsTrue};
ghost use Rattle.chip_graph.specs.Limits.{max_total, max_limit};
ghost use Rattle.chip_sequence.specs.Bound.{greatest_degree, IsGreatestDistance, firing_bound};
ghost use Rattle.chip_sequence.specs.Certificate.{in_degree, HasFewIn};

use chip_graph::Graph;
use chip_graph::game::MAX_LIMIT;

/// A limit that stops no vertex of this graph if the game has `total` chips: the firing bound at the greatest distance
/// from the sink. `None` if that is above 2^40, the greatest limit.
pub fn enough(graph: &Graph, total: u64) -> Option<u64>
    requires { total ≤ max_total }
    ensures { (distance : ℕ) × IsGreatestDistance graph.now distance
        × SomeIff result (firing_bound total (greatest_degree graph.now) distance ≤ max_limit)
        (firing_bound total (greatest_degree graph.now) distance) }
{
    let degree = most_sent(graph);
    let mut bound = 0u64;
    for _ in 0..furthest(graph) {
        bound = next_bound(total, degree, bound)?;
    }
    Some(bound)
}

/// A limit that stops no vertex of this graph, by the distance alone: `total` times the greatest distance from the
/// sink. `None` if it is above 2^40, or if some vertex other than the sink has an in-degree above its degree, since it
/// may then fire more often.
pub fn enough_by_distance(graph: &Graph, total: u64) -> Option<u64>
    requires { total ≤ max_total }
    ensures { (distance : ℕ) × IsGreatestDistance graph.now distance
        × SomeIff result (HasFewIn graph.now × (total * distance ≤ max_limit)) (total * distance) }
{
    let distance = furthest(graph);
    if !has_few_in(graph) {
        return None;
    }
    let bound = total.checked_mul(distance)?;
    if bound <= MAX_LIMIT {
        Some(bound)
    } else {
        None
    }
}

/// Whether no in-degree but the sink's is above the vertex's degree.
fn has_few_in(graph: &Graph) -> bool
    ensures { IsTrue result ↔ HasFewIn graph.now }
{
    for vertex in 0..graph.vertices() {
        if vertex != graph.sink() && graph.out_degree(vertex) < in_degree(graph, vertex) {
            return false;
        }
    }
    true
}

/// The in-degree of a vertex: that many chips come into it if each tail fires once (Björner and Lovász, Chip-firing
/// games on directed graphs, 1992).
pub fn in_degree(graph: &Graph, vertex: u64) -> u64
    requires { vertex < graph.now.vertices }
    ensures { result ≡ in_degree graph.now vertex }
{
    let edges = graph.edges();
    let mut all = 0u64;
    for e in graph.ins(vertex) {
        all += edges[*e as usize].mult;
    }
    all
}

/// The bound one edge further from the sink, or `None` if it is above the greatest limit.
fn next_bound(total: u64, degree: u64, bound: u64) -> Option<u64>
    ensures { SomeIff result (total + degree * bound ≤ max_limit) (total + degree * bound) }
{
    let next = degree.checked_mul(bound)?.checked_add(total)?;
    if next <= MAX_LIMIT { Some(next) } else { None }
}

/// The greatest out-degree.
fn most_sent(graph: &Graph) -> u64
    ensures { result ≡ greatest_degree graph.now }
{
    let mut most = 0u64;
    for vertex in 0..graph.vertices() {
        most = most.max(graph.out_degree(vertex));
    }
    most
}

/// The greatest distance from the sink.
fn furthest(graph: &Graph) -> u64
    ensures { IsGreatestDistance graph.now result }
{
    let mut distance = 0u64;
    for vertex in 0..graph.vertices() {
        distance = distance.max(graph.distance(vertex));
    }
    distance
}
