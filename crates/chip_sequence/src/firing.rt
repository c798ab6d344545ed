ghost use Rattle.std.specs.Prelude.{◌≡◌, ℕ, ◌+◌, ◌*◌, ◌<◌, ◌≤◌, ◌==◌, ◌↔◌, ◌⊎◌, if◌then◌else◌, All, length, sum};
ghost use Rattle.std.specs.Prelude.{sum_by, replicate, slice_index, IsErr, OnOk, OnErr};
ghost use Rattle.chip_graph.specs.Limits.{max_total};
ghost use Rattle.chip_graph.specs.Multigraph.{IsGraph, degree};
ghost use Rattle.chip_sequence.specs.Sequence.{position_after};

use chip_graph::{Graph, Link};
use thiserror::Error;

/// A vertex may not fire (topple) this often: it is the sink, has too few chips, or `k` is 0.
#[derive(Clone, Copy, Debug, Error)]
#[error("the vertex is not legal")]
pub struct NotLegal;

impl NotLegal {
    /// The fault's number in the table of faults.
    pub fn number(&self) -> u64
        ensures { result ≡ 40 }
    {
        40
    }
}

/// Fires a vertex `k` times in a row, if it may. Otherwise the configuration is unchanged.
pub fn fire(position: &mut [u64], graph: &Graph, vertex: u64, k: u64) -> Result<(), NotLegal>
    requires is_vertex { vertex < graph.now.vertices }
    requires one_each { length position.old ≡ graph.now.vertices }
    requires few_chips { sum position.old ≤ max_total }
    ensures refused { IsErr result
        ↔ ((vertex ≡ graph.now.sink) ⊎ (k ≡ 0) ⊎ (slice_index position.old vertex < k * degree graph.now vertex)) }
    ensures fired { OnOk result ((u : ℕ) → slice_index position.new u
        ≡ position_after graph.now (slice_index position.old) (replicate k vertex) u) }
    ensures kept { OnOk result (sum position.new ≡ sum position.old) }
    ensures unchanged { OnErr result (position.new ≡ position.old) }
{
    if vertex == graph.sink()
        || k == 0
        || position[vertex as usize] / graph.out_degree(vertex) < k
    {
        return Err(NotLegal);
    }
    fire_batch(position, graph, vertex, k);
    Ok(())
}

/// Fires a vertex `k` times in a row: `fire` without its test, for a player that has just compared the chips.
#[inline]
pub fn fire_batch(position: &mut [u64], graph: &Graph, vertex: u64, k: u64)
    requires graph_fits { IsGraph graph.now }
    requires is_vertex { vertex < graph.now.vertices }
    requires not_sink { vertex ≡ graph.now.sink → ⊥ }
    requires one_each { length position.old ≡ graph.now.vertices }
    requires few_chips { sum position.old ≤ max_total }
    requires enough_chips { k * degree graph.now vertex ≤ slice_index position.old vertex }
    ensures fired { (u : ℕ) → slice_index position.new u
        ≡ position_after graph.now (slice_index position.old) (replicate k vertex) u }
    ensures kept { sum position.new ≡ sum position.old }
{
    position[vertex as usize] -= k * graph.out_degree(vertex);
    send(position, graph.links(vertex), k);
}

/// Adds to each head what its edge brings in `k` firings.
#[inline]
fn send(position: &mut [u64], links: &[Link], k: u64)
    requires heads { All (λ e. e.head < length position.old) links.now }
    requires room { sum position.old + k * sum_by (λ e. e.mult) links.now ≤ max_total }
    ensures each { (u : ℕ) → slice_index position.new u
        ≡ slice_index position.old u + k * sum_by (λ e. if e.head == u then e.mult else 0) links.now }
    ensures all { sum position.new ≡ sum position.old + k * sum_by (λ e. e.mult) links.now }
{
    for link in links {
        position[link.head as usize] += k * u64::from(link.mult);
    }
}
