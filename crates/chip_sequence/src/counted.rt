ghost use Rattle.std.specs.Prelude.{◌≡◌, ℕ, ◌+◌, ◌*◌, ◌<◌, ◌≤◌, length, sum, slice_index, MatchResult, MatchOption};
ghost use Rattle.std.specs.Prelude.{OnErr};
ghost use Rattle.chip_graph.specs.Limits.{max_total};
ghost use Rattle.chip_graph.specs.Multigraph.{degree, IsGraph};
ghost use Rattle.chip_sequence.specs.Counted.{inflow, IsBelowZero, IsLeastBelowZero, IsAfter, game_from};
ghost use Rattle.chip_sequence.specs.Faults.{IsNegative, IsNegativeOrMemory};

use chip_graph::{Game, Graph};
use std::alloc::{AllocError, Global};
use thiserror::Error;

/// Why counts (an odometer) lead to no configuration.
#[derive(Clone, Copy, Debug, Error)]
pub enum AfterFault {
    /// The least vertex that would have sent more chips than it had and got.
    #[error("vertex {0} would be below 0")]
    Negative(u64),
    /// Memory ran out.
    #[error("out of memory")]
    NoMemory,
}

impl AfterFault {
    ghost use Rattle.chip_sequence.specs.Faults.{after_fault_number};

    /// The fault's number in the table of faults.
    pub fn number(&self) -> u64
        ensures { result ≡ after_fault_number self.now }
    {
        match self {
            AfterFault::Negative(_) => 41,
            AfterFault::NoMemory => 90,
        }
    }
}

impl From<AllocError> for AfterFault {
    ghost use Rattle.std.specs.Prelude.{◌≡◌};
    ghost use Rattle.chip_sequence.specs.declared.counted.AfterFault.TheVariants.{NoMemory};

    ghost from_gives = { λ _ fault. fault ≡ NoMemory };

    fn from(_error: AllocError) -> AfterFault {
        AfterFault::NoMemory
    }
}

/// The chips of each vertex after it fired as often as `fired` says, in any order. The counts may be any, also those of
/// no firing sequence. Fails if some vertex would have fewer than 0 chips, and without memory.
pub fn after(alloc: Global, game: &Game, fired: &[u64]) -> Result<Vec<u64>, AfterFault>
    requires { length fired.now ≡ game.now.graph.vertices }
    ensures { MatchResult result (λ chips. IsAfter game.now fired.now chips.items)
        (IsNegativeOrMemory game.now fired.now) }
{
    let mut chips = vec![in alloc; 0; fired.len()]?;
    after_into(game, fired, &mut chips)?;
    Ok(chips)
}

/// Writes the result of `after` into a slice with a number for each vertex. Allocates nothing; on a fault the slice is
/// unchanged.
pub fn after_into(game: &Game, fired: &[u64], into: &mut [u64]) -> Result<(), AfterFault>
    requires counts_each { length fired.now ≡ game.now.graph.vertices }
    requires chips_each { length into.old ≡ game.now.graph.vertices }
    ensures cases { MatchResult result (λ _. IsAfter game.now fired.now into.new) (IsNegative game.now fired.now) }
    ensures unchanged { OnErr result (into.new ≡ into.old) }
{
    after_from(game.graph(), game.start(), fired, into)
}

/// Does what `after_into` does, for a graph and the chips of each vertex at the start, at most 2^40 in all.
pub fn after_from(
    graph: &Graph,
    start: &[u64],
    fired: &[u64],
    into: &mut [u64],
) -> Result<(), AfterFault>
    requires start_each { length start.now ≡ graph.now.vertices }
    requires few_chips { sum start.now ≤ max_total }
    requires counts_each { length fired.now ≡ graph.now.vertices }
    requires chips_each { length into.old ≡ graph.now.vertices }
    ensures cases { (limit : ℕ) → let game = game_from graph.now start.now limit in
        MatchResult result (λ _. IsAfter game fired.now into.new) (IsNegative game fired.now) }
    ensures unchanged { OnErr result (into.new ≡ into.old) }
{
    if let Some(vertex) = first_negative(graph, start, fired) {
        return Err(AfterFault::Negative(vertex));
    }
    for (vertex, chips) in into.iter_mut().enumerate() {
        let (had, spent) = income_and_cost(graph, start, fired, vertex as u64);
        *chips = (had - spent) as u64;
    }
    Ok(())
}

/// The least vertex that would be below 0.
fn first_negative(graph: &Graph, start: &[u64], fired: &[u64]) -> Option<u64>
    requires start_each { length start.now ≡ graph.now.vertices }
    requires few_chips { sum start.now ≤ max_total }
    requires counts_each { length fired.now ≡ graph.now.vertices }
    ensures graph { IsGraph graph.now }
    ensures least { MatchOption result
        ((v : ℕ) → v < graph.now.vertices → IsBelowZero graph.now (slice_index start.now) (slice_index fired.now) v → ⊥)
        (IsLeastBelowZero graph.now (slice_index start.now) (slice_index fired.now)) }
{
    for vertex in 0..graph.vertices() {
        let (had, spent) = income_and_cost(graph, start, fired, vertex);
        if had < spent {
            return Some(vertex);
        }
    }
    None
}

/// The number of chips that a vertex has at the start and gets along its edges, and the number that its firings take.
fn income_and_cost(graph: &Graph, start: &[u64], fired: &[u64], vertex: u64) -> (u128, u128)
    requires is_vertex { vertex < graph.now.vertices }
    requires start_each { length start.now ≡ graph.now.vertices }
    requires few_chips { sum start.now ≤ max_total }
    requires counts_each { length fired.now ≡ graph.now.vertices }
    ensures had { result.0 ≡ slice_index start.now vertex + inflow graph.now (slice_index fired.now) vertex }
    ensures spent { result.1 ≡ degree graph.now vertex * slice_index fired.now vertex }
{
    let edges = graph.edges();
    let mut had = u128::from(start[vertex as usize]);
    for e in graph.ins(vertex) {
        let edge = edges[*e as usize];
        had += u128::from(edge.mult) * u128::from(fired[edge.tail as usize]);
    }
    let spent = u128::from(graph.out_degree(vertex)) * u128::from(fired[vertex as usize]);
    (had, spent)
}
