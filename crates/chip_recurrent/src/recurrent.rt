//! Which rows are recurrent, by the burning test.

ghost use Rattle.std.specs.Prelude.{◌≡◌, ℕ, ◌*◌, length, slice_index, MatchResult};
ghost use Rattle.chip_graph.specs.Multigraph.{IsGraph};
ghost use Rattle.chip_group.specs.Recurrent.{IsBurningScript};
ghost use Rattle.chip_recurrent.specs.Recurrents.{IsTested, IsFaultOfTest, AreTested, IsFaultOfTests};
ghost use Rattle.chip_recurrent.specs.Recurrents.{AreTestedBy, IsFirstFaultOfTests};

use crate::burning::burning_script;
use crate::fault::RowFault;
use crate::rows::{agree_off_sink, is_stable};
use crate::stabilization::stabilize_on;
use chip_graph::Graph;
use std::alloc::Global;

/// A flag for each of `rows` configurations: 1 if it is recurrent, else 0. `chips` has one number per vertex of each,
/// configuration after configuration.
pub fn are_recurrent(
    alloc: Global,
    mut graph: Graph,
    chips: &[u64],
    rows: usize,
) -> Result<Vec<u64>, RowFault>
    requires { length chips.now ≡ rows * graph.vertices }
    ensures { MatchResult result (λ flags. AreTested graph chips.now rows flags.items)
        (IsFaultOfTests graph chips.now rows) }
{
    let burning = burning_script(alloc, &mut graph)?;
    each_test(alloc, graph, &burning.chips, chips, rows)
}

/// The same, by the chips of a burning script.
fn each_test(
    alloc: Global,
    mut graph: Graph,
    burning: &[u64],
    chips: &[u64],
    rows: usize,
) -> Result<Vec<u64>, RowFault>
    requires graph { IsGraph graph }
    requires chips_each { length chips.now ≡ rows * graph.vertices }
    requires script { (s : ℕ → ℕ) × IsBurningScript graph s (slice_index burning.now) }
    ensures { MatchResult result (λ flags. AreTestedBy graph (slice_index burning.now) chips.now rows flags.items)
        (IsFirstFaultOfTests graph (slice_index burning.now) chips.now rows) }
{
    let vertices = graph.vertices() as usize;
    let mut flags = Vec::with_capacity(alloc, rows)?;
    let mut rest = chips;
    for number in 0..rows {
        let (these, later) = rest.split_at(vertices);
        let flag = burning_test(alloc, &mut graph, burning, these, number as u64)?;
        flags.push(flag)?;
        rest = later;
    }
    Ok(flags)
}

/// 1 if this row is recurrent, else 0: stable, and the stabilization of its sum with the chips of a burning script. The
/// graph is unchanged at the end.
pub(crate) fn burning_test(
    alloc: Global,
    graph: &mut Graph,
    burning: &[u64],
    chips: &[u64],
    row: u64,
) -> Result<u64, RowFault>
    requires graph { IsGraph graph.old }
    requires chips_each { length chips.now ≡ graph.old.vertices }
    requires script { (s : ℕ → ℕ) × IsBurningScript graph.old s (slice_index burning.now) }
    ensures graph { graph.new ≡ graph.old }
    ensures flag { MatchResult result (IsTested graph.old (slice_index burning.now) (slice_index chips.now))
        (IsFaultOfTest graph.old (slice_index burning.now) (slice_index chips.now) row) }
{
    if !is_stable(graph, chips) {
        return Ok(0);
    }
    let end = stabilize_on(alloc, graph, chips, burning, row)?;
    Ok(u64::from(agree_off_sink(graph, &end.chips, chips)))
}
