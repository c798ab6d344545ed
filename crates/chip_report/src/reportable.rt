//! The stages that can be reported.

ghost use Rattle.std.specs.Prelude.{◌≡◌, ◌↔◌, true, Contains};
ghost use Rattle.std.specs.List.Sorted.{IsStrictlyIncreasing};
ghost use Rattle.chip_sequence.specs.Outcomes.{IsOutcome};
ghost use Rattle.chip_sequence.specs.Stages.{IsResumed};
ghost use Rattle.chip_report.specs.OutcomeParts.{AreReportCounts, IsAscendingBelow, AreDisjoint, AreHalted};

use chip_graph::{MAX_LIMIT, MAX_TOTAL, MAX_VERTICES};
use chip_sequence::{MAX_PRIOR, Outcome, Resumed};

/// Whether the numbers are in range, one of each list for each vertex.
pub(crate) fn is_resumed(resumed: &Resumed) -> bool
    ensures { (result ≡ true) ↔ IsResumed resumed.now }
{
    let Resumed { outcome, prior } = resumed;
    is_outcome(outcome)
        && prior.len() == outcome.fired.len()
        && prior.iter().all(|number| *number <= MAX_PRIOR)
}

/// Whether the numbers are in range, and the halted vertices two ascending lists with none in both.
fn is_outcome(outcome: &Outcome) -> bool
    ensures { (result ≡ true) ↔ IsOutcome outcome.now }
{
    let vertices = outcome.fired.len();
    are_counts(&outcome.fired, vertices, MAX_LIMIT)
        && are_counts(&outcome.chips, vertices, MAX_TOTAL)
        && are_halted(&outcome.over, &outcome.sealed, vertices as u64)
}

/// Whether the numbers are one for each vertex, none above `most`.
fn are_counts(numbers: &[u64], vertices: usize, most: u64) -> bool
    ensures { (result ≡ true) ↔ AreReportCounts numbers.now vertices most }
{
    numbers.len() == vertices
        && 0 < vertices
        && vertices as u64 <= MAX_VERTICES
        && numbers.iter().all(|number| *number <= most)
}

/// Whether the lists of halted vertices ascend, with none in both.
fn are_halted(over: &[u64], sealed: &[u64], vertices: u64) -> bool
    ensures { (result ≡ true) ↔ AreHalted over.now sealed.now vertices }
{
    is_ascending_below(over, vertices)
        && is_ascending_below(sealed, vertices)
        && are_apart(over, sealed)
}

/// Whether vertices ascend, below their number.
fn is_ascending_below(list: &[u64], vertices: u64) -> bool
    ensures { (result ≡ true) ↔ IsAscendingBelow list.now vertices }
{
    is_ascending(list) && list.iter().all(|vertex| *vertex < vertices)
}

/// Whether each number is below the next.
fn is_ascending(list: &[u64]) -> bool
    ensures { (result ≡ true) ↔ IsStrictlyIncreasing list.now }
{
    list.is_sorted_by(|one, next| one < next)
}

/// Whether no vertex is in both of two lists, of which the second ascends.
fn are_apart(over: &[u64], sealed: &[u64]) -> bool
    requires { IsStrictlyIncreasing sealed.now }
    ensures { (result ≡ true) ↔ AreDisjoint over.now sealed.now }
{
    for vertex in over {
        if is_in(sealed, *vertex) {
            return false;
        }
    }
    true
}

/// Whether a vertex is in an ascending list.
pub fn is_in(list: &[u64], vertex: u64) -> bool
    requires { IsStrictlyIncreasing list.now }
    ensures { (result ≡ true) ↔ Contains list.now vertex }
{
    list.binary_search(&vertex).is_ok()
}
