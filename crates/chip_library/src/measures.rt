//! Many drops on a kept pile, and what is written of them.

ghost use Rattle.std.specs.Prelude.{◌≡◌, ◌↔◌, ℕ, ◌+◌, ◌<◌, ◌≤◌, ◌++◌, length, take, drop, sum, slice_index, slice_set, IsTrue, MatchBool, Ok};
ghost use Rattle.chip_graph.specs.Limits.{max_total};
ghost use Rattle.chip_fire.specs.Measured.{row_vertices, row_times};
ghost use Rattle.chip_library.specs.declared.kept.PileState.TheVariants.{Stable};
ghost use Rattle.chip_library.specs.Drops.{CanFall};
ghost use Rattle.chip_library.specs.KeptGames.{Plays};
ghost use Rattle.chip_library.specs.Measures.{measures_of, AreMeasures, AreAsked, MeasuresOnStable, MeasuresSome};
ghost use Rattle.chip_library.specs.Measures.{noted_on, fires_marked, fires_both, EndsRun};

use crate::drops::are_rows;
use crate::fault::CallFault;
use crate::kept::KeptPile;
use chip_fire::Measured;
use core::mem::replace_with;
use std::alloc::Global;

/// Whether the columns have one number per drop, or none where that is allowed, and the marks one per vertex, or none.
pub(crate) fn are_asked(
    kept: &KeptPile,
    at: &[u64],
    amounts: &[u64],
    marks: &[u64],
    sizes: &[u64],
    extents: &[u64],
    losts: &[u64],
    durations: &[u64],
    ends: &[u64],
    vertices: &[u64],
    times: &[u64],
) -> bool
    ensures { IsTrue result ↔ AreAsked kept.now.pile.game.graph at.now amounts.now marks.now
        (measures_of sizes.now extents.now losts.now durations.now ends.now vertices.now times.now) }
{
    (marks.is_empty() || marks.len() as u64 == kept.game().graph().vertices())
        && are_measures(
            at, amounts, sizes, extents, losts, durations, ends, vertices, times,
        )
}

/// Whether the columns have one number per drop, or none where that is allowed.
fn are_measures(
    at: &[u64],
    amounts: &[u64],
    sizes: &[u64],
    extents: &[u64],
    losts: &[u64],
    durations: &[u64],
    ends: &[u64],
    vertices: &[u64],
    times: &[u64],
) -> bool
    ensures { IsTrue result ↔ AreMeasures at.now amounts.now
        (measures_of sizes.now extents.now losts.now durations.now ends.now vertices.now times.now) }
{
    are_rows(at, amounts, sizes, extents, losts)
        && (durations.is_empty() || durations.len() == at.len())
        && (ends.len() == at.len() || (ends.is_empty() && vertices.is_empty()))
        && times.len() == vertices.len()
}

/// Makes drops that can fall on a stable pile, in order, until the limit stops one, there is no room for every vertex
/// once more, or a drop ends the run. Returns the number of drops made.
pub(crate) fn make_each(
    alloc: Global,
    kept: &mut KeptPile,
    at: &[u64],
    amounts: &[u64],
    loses: bool,
    marks: &[u64],
    sizes: &mut [u64],
    extents: &mut [u64],
    losts: &mut [u64],
    durations: &mut [u64],
    ends: &mut [u64],
    vertices: &mut [u64],
    times: &mut [u64],
) -> Result<u64, CallFault>
    requires played { Plays kept.old kept.old (Ok tt) }
    requires measures { AreMeasures at.now amounts.now
        (measures_of sizes.old extents.old losts.old durations.old ends.old vertices.old times.old) }
    requires can_fall { CanFall kept.old.pile.game at.now amounts.now (length at.now) }
    ensures { MeasuresSome kept.old kept.new at.now amounts.now (EndsRun loses marks.now)
        (measures_of sizes.old extents.old losts.old durations.old ends.old vertices.old times.old)
        (measures_of sizes.new extents.new losts.new durations.new ends.new vertices.new times.new) result }
{
    let timed = !durations.is_empty();
    let mut end = 0usize;
    let mut is_over = false;
    for drop in 0..at.len() {
        if is_over || lacks_room(kept, end, ends, vertices) {
            return Ok(drop as u64);
        }
        let falls = (alloc, at[drop], amounts[drop], timed);
        let Some(measured) = replace_with(kept, falls, one_drop) else {
            return Err(CallFault::Stopped(drop as u64));
        };
        sizes[drop] = measured.avalanche.size;
        extents[drop] = measured.avalanche.extent;
        losts[drop] = measured.avalanche.lost;
        write_if_any(durations, drop, measured.duration);
        end = write_row(kept, drop, end, ends, vertices, times);
        is_over = ends_run(kept, &measured, loses, marks);
    }
    Ok(at.len() as u64)
}

/// A stable pile after one more drop.
fn one_drop(kept: KeptPile, falls: (Global, u64, u64, bool)) -> (KeptPile, Option<Measured>)
    requires stable { kept.state ≡ Stable }
    requires is_vertex { falls.1 < kept.pile.game.graph.vertices }
    requires few_chips { sum kept.pile.game.start + falls.2 ≤ max_total }
    ensures { MeasuresOnStable kept result.0 falls.1 falls.2 falls.3 result.1 }
{
    let (alloc, vertex, count, timed) = falls;
    kept.measure_on_stable(alloc, vertex, count, timed)
}

/// Whether the last drop, with these measures, ends the run.
fn ends_run(kept: &KeptPile, measured: &Measured, loses: bool, marks: &[u64]) -> bool
    requires { kept.now.state ≡ Stable }
    ensures { (v count : ℕ) → MatchBool result
        (EndsRun loses marks.now (noted_on kept.now.pile v count measured.now))
        (EndsRun loses marks.now (noted_on kept.now.pile v count measured.now) → ⊥) }
{
    if loses && measured.avalanche.lost > 0 {
        return true;
    }
    let vertices = kept.row_vertices();
    fires_marked(marks, 1, vertices)
        || fires_both(marks, 2, 4, vertices)
        || fires_both(marks, 8, 16, vertices)
}

/// Whether one of these vertices has the first bit in its mark, and one the other.
fn fires_both(marks: &[u64], bit: u64, other: u64, vertices: &[u64]) -> bool
    ensures { result ≡ fires_both marks.now bit other vertices.now }
{
    fires_marked(marks, bit, vertices) && fires_marked(marks, other, vertices)
}

/// Whether one of these vertices has this bit in its mark.
fn fires_marked(marks: &[u64], bit: u64, vertices: &[u64]) -> bool
    ensures { result ≡ fires_marked marks.now bit vertices.now }
{
    !marks.is_empty()
        && vertices
            .iter()
            .any(|vertex| mark_of(marks, *vertex) & bit != 0)
}

/// The mark of a vertex, or 0 if it has none.
fn mark_of(marks: &[u64], vertex: u64) -> u64
    ensures { result ≡ slice_index marks.now vertex }
{
    if vertex < marks.len() as u64 {
        marks[vertex as usize]
    } else {
        0
    }
}

/// Whether the caller asks what fires, and there is no room for all vertices after `end`.
fn lacks_room(kept: &KeptPile, end: usize, ends: &[u64], vertices: &[u64]) -> bool
    requires { end ≤ length vertices.now }
    ensures { MatchBool result
        ((0 < length ends.now) × (length vertices.now < end + kept.now.pile.game.graph.vertices))
        (0 < length ends.now → end + kept.now.pile.game.graph.vertices ≤ length vertices.now) }
{
    !ends.is_empty() && ((vertices.len() - end) as u64) < kept.game().graph().vertices()
}

/// Writes a number into a column, unless that is empty.
fn write_if_any(column: &mut [u64], place: usize, number: u64)
    requires { 0 < length column.old → place < length column.old }
    ensures { column.new ≡ slice_set column.old place number }
{
    if !column.is_empty() {
        column[place] = number;
    }
}

/// Writes, from `end` on, the vertices that fired in the last drop and how often each did, if the caller asks for them.
/// Returns where they end.
fn write_row(
    kept: &KeptPile,
    place: usize,
    end: usize,
    ends: &mut [u64],
    vertices: &mut [u64],
    times: &mut [u64],
) -> usize
    requires stable { kept.now.state ≡ Stable }
    requires is_there { 0 < length ends.old → place < length ends.old }
    requires room { 0 < length ends.old → end + kept.now.pile.game.graph.vertices ≤ length vertices.old }
    requires times_each { length times.old ≡ length vertices.old }
    requires within { end ≤ length vertices.old }
    requires few { length (row_vertices kept.now.pile) ≤ kept.now.pile.game.graph.vertices }
    requires as_many { length (row_times kept.now.pile) ≡ length (row_vertices kept.now.pile) }
    ensures none { length ends.old ≡ 0
        → (result ≡ end) × (vertices.new ≡ vertices.old) × (times.new ≡ times.old) }
    ensures ends { ends.new ≡ slice_set ends.old place result }
    ensures end { 0 < length ends.old → result ≡ end + length (row_vertices kept.now.pile) }
    ensures within { result ≤ length vertices.new }
    ensures vertices { 0 < length ends.old
        → vertices.new ≡ take end vertices.old ++ row_vertices kept.now.pile ++ drop result vertices.old }
    ensures times { 0 < length ends.old
        → times.new ≡ take end times.old ++ row_times kept.now.pile ++ drop result times.old }
{
    if ends.is_empty() {
        return end;
    }
    let next = end + kept.row_vertices().len();
    write_from(vertices, end, kept.row_vertices());
    write_from(times, end, kept.row_times());
    ends[place] = next as u64;
    next
}

/// Writes numbers into a slice, from an index on.
fn write_from(slice: &mut [u64], from: usize, numbers: &[u64])
    requires { from + length numbers.now ≤ length slice.old }
    ensures { slice.new ≡ take from slice.old ++ numbers.now ++ drop (from + length numbers.now) slice.old }
{
    slice[from..from + numbers.len()].copy_from_slice(numbers);
}
