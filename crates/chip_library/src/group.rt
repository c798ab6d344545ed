//! Burning scripts, recurrent and superstable configurations, and the identity of the sandpile group.

ghost use Rattle.std.specs.Prelude.{◌≡◌, ◌↔◌, ◌*◌, length, IsTrue};
ghost use Rattle.chip_library.specs.GroupCalls.{HasRows, FindsBurning, TestsRows, FindsForms, FindsIdentity, DrawsRows};

use crate::edges::EdgeLists;
use crate::fault::CallFault;
use chip_recurrent::{Form, RowFault};
use std::alloc::Global;

/// Writes the least burning script and its chips: how many each vertex loses on balance when all fire by the script.
///
/// Both slices have one number per vertex; 0 is written at the sink. On a fault both are unchanged.
pub fn burning(
    alloc: Global,
    edges: EdgeLists<'_>,
    script: &mut [u64],
    chips: &mut [u64],
) -> Result<(), CallFault>
    ensures { FindsBurning edges.entry script.old chips.old script.new chips.new result }
{
    if !has_rows(edges, 1, script) || !has_rows(edges, 1, chips) {
        return Err(CallFault::Lengths);
    }
    let mut graph = edges.graph(alloc)?;
    let found = chip_recurrent::burning_script(alloc, &mut graph)?;
    script.copy_from_slice(&found.script);
    chips.copy_from_slice(&found.chips);
    Ok(())
}

/// Writes a flag for each configuration: 1 if it is recurrent, else 0.
///
/// `flags` has one number per configuration, `chips` one per vertex of each, configuration after configuration. Numbers
/// at the sink do not count. On a fault `flags` is unchanged.
pub fn are_recurrent(
    alloc: Global,
    edges: EdgeLists<'_>,
    chips: &[u64],
    flags: &mut [u64],
) -> Result<(), CallFault>
    ensures { TestsRows edges.entry chips.now flags.old flags.new result }
{
    if !has_rows(edges, flags.len(), chips) {
        return Err(CallFault::Lengths);
    }
    let graph = edges.graph(alloc)?;
    let found = chip_recurrent::are_recurrent(alloc, graph, chips, flags.len())?;
    flags.copy_from_slice(&found);
    Ok(())
}

/// Replaces each of `rows` configurations by its representative of this form, with 0 at the sink.
///
/// `chips` has one number per vertex of each, configuration after configuration. They need not be stable. Numbers at
/// the sink do not count. On a fault `chips` is unchanged.
pub fn representatives(
    alloc: Global,
    edges: EdgeLists<'_>,
    form: Form,
    rows: usize,
    chips: &mut [u64],
) -> Result<(), CallFault>
    ensures { FindsForms edges.entry form rows chips.old chips.new result }
{
    if !has_rows(edges, rows, chips) {
        return Err(CallFault::Lengths);
    }
    let graph = edges.graph(alloc)?;
    let found = chip_recurrent::representatives(alloc, graph, form, chips, rows)?;
    chips.copy_from_slice(&found);
    Ok(())
}

/// Writes the identity of the sandpile group: one number per vertex, 0 at the sink. On a fault `chips` is unchanged.
pub fn identity(alloc: Global, edges: EdgeLists<'_>, chips: &mut [u64]) -> Result<(), CallFault>
    ensures { FindsIdentity edges.entry chips.old chips.new result }
{
    if !has_rows(edges, 1, chips) {
        return Err(CallFault::Lengths);
    }
    let graph = edges.graph(alloc)?;
    let found = chip_recurrent::identity(alloc, graph)?;
    chips.copy_from_slice(&found);
    Ok(())
}

/// Writes `rows` random recurrent configurations, with 0 at the sink (`chip_recurrent::random_recurrents`). They are
/// numbered from `first` on, and each depends only on graph, seed and number. On a fault `chips` is unchanged.
pub fn random_recurrents(
    alloc: Global,
    edges: EdgeLists<'_>,
    seed: u64,
    first: u64,
    rows: usize,
    chips: &mut [u64],
) -> Result<(), CallFault>
    ensures { DrawsRows edges.entry rows chips.old chips.new result }
{
    if !has_rows(edges, rows, chips) {
        return Err(CallFault::Lengths);
    }
    let mut graph = edges.graph(alloc)?;
    let found = chip_recurrent::random_recurrents(alloc, &mut graph, seed, first, rows)?;
    chips.copy_from_slice(&found);
    Ok(())
}

/// Whether `numbers` are those of `rows` configurations, and the edge lists have one length.
fn has_rows(edges: EdgeLists<'_>, rows: usize, numbers: &[u64]) -> bool
    ensures { IsTrue result ↔ HasRows edges.entry rows numbers.now }
{
    edges.has_whole_rows() && are_rows(edges.vertices, rows, numbers)
}

/// Whether `numbers` are those of `rows` configurations of so many vertices.
pub(crate) fn are_rows(vertices: u64, rows: usize, numbers: &[u64]) -> bool
    ensures { IsTrue result ↔ (length numbers.now ≡ rows * vertices) }
{
    (rows as u64).checked_mul(vertices) == Some(numbers.len() as u64)
}

impl From<RowFault> for CallFault {
    ghost use Rattle.std.specs.Prelude.{◌≡◌};
    ghost use Rattle.chip_library.specs.GroupCalls.{call_fault_of};

    ghost from_gives = { λ fault call. call ≡ call_fault_of fault };

    fn from(fault: RowFault) -> CallFault {
        match fault {
            RowFault::Total(row) => CallFault::Total(row),
            RowFault::Stopped(row) => CallFault::Stopped(row),
            RowFault::NoMemory => CallFault::NoMemory,
        }
    }
}
