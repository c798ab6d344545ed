//! Numbers, rows of three and lists of rows.

ghost use Rattle.std.specs.Prelude.{◌≡◌, ◌<◌, ◌++◌, ◌∷◌, [], length, List, OnOk, IfOk, IfErr, option_and_then};
ghost use Rattle.chip_file.specs.JsonValues.{ReadsValue, ReadsItems};
ghost use Rattle.chip_file.specs.GraphFile.{number_of_value, numbers_of, edge_of_numbers, edge_of_row};
ghost use Rattle.chip_file.specs.JsonRows.{and_number, edge_in, KeepsEdges, MayRead, MayReadItems, AreEdgeRows, AreRowsUnder};
ghost use Rattle.chip_file.specs.declared.fault.FileFault.TheVariants.{NoMemory};

use crate::fault::FileFault;
use crate::graph_text::number::{integer, read_numeral};
use crate::graph_text::passing::{NotJson, pass_rest};
use chip_graph::Edge;
use json::{Reader, Token};
use std::alloc::Global;

/// A row as far as it was read.
#[derive(Clone, Copy, Drop)]
pub(crate) enum Row {
    Empty,
    One(u64),
    Two(u64, u64),
    Three(Edge),
    Other,
}

impl Row {
    /// The row with one more value, which may be a number.
    fn and(self, number: Option<u64>) -> Row
        ensures { result ≡ and_number self number }
    {
        match (self, number) {
            (Row::Empty, Some(tail)) => Row::One(tail),
            (Row::One(tail), Some(head)) => Row::Two(tail, head),
            (Row::Two(tail, head), Some(mult)) => Row::Three(Edge { tail, head, mult }),
            _ => Row::Other,
        }
    }

    /// The edge that the row is.
    fn edge(self) -> Option<Edge>
        ensures { result ≡ edge_in self }
    {
        match self {
            Row::Three(edge) => Some(edge),
            _ => None,
        }
    }
}

/// The number that the next value is, if it is one.
#[inline(always)]
pub(crate) fn number(reader: &mut Reader<'_>, depth: usize) -> Result<Option<u64>, NotJson>
    ensures value { ReadsValue depth reader.old reader.new (λ d n. number_of_value d ≡ n) result }
    ensures shorter { OnOk result (length reader.new < length reader.old) }
{
    let token = reader.next().ok_or(NotJson)?;
    if let Token::Number(text) = token {
        if let Some(count) = integer(text) {
            return Ok(Some(count));
        }
        return match read_numeral(text) {
            Some(number) => Ok(number.as_u64()),
            None => Err(NotJson),
        };
    }
    pass_rest(reader, token, depth)?;
    Ok(None)
}

/// The edge that the next value is, if it is a row of exactly three numbers.
pub(crate) fn edge(reader: &mut Reader<'_>, depth: usize) -> Result<Option<Edge>, NotJson>
    ensures value { ReadsValue depth reader.old reader.new (λ d edge. edge_of_row d ≡ edge) result }
    ensures shorter { OnOk result (length reader.new < length reader.old) }
{
    let token = reader.next().ok_or(NotJson)?;
    if let Token::BeginArray = token {
        if depth == 0 {
            return Err(NotJson);
        }
        return row_of(reader, depth - 1);
    }
    pass_rest(reader, token, depth)?;
    Ok(None)
}

/// The edge that the items of an array are.
fn row_of(reader: &mut Reader<'_>, depth: usize) -> Result<Option<Edge>, NotJson>
    ensures value { ReadsItems depth reader.old reader.new
        (λ ds edge. option_and_then edge_of_numbers (numbers_of ds) ≡ edge) result }
    ensures shorter { OnOk result (length reader.new < length reader.old) }
{
    let mut row = Row::Empty;
    'numbers: while !reader.take_end_array() {
        row = row.and(number(reader, depth)?);
    }
    Ok(row.edge())
}

/// The edges that the next value means, if it is an array of rows. Of more than `most` only the first are kept.
pub(crate) fn edges(
    alloc: Global,
    reader: &mut Reader<'_>,
    depth: usize,
    most: u64,
) -> Result<Option<Vec<Edge>>, FileFault>
    ensures value { MayRead depth reader.old reader.new (AreRowsUnder most) result }
    ensures shorter { OnOk result (length reader.new < length reader.old) }
{
    let token = reader.next().ok_or(NotJson)?;
    if let Token::BeginArray = token {
        if depth == 0 {
            return Err(FileFault::NotJson);
        }
        return rows(alloc, reader, depth - 1, most);
    }
    pass_rest(reader, token, depth)?;
    Ok(None)
}

/// The edges that the items of an array mean.
fn rows(
    alloc: Global,
    reader: &mut Reader<'_>,
    depth: usize,
    most: u64,
) -> Result<Option<Vec<Edge>>, FileFault>
    ensures value { MayReadItems depth reader.old reader.new (AreEdgeRows most) result }
    ensures shorter { OnOk result (length reader.new < length reader.old) }
{
    let mut edges = Vec::new(alloc);
    let mut are_edges = true;
    'rows: while !reader.take_end_array() {
        let Some(edge) = edge(reader, depth)? else {
            are_edges = false;
            continue;
        };
        keep(&mut edges, edge, most)?;
    }
    if are_edges {
        return Ok(Some(edges));
    }
    Ok(None)
}

/// Keeps an edge, unless there are more than `most` already.
pub(crate) fn keep(edges: &mut Vec<Edge>, edge: Edge, most: u64) -> Result<(), FileFault>
    ensures kept { IfOk result (λ _. (all : List Edge) → KeepsEdges most all edges.old.items
        → KeepsEdges most (all ++ edge ∷ []) edges.new.items) }
    ensures memory { IfErr result (λ f. f ≡ NoMemory) }
{
    if edges.len() as u64 <= most {
        edges.push(edge)?;
    }
    Ok(())
}
