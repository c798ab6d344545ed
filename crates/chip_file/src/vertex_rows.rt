//! Rows that give vertices numbers.

ghost use Rattle.std.specs.Prelude.{◌≡◌, Some, None, IfOk, IfErr, map, unwrap_or};
ghost use Rattle.csv.specs.Records.{fields_of};
ghost use Rattle.chip_file.specs.Answer.{Gives};
ghost use Rattle.chip_file.specs.VertexRows.{IsByVertex, number_named, numbers_of_text, numbers_text_fault};
ghost use Rattle.chip_file.specs.VertexRows.{vertex_row_fault, new_row_fault, vertex_in, given_in};

use crate::fault::FileFault;
use crate::number::number_at;
use crate::rows::{RowVisitor, visit_text};
use csv::ByteRecord;
use std::alloc::{AllocError, Global};

/// The number of fields of a row.
const FIELDS: usize = 2;

/// The number of each vertex that a row names.
impl RowVisitor for Vec<Option<u64>> {
    type Context = u64;

    ghost row_fault = { new_row_fault };

    ghost HasVisited = { λ vertices rows named. IsByVertex vertices (number_named rows) None named.items };

    fn visit(&mut self, _vertices: &u64, row: &ByteRecord, index: u64) -> Result<(), FileFault> {
        let (vertex, number) = vertex_and_number(row, self.len() as u64, index)?;
        let named = &mut self[vertex as usize];
        if named.is_some() {
            return Err(FileFault::Repeated(index));
        }
        *named = Some(number);
        Ok(())
    }
}

/// The number of each of `vertices` vertices that a text with this header means, or its first fault.
///
/// No two rows name one vertex, and one that no row names has 0.
pub(crate) fn numbers_of_text(
    alloc: Global,
    text: &[u8],
    header: &[&str],
    vertices: u64,
) -> Result<Vec<u64>, FileFault>
    ensures { let names = map (λ name. name.now) header.now in
        Gives (λ numbers. numbers_of_text names vertices text.now ≡ Some numbers.items)
        (λ f. numbers_text_fault names vertices text.now ≡ Some f) result }
{
    let none = vec![in alloc; None; vertices as usize]?;
    let named = visit_text(alloc, text, header, &vertices, none)?;
    Ok(numbers_or_none(alloc, &named)?)
}

/// The vertex and the number of the row with this index.
pub(crate) fn vertex_and_number(
    row: &ByteRecord,
    vertices: u64,
    index: u64,
) -> Result<(u64, u64), FileFault>
    ensures ok { IfOk result (λ given. (vertex_row_fault vertices index (fields_of row.now) ≡ None)
        × (given ≡ (vertex_in (fields_of row.now), given_in (fields_of row.now)))) }
    ensures err { IfErr result (λ f. vertex_row_fault vertices index (fields_of row.now) ≡ Some f) }
{
    if row.len() != FIELDS {
        return Err(FileFault::Row(index));
    }
    let vertex = number_at(row, 0).ok_or(FileFault::Number(index))?;
    let number = number_at(row, 1).ok_or(FileFault::Number(index))?;
    if vertex >= vertices {
        return Err(FileFault::Vertex(index));
    }
    Ok((vertex, number))
}

/// The number of each vertex, 0 for one that no row named.
fn numbers_or_none(alloc: Global, named: &[Option<u64>]) -> Result<Vec<u64>, AllocError>
    ensures { IfOk result (λ numbers. numbers.items ≡ map (λ number. unwrap_or number 0) named.now) }
{
    named
        .iter()
        .map(|number| number.unwrap_or(0))
        .collect(alloc)
}
