//! Drops of chips, one after another, as rows of text.

ghost use Rattle.std.specs.Prelude.{◌≡◌, map, Some};
ghost use Rattle.chip_file.specs.Answer.{Gives};
ghost use Rattle.chip_file.specs.DropsText.{drop_in, drops_of_text, drops_text_fault};
ghost use Rattle.chip_file.specs.Rows.{by_index};
ghost use Rattle.chip_file.specs.VertexRows.{vertex_row_fault};

use crate::chips::HEADER;
use crate::fault::FileFault;
use crate::rows::{RowVisitor, visit_text};
use crate::vertex_rows::vertex_and_number;
use csv::ByteRecord;
use std::alloc::Global;

/// The drops of the rows so far. The context is the graph's number of vertices.
impl RowVisitor for Vec<(u64, u64)> {
    type Context = u64;

    ghost row_fault = { λ vertices. by_index (vertex_row_fault vertices) };

    ghost HasVisited = { λ vertices rows drops. drops.items ≡ map drop_in rows };

    fn visit(&mut self, vertices: &u64, row: &ByteRecord, index: u64) -> Result<(), FileFault> {
        self.push(vertex_and_number(row, *vertices, index)?)?;
        Ok(())
    }
}

/// The drops on a graph of `vertices` vertices that a text means, in order, or its first fault.
///
/// Each is a vertex and the number of chips added there, any number below 2^64. Rows may name a vertex any number of
/// times.
pub fn drops_of_text(
    alloc: Global,
    text: &[u8],
    vertices: u64,
) -> Result<Vec<(u64, u64)>, FileFault>
    ensures { Gives (λ drops. drops_of_text vertices text.now ≡ Some drops.items)
        (λ f. drops_text_fault vertices text.now ≡ Some f) result }
{
    visit_text(alloc, text, &HEADER, &vertices, Vec::new(alloc))
}
