//! Files of rows: a header, and the rows under it.

ghost use Rattle.std.specs.Prelude.{◌≡◌, ◌∷◌, [], ◌++◌, List, length, map, Some, None, IfOk};
ghost use Rattle.csv.specs.Records.{fields_of};
ghost use Rattle.chip_file.specs.Answer.{Gives};
ghost use Rattle.chip_file.specs.Rows.{Row, RowFault, records_of, has_fields};
ghost use Rattle.chip_file.specs.Standing.{IsOpen, TakesRow, VisitsRecords, records_left};

use crate::fault::FileFault;
use csv::{ByteRecord, Reader, ReaderBuilder};
use std::alloc::{AllocError, Global};

/// What is built from the rows of a file, which it visits in order.
pub(crate) trait RowVisitor: Drop {
    /// What the faults of rows depend on.
    type Context;

    // The fault of a row.
    ghost row_fault: { Self.Context → RowFault };

    // It visited these rows.
    ghost HasVisited: { Self.Context → List Row → Self → Type 0 };

    /// Visits the row with this index, or returns its fault.
    fn visit(
        &mut self,
        context: &Self::Context,
        row: &ByteRecord,
        index: u64,
    ) -> Result<(), FileFault>
        ensures { (before : List Row) → HasVisited context.now before self.old → length before ≡ index
            → Gives (λ _. (row_fault context.now before (fields_of row.now) ≡ None)
            × HasVisited context.now (before ++ fields_of row.now ∷ []) self.new)
            (λ f. row_fault context.now before (fields_of row.now) ≡ Some f) result };
}

/// The visitor after all rows of a text under this header, or the text's first fault.
///
/// `csv` keeps two copies of a header, or of the first record if there is none. So it is given an empty header.
pub(crate) fn visit_text<V: RowVisitor>(
    alloc: Global,
    text: &[u8],
    header: &[&str],
    context: &V::Context,
    visitor: V,
) -> Result<V, FileFault>
    ensures { VisitsRecords (V.row_fault context.now) (V.HasVisited context.now)
        (map (λ name. name.now) header.now) (records_of text.now) visitor result }
{
    let mut builder = ReaderBuilder::new();
    let mut records = builder.flexible(true).from_reader(alloc, text);
    let mut row = ByteRecord::new(alloc);
    match records.set_byte_headers(ByteRecord::new(alloc)) {
        Ok(()) => visit_records(&mut records, &mut row, header, context, visitor),
        Err(_) => Err(FileFault::NoMemory),
    }
}

/// The same for the records that are left. If there are 2^64 - 1 rows or more the fault is `NoMemory`.
fn visit_records<V: RowVisitor>(
    records: &mut Reader<&[u8]>,
    row: &mut ByteRecord,
    header: &[&str],
    context: &V::Context,
    mut visitor: V,
) -> Result<V, FileFault>
    requires { IsOpen records.old }
    ensures { VisitsRecords (V.row_fault context.now) (V.HasVisited context.now)
        (map (λ name. name.now) header.now) (records_left records.old) visitor result }
{
    if !read_record(records, row)? || !has_fields(row, header) {
        return Err(FileFault::Header);
    }
    for index in 0..u64::MAX {
        if !read_record(records, row)? {
            return Ok(visitor);
        }
        visitor.visit(context, row, index)?;
    }
    Err(FileFault::NoMemory)
}

/// Reads the next record into `row`, and returns whether there was one.
///
/// The text is in memory, so only an allocation can fail.
fn read_record(records: &mut Reader<&[u8]>, row: &mut ByteRecord) -> Result<bool, AllocError>
    requires { IsOpen records.old }
    ensures { IfOk result (λ found. IsOpen records.new
        × TakesRow found (fields_of row.new) (records_left records.old) (records_left records.new)) }
{
    let Ok(found) = records.read_byte_record(row) else {
        return Err(AllocError);
    };
    Ok(found)
}

/// Whether a record has exactly these fields.
fn has_fields(row: &ByteRecord, fields: &[&str]) -> bool
    ensures { result ≡ has_fields (map (λ field. field.now) fields.now) (fields_of row.now) }
{
    if row.len() != fields.len() {
        return false;
    }
    for (column, field) in fields.iter().enumerate() {
        if row.get(column) != Some(field.as_bytes()) {
            return false;
        }
    }
    true
}
