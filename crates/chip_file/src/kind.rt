//! Kinds in the rows of a file, by their names.

ghost use Rattle.std.specs.Prelude.{◌≡◌};
ghost use Rattle.csv.specs.Records.{fields_of};
ghost use Rattle.chip_file.specs.Kinds.{kind_at, named_kinds};

use csv::ByteRecord;

/// The kind in a row's field at a column, if it is one of these.
pub(crate) fn kind_at<K: Copy>(kinds: &[(&str, K)], row: &ByteRecord, column: usize) -> Option<K>
    ensures { result ≡ kind_at (named_kinds kinds.now) column (fields_of row.now) }
{
    let name = row.get(column)?;
    for (kind_name, kind) in kinds {
        if name == kind_name.as_bytes() {
            return Some(*kind);
        }
    }
    None
}
