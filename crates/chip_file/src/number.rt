//! Numbers in the rows of a file.

ghost use Rattle.std.specs.Prelude.{◌≡◌};
ghost use Rattle.csv.specs.Records.{fields_of};
ghost use Rattle.chip_file.specs.Numbers.{number_at, number_of};

use crate::graph_text::leading_number;
use csv::ByteRecord;

/// The most digits that a number has, leading zeros among them.
const MAX_DIGITS: usize = 20;

/// The number in a row's field at a column, if it is one.
pub(crate) fn number_at(row: &ByteRecord, column: usize) -> Option<u64>
    ensures { result ≡ number_at column (fields_of row.now) }
{
    number_of(row.get(column)?)
}

/// The number that a field is, if it is one. `leading_number` reads all of the most digits but the last.
#[inline]
fn number_of(field: &[u8]) -> Option<u64>
    ensures { result ≡ number_of field.now }
{
    let (value, count) = leading_number(field);
    if count == 0 {
        return None;
    }
    if count == field.len() {
        return Some(value);
    }
    if field.len() != MAX_DIGITS {
        return None;
    }
    let last = field[count];
    if !last.is_ascii_digit() {
        return None;
    }
    value.checked_mul(10)?.checked_add(u64::from(last - b'0'))
}
