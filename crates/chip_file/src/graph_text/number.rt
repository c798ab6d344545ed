//! The numbers of JSON.

ghost use Rattle.std.specs.Prelude.{◌≡◌, ◌<◌, ◌≤◌, ◌==◌, IsTrue, IfSome, Some, length, option_map, slice_index, take};
ghost use Rattle.std.specs.Prelude.{true, false};
ghost use Rattle.std.specs.Char.{is_ascii_digit};
ghost use Rattle.std.specs.Str.Parse.{AllDigits, digits_value};
ghost use Rattle.serde_json.specs.Data.{unsigned};
ghost use Rattle.serde_json.specs.View.{number_view};
ghost use Rattle.serde_json.specs.Read.{float_of, number_from, number_of};

use fast_float::Numeral;
use serde_json::Number;

/// A number with this many digits fits into 64 bits.
const FEW_DIGITS: usize = 19;

/// The value of the first digits of a text, and their number: as many as surely fit.
#[inline(always)]
pub fn leading_number(text: &[u8]) -> (u64, usize)
    ensures digits { AllDigits 10 (take result.1 text.now) }
    ensures value { result.0 ≡ digits_value 10 (take result.1 text.now) }
    ensures few { (result.1 ≤ 19) × (result.1 ≤ length text.now) }
    ensures most { result.1 < 19 → result.1 < length text.now
        → is_ascii_digit (slice_index text.now result.1) ≡ false }
{
    let mut value = 0;
    let mut count = 0;
    while count < FEW_DIGITS && count < text.len() && text[count].is_ascii_digit() {
        value = 10 * value + u64::from(text[count] - b'0');
        count += 1;
    }
    (value, count)
}

/// The number that a token writes, unless it is too large for a float.
pub(crate) fn number_of(text: &str) -> Option<Number>
    ensures { option_map number_view result ≡ number_of text.now }
{
    match integer(text) {
        Some(n) => Some(Number::from(n)),
        None => read_numeral(text),
    }
}

/// The integer that a few digits alone write. Nearly all numbers are such, and this is fast.
pub(crate) fn integer(text: &str) -> Option<u64>
    ensures { IfSome result (λ n. number_of text.now ≡ Some (unsigned n)) }
{
    let bytes = text.as_bytes();
    let (value, count) = leading_number(bytes);
    if count > 0 && count == bytes.len() {
        Some(value)
    } else {
        None
    }
}

/// The number that any token writes.
pub(crate) fn read_numeral(text: &str) -> Option<Number>
    ensures { option_map number_view result ≡ number_of text.now }
{
    let bytes = text.as_bytes();
    if has_minus(bytes) {
        negative_number(&Numeral::scan(&bytes[1..]))
    } else {
        natural_number(&Numeral::scan(bytes))
    }
}

/// Whether a sign comes first.
fn has_minus(bytes: &[u8]) -> bool
    ensures value { result ≡ (slice_index bytes.now 0 == 45) }
    ensures len { IsTrue result → 0 < length bytes.now }
{
    !bytes.is_empty() && bytes[0] == b'-'
}

/// The number of a numeral with no sign.
fn natural_number(numeral: &Numeral<'_>) -> Option<Number>
    ensures { option_map number_view result ≡ number_from false numeral.now }
{
    match numeral.to_u64() {
        Some(n) => Some(Number::from(n)),
        None => nearest_float(false, numeral),
    }
}

/// The number of a numeral after a minus sign.
fn negative_number(numeral: &Numeral<'_>) -> Option<Number>
    ensures { option_map number_view result ≡ number_from true numeral.now }
{
    if let Some(n) = numeral.to_i64(true) {
        if n < 0 {
            return Some(Number::from(n));
        }
    }
    nearest_float(true, numeral)
}

/// The float that is nearest, unless it is infinite.
fn nearest_float(negative: bool, numeral: &Numeral<'_>) -> Option<Number>
    ensures { option_map number_view result ≡ float_of negative numeral.now }
{
    Number::from_f64(numeral.to_float::<f64>(negative))
}
