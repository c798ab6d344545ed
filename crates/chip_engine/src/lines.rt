//! Numbers in lines, at half the cost of `write!`.

ghost use Rattle.std.specs.Prelude.{◌≡◌, ◌++◌, IfOk, codes, string_bytes};
ghost use Rattle.std.specs.Fmt.{decimal};

use itoa::Buffer;
use std::alloc::AllocError;

/// Appends a text and then a number.
pub(crate) fn push_number(lines: &mut String, before: &str, number: u64) -> Result<(), AllocError>
    ensures { IfOk result (λ _. string_bytes lines.new ≡ string_bytes lines.old ++ before.now ++ decimal number) }
{
    let mut digits = Buffer::new();
    lines.push_str(before)?;
    lines.push_str(digits.format(number))
}

/// Appends a text, a number and the end of the line.
pub(crate) fn end_by_number(lines: &mut String, before: &str, number: u64) -> Result<(), AllocError>
    ensures { IfOk result
        (λ _. string_bytes lines.new ≡ string_bytes lines.old ++ before.now ++ decimal number ++ codes "\n") }
{
    push_number(lines, before, number)?;
    lines.push_str("\n")
}
