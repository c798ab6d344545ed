//! `explain`: what a fault or a rule means, how to read its numbers and what to do, from a table.

ghost use Rattle.std.specs.Prelude.{◌≡◌, ◌++◌, IfOk, option_map, string_bytes};
ghost use Rattle.chip_command.specs.CommandAnswers.{GivesAnswer};
ghost use Rattle.chip_engine.specs.ExplainCommand.{ExplainAnswers, telling, explanation, line_text};
ghost use Rattle.chip_engine.specs.ExplainCommand.{row_text, row_with, table_rows, table_text};

use chip_command::{Answer, Ended, Explanation, Fault, deliver};
use std::alloc::{AllocError, Global};
use std::io::Write;

/// Explains the row of a table with this number, or lists all its rows, a line each, if no number is given. `what` says
/// what the rows are: `fault` or `rule`.
///
/// Fails with `Fault::Usage` if no row has the number.
pub fn explain_engine<W: Write>(
    alloc: Global,
    what: &str,
    table: &[&Explanation],
    number: Option<u64>,
    output: &mut W,
) -> Result<Ended, Fault>
    ensures { ExplainAnswers (explanation what.now (table_rows table.now) number) (W.contents output.old)
        (W.contents output.new) result }
{
    let answer = tell(alloc, what, table, number)?;
    deliver(output, answer)
}

/// What a table says of the row with this number, or of all its rows.
fn tell(
    alloc: Global,
    what: &str,
    table: &[&Explanation],
    number: Option<u64>,
) -> Result<Answer, Fault>
    ensures { GivesAnswer (telling (explanation what.now (table_rows table.now) number)) result }
{
    let Some(number) = number else {
        return Ok(Answer::of_lines(list_all(alloc, what, table)?));
    };
    let row = row_of(table, number).ok_or(Fault::Usage)?;
    Ok(Answer::of_lines(explain(alloc, what, row)?))
}

/// The row of a table with this number, if there is one.
fn row_of<'a>(table: &[&'a Explanation], number: u64) -> Option<&'a Explanation>
    ensures { option_map (λ row. row.now) result ≡ row_with (table_rows table.now) number }
{
    for row in table {
        if row.number == number {
            return Some(row);
        }
    }
    None
}

/// All that the table says in one row.
fn explain(alloc: Global, what: &str, row: &Explanation) -> Result<String, AllocError>
    ensures { IfOk result (λ text. string_bytes text ≡ row_text what.now row.now) }
{
    let mut text = String::new(alloc);
    push_line(&mut text, what, row)?;
    write!(text, "\n{}{}", row.place.reading, row.advice)?;
    Ok(text)
}

/// A line for each row of a table, and the command that says more.
fn list_all(alloc: Global, what: &str, table: &[&Explanation]) -> Result<String, AllocError>
    ensures { IfOk result (λ text. string_bytes text ≡ table_text what.now (table_rows table.now)) }
{
    let mut text = String::new(alloc);
    for row in table {
        push_line(&mut text, what, row)?;
    }
    text.push_str(
        "\n`chipfire explain N` says more of fault N, and `chipfire explain rule N` of rule N.\n",
    )?;
    Ok(text)
}

/// Appends a fault or a rule and what it means, on one line.
fn push_line(text: &mut String, what: &str, row: &Explanation) -> Result<(), AllocError>
    ensures { IfOk result (λ _. string_bytes text.new ≡ string_bytes text.old ++ line_text what.now row.now) }
{
    write!(
        text,
        "{what} {} {}{}: {}\n",
        row.number, row.name, row.place.letters, row.meaning
    )
}
