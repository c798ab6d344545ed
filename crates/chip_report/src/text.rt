//! The report of an outcome, or of a play in several stages: one line of compact JSON.

ghost use Rattle.std.specs.Prelude.{◌≡◌, ◌++◌, IfOk, string_bytes};
ghost use Rattle.chip_report.specs.ReportText.{member_text, array_text, bool_text, is_closed, report_text, start_text};
ghost use Rattle.chip_report.specs.ReportTwo.{report_two_text};

use chip_sequence::{Outcome, Resumed};
use std::alloc::{AllocError, Global};

/// The report of an outcome (version 1), with its newline.
pub fn report(alloc: Global, outcome: &Outcome) -> Result<Vec<u8>, AllocError>
    ensures { IfOk result (λ bytes. bytes.items ≡ report_text outcome.now) }
{
    let mut text = start_of_report(alloc, outcome)?;
    push_list(&mut text, ",\"sealed\":", &outcome.sealed)?;
    text.push_str(",\"version\":1}\n")?;
    Ok(text.into_bytes())
}

/// The report of a stage and what was fired before it (version 2), with its newline.
pub fn report_two(alloc: Global, resumed: &Resumed) -> Result<Vec<u8>, AllocError>
    ensures { IfOk result (λ bytes. bytes.items ≡ report_two_text resumed.now) }
{
    let Resumed { outcome, prior } = resumed;
    let mut text = start_of_report(alloc, outcome)?;
    push_list(&mut text, ",\"prior\":", prior)?;
    push_list(&mut text, ",\"sealed\":", &outcome.sealed)?;
    text.push_str(",\"version\":2}\n")?;
    Ok(text.into_bytes())
}

/// The start of the reports of both versions: an outcome up to the vertices that are over.
fn start_of_report(alloc: Global, outcome: &Outcome) -> Result<String, AllocError>
    ensures { IfOk result (λ text. string_bytes text ≡ start_text outcome.now) }
{
    let mut text = String::new(alloc);
    push_list(&mut text, "{\"chips\":", &outcome.chips)?;
    push_bool(&mut text, ",\"closed\":", is_closed(outcome))?;
    push_list(&mut text, ",\"fired\":", &outcome.fired)?;
    push_list(&mut text, ",\"over\":", &outcome.over)?;
    Ok(text)
}

/// Whether no vertex halted.
pub fn is_closed(outcome: &Outcome) -> bool
    ensures { result ≡ is_closed outcome.now }
{
    outcome.over.is_empty() && outcome.sealed.is_empty()
}

/// Appends a truth value after its key.
fn push_bool(text: &mut String, key: &str, value: bool) -> Result<(), AllocError>
    ensures { IfOk result (λ _. string_bytes text.new ≡ string_bytes text.old ++ key.now ++ bool_text value) }
{
    text.push_str(key)?;
    text.push_str(if value { "true" } else { "false" })
}

/// Appends numbers as a JSON array after their key.
fn push_list(text: &mut String, key: &str, numbers: &[u64]) -> Result<(), AllocError>
    ensures { IfOk result (λ _. string_bytes text.new ≡ string_bytes text.old ++ key.now ++ array_text numbers.now) }
{
    text.push_str(key)?;
    push_array(text, numbers)
}

/// Appends numbers as a JSON array.
fn push_array(text: &mut String, numbers: &[u64]) -> Result<(), AllocError>
    ensures { IfOk result (λ _. string_bytes text.new ≡ string_bytes text.old ++ array_text numbers.now) }
{
    text.push_str("[")?;
    for (i, number) in numbers.iter().enumerate() {
        push_member(text, i, *number)?;
    }
    text.push_str("]")
}

/// Appends a number to an array that has `before` members.
fn push_member(text: &mut String, before: usize, number: u64) -> Result<(), AllocError>
    ensures { IfOk result (λ _. string_bytes text.new ≡ string_bytes text.old ++ member_text before number) }
{
    if before > 0 {
        text.push_str(",")?;
    }
    write!(text, "{number}")
}
