ghost use Rattle.std.specs.Prelude.{◌≡◌, ◌++◌, IfOk, Some, string_bytes};
ghost use Rattle.chip_file.specs.Answer.{Gives, ReadsText};
ghost use Rattle.chip_file.specs.ChipsText.{chips_line, chips_of_text, chips_text_fault, text_of_chips};
ghost use Rattle.chip_file.specs.Source.{IsFresh, ReadsSource};

use crate::fault::FileFault;
use crate::source::Source;
use crate::vertex_rows::numbers_of_text;
use crate::whole::read_source;
use chip_graph::{Limits, total_of};
use std::alloc::{AllocError, Global};
use std::io::Read;

/// The header of a file of chips.
pub(crate) const HEADER: [&str; 2] = ["vertex", "chips"];

/// Reads the chips of each of `vertices` vertices from a file of rows within the limits, or returns the file's first
/// fault.
///
/// A vertex that no row names has 0.
pub fn read_chips_within<R: Read>(
    alloc: Global,
    limits: Limits,
    reader: &mut R,
    vertices: u64,
) -> Result<Vec<u64>, FileFault>
    ensures { ReadsText limits (λ text chips. chips_of_text vertices text ≡ Some chips.items)
        (λ text f. chips_text_fault vertices text ≡ Some f) (R.remaining reader.old) (R.remaining reader.new) result }
{
    chips_of_source(alloc, limits, &mut Source::new(reader), vertices)
}

/// The same from a source, which counts the reads.
pub fn chips_of_source<R: Read>(
    alloc: Global,
    limits: Limits,
    source: &mut Source<'_, R>,
    vertices: u64,
) -> Result<Vec<u64>, FileFault>
    requires { IsFresh source.old }
    ensures lent { source.new.reader.ghost_name ≡ source.old.reader.ghost_name }
    ensures reads { ReadsSource R.remaining limits (λ text chips. chips_of_text vertices text ≡ Some chips.items)
        (λ text f. chips_text_fault vertices text ≡ Some f) source.old source.new result }
{
    let text = read_source(alloc, limits, source)?;
    chips_of_text(alloc, &text, vertices)
}

/// The chips of each of `vertices` vertices that a text means, or its first fault.
pub fn chips_of_text(alloc: Global, text: &[u8], vertices: u64) -> Result<Vec<u64>, FileFault>
    ensures { Gives (λ chips. chips_of_text vertices text.now ≡ Some chips.items)
        (λ f. chips_text_fault vertices text.now ≡ Some f) result }
{
    let chips = numbers_of_text(alloc, text, &HEADER, vertices)?;
    match total_of(&chips) {
        Some(_) => Ok(chips),
        None => Err(FileFault::Total),
    }
}

/// The text of a file of these chips, with a row for each vertex.
pub fn text_of_chips(alloc: Global, chips: &[u64]) -> Result<String, AllocError>
    ensures { IfOk result (λ text. string_bytes text ≡ text_of_chips chips.now) }
{
    let mut text = String::new(alloc);
    text.push_str("vertex,chips\n")?;
    for (vertex, count) in chips.iter().enumerate() {
        push_line(&mut text, vertex as u64, *count)?;
    }
    Ok(text)
}

/// Appends the line of a vertex.
fn push_line(text: &mut String, vertex: u64, count: u64) -> Result<(), AllocError>
    ensures { IfOk result (λ _. string_bytes text.new ≡ string_bytes text.old ++ chips_line vertex count) }
{
    writeln!(text, "{vertex},{count}")
}
