//! Guesses of the firing counts, as rows of text.

ghost use Rattle.std.specs.Prelude.{◌≡◌, Some};
ghost use Rattle.chip_file.specs.Answer.{Gives};
ghost use Rattle.chip_file.specs.GuessText.{guess_of_text, guess_text_fault};

use crate::fault::FileFault;
use crate::vertex_rows::numbers_of_text;
use std::alloc::Global;

/// The header of a file of a guess.
const HEADER: [&str; 2] = ["vertex", "fired"];

/// How often each of `vertices` vertices fires by the guess that a text means, or the text's first fault.
///
/// A vertex that no row names has 0. A count is any number below 2^64.
pub fn guess_of_text(alloc: Global, text: &[u8], vertices: u64) -> Result<Vec<u64>, FileFault>
    ensures { Gives (λ fired. guess_of_text vertices text.now ≡ Some fired.items)
        (λ f. guess_text_fault vertices text.now ≡ Some f) result }
{
    numbers_of_text(alloc, text, &HEADER, vertices)
}
