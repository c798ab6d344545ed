//! How a command ended after it wrote its output.

ghost use Rattle.std.specs.Prelude.{◌≡◌, false};
ghost use Rattle.chip_command.specs.Reports.{status_of_outcome, Delivers};
ghost use Rattle.chip_command.specs.Statuses.{number_of_status};

use crate::fault::Fault;
use crate::status::Status;
use chip_report::{is_closed, write_all_of};
use chip_sequence::Outcome;
use std::io::Write;

/// How a command ended after it wrote its output.
#[derive(Clone, Copy, PartialEq, Eq)]
pub struct Ended {
    /// The number of its exit status, 0 to 3.
    pub status: u8,
    /// Whether its trace was cut.
    pub cut: bool,
}

impl Ended {
    /// The end with this exit status, and no trace that was cut.
    pub fn of(status: Status) -> Ended
        ensures { result ≡ record { status = number_of_status status; cut = false } }
    {
        Ended {
            status: status.number(),
            cut: false,
        }
    }
}

/// Writes the whole text, and returns `ended`.
pub fn conclude<W: Write>(output: &mut W, text: &[u8], ended: Ended) -> Result<Ended, Fault>
    ensures { Delivers (W.contents output.old) (W.contents output.new) text.now ended result }
{
    write_all_of(output, text)?;
    Ok(ended)
}

/// The exit status that says whether some vertex halted.
pub fn status_of(outcome: &Outcome) -> Status
    ensures { result ≡ status_of_outcome outcome.now }
{
    if is_closed(outcome) {
        Status::Done
    } else {
        Status::Halted
    }
}
