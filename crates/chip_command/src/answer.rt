//! The result of a command.

ghost use Rattle.std.specs.Prelude.{◌≡◌, IfOk, false, string_bytes};
ghost use Rattle.chip_command.specs.Reports.{Delivers};
ghost use Rattle.chip_command.specs.Statuses.{number_of_status};

use crate::ended::{Ended, conclude, status_of};
use crate::fault::Fault;
use crate::status::Status;
use chip_report::report;
use chip_sequence::Outcome;
use std::alloc::{AllocError, Global};
use std::io::Write;

/// The text that a command writes, and its exit status.
#[derive(Drop)]
pub struct Answer {
    pub text: Vec<u8>,
    pub status: Status,
}

impl Answer {
    ghost use Rattle.chip_report.specs.ReportText.{report_text};
    ghost use Rattle.chip_command.specs.Reports.{status_of_outcome};
    ghost use Rattle.chip_command.specs.declared.status.Status.TheVariants.{Done};

    /// An answer of these lines, with status `Done`.
    pub fn of_lines(lines: String) -> Answer
        ensures text { result.text.items ≡ string_bytes lines }
        ensures status { result.status ≡ Done }
    {
        Answer {
            text: lines.into_bytes(),
            status: Status::Done,
        }
    }

    /// The report of a game with this outcome, and the status that says whether some vertex halted.
    pub fn of_outcome(alloc: Global, outcome: &Outcome) -> Result<Answer, AllocError>
        ensures text { IfOk result (λ answer. answer.text.items ≡ report_text outcome.now) }
        ensures status { IfOk result (λ answer. answer.status ≡ status_of_outcome outcome.now) }
    {
        Ok(Answer {
            text: report(alloc, outcome)?,
            status: status_of(outcome),
        })
    }
}

/// Writes the text of a command's answer.
pub fn deliver<W: Write>(output: &mut W, answer: Answer) -> Result<Ended, Fault>
    ensures { Delivers (W.contents output.old) (W.contents output.new) answer.text.items
        (record { status = number_of_status answer.status; cut = false }) result }
{
    conclude(output, &answer.text, Ended::of(answer.status))
}
