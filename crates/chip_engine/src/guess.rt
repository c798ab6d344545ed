//! Guesses of the firing counts.

ghost use Rattle.std.specs.Prelude.{◌≡◌, ℕ, ◌<◌, IfOk, MatchResult, length, slice_index};
ghost use Rattle.chip_sequence.specs.Stages.{IsResumed, fired_in_all};
ghost use Rattle.chip_command.specs.CommandAnswers.{MeetsSpec};
ghost use Rattle.chip_engine.specs.GuessCommand.{RefusesTold, TellsCounts, has_brace, reading_guess};

use chip_command::Fault;
use chip_file::{guess_of_text, read_whole_within};
use chip_graph::Limits;
use chip_report::read_any_within;
use chip_sequence::{ResumeFault, Resumed};
use std::alloc::{AllocError, Global};
use std::io::Read;

/// How often each of `vertices` vertices fires by a guess: a report within the limits, or rows.
pub(crate) fn read_guess<R: Read>(
    alloc: Global,
    limits: Limits,
    guess: &mut R,
    vertices: u64,
) -> Result<Vec<u64>, Fault>
    ensures { MeetsSpec (reading_guess limits vertices (R.remaining guess.old)) result }
{
    let text = read_whole_within(alloc, limits, guess)?;
    if has_brace(&text) {
        counts_of_report(alloc, limits, &text, vertices)
    } else {
        Ok(guess_of_text(alloc, &text, vertices)?)
    }
}

/// Whether the first byte is a brace, as in a report.
fn has_brace(text: &[u8]) -> bool
    ensures { result ≡ has_brace text.now }
{
    text.first().copied().unwrap_or(0) == b'{'
}

/// How often each of `vertices` vertices fired in all stages of a report within the limits.
fn counts_of_report(
    alloc: Global,
    limits: Limits,
    text: &[u8],
    vertices: u64,
) -> Result<Vec<u64>, Fault>
    ensures { MatchResult result (λ counts. TellsCounts limits vertices text.now counts.items)
        (RefusesTold limits vertices text.now) }
{
    let told = read_any_within(alloc, limits, text)?;
    if told.outcome.fired.len() as u64 != vertices {
        return Err(Fault::Resume(ResumeFault::Mismatch));
    }
    Ok(counts_in_all(alloc, &told)?)
}

/// How often each vertex fired in all stages.
pub(crate) fn counts_in_all(alloc: Global, told: &Resumed) -> Result<Vec<u64>, AllocError>
    requires { IsResumed told.now }
    ensures { IfOk result (λ counts. (length counts.items ≡ length told.now.prior.items)
        × ((v : ℕ) → v < length counts.items → slice_index counts.items v ≡ fired_in_all told.now v)) }
{
    let Resumed { outcome, prior } = told;
    let mut counts = Vec::with_capacity(alloc, prior.len())?;
    for vertex in 0..prior.len() {
        counts.push(prior[vertex] + outcome.fired[vertex])?;
    }
    Ok(counts)
}
