//! The command `judge`: whether the claims "the computation is over" in a log of a distributed program are right.

ghost use Rattle.std.specs.Prelude.{◌≡◌, ◌++◌, ◌^◌, ◌<◌, IfOk, codes, flat_map, length, string_bytes};
ghost use Rattle.std.specs.List.{list_any};
ghost use Rattle.chip_command.specs.CommandAnswers.{GivesAnswer};
ghost use Rattle.chip_log.specs.Judge.{AreBeginners};
ghost use Rattle.chip_log.specs.Judged.{is_early};
ghost use Rattle.chip_log.specs.Order.{IsWellFormed};
ghost use Rattle.chip_engine.specs.JudgeCommand.{JudgeAnswers, judging, judging_from, claim_text, verdict_text, past_text, end_text};
ghost use Rattle.chip_engine.specs.JudgeCommand.{status_of_judged};

use chip_command::{Answer, Ended, Fault, Status, deliver};
use chip_file::read_log_within;
use chip_graph::Limits;
use chip_log::{
    ClaimVerdict, ClaimWatch, JudgedLog, LogEnd, LogRow, PastRows, Sizes, Verdict, first_absent,
    first_early, judge_log,
};
use std::alloc::{AllocError, Global};
use std::io::{Read, Write};

/// The options of a judgment.
#[derive(Clone, Copy)]
pub struct JudgeOptions {
    /// The limits of the log: at most twice as many processes and channels as a graph has vertices and edges.
    pub limits: Limits,
    /// Whether to list, for each early claim, the number of rows of each process in its causal past.
    pub past: bool,
    /// Whether to report the first early claim alone, if there is one.
    pub first: bool,
    /// The number of processes, from 0 on, that must have a row.
    pub processes: u64,
}

/// Judges the claims of a log by these options, and writes a line for each, by process and row, and one for the end of
/// the log. The status is 0 if a claim is right and none early, 2 if one is early, and 3 if there is no claim. Reports
/// each claim to `watch` before judging it; the watcher does not change the result.
pub fn judge_engine_with<L: Read, P: ClaimWatch, W: Write>(
    alloc: Global,
    log: &mut L,
    options: JudgeOptions,
    watch: &mut P,
    output: &mut W,
) -> Result<Ended, Fault>
    ensures { JudgeAnswers (L.remaining log.old) options (W.contents output.old) (W.contents output.new) result }
{
    let answer = judge(alloc, log, options, watch)?;
    deliver(output, answer)
}

/// The verdicts on the claims of a log, as text.
fn judge<L: Read, P: ClaimWatch>(
    alloc: Global,
    log: &mut L,
    options: JudgeOptions,
    watch: &mut P,
) -> Result<Answer, Fault>
    ensures { GivesAnswer (judging_from options (L.remaining log.old)) result }
{
    let log = read_log_within(alloc, options.limits, log)?;
    judge_rows(alloc, log.sizes, &log.rows, &log.beginners, options, watch)
}

/// The verdicts on the claims of these rows, if each expected process has one.
fn judge_rows<P: ClaimWatch>(
    alloc: Global,
    sizes: Sizes,
    rows: &[LogRow],
    beginners: &[Option<bool>],
    options: JudgeOptions,
    watch: &mut P,
) -> Result<Answer, Fault>
    requires well_formed { IsWellFormed sizes rows.now }
    requires few { length rows.now < 2 ^ 32 }
    requires beginners { AreBeginners sizes rows.now beginners.now }
    ensures { GivesAnswer (judging options rows.now) result }
{
    if let Some(process) = first_absent(beginners, options.processes) {
        return Err(Fault::Absent(process));
    }
    if options.first {
        if let Some(claim) = first_early(alloc, sizes, rows, beginners, options.past, watch)? {
            return Ok(Answer {
                text: text_of_early(alloc, &claim)?.into_bytes(),
                status: Status::Halted,
            });
        }
    }
    let judged = judge_log(alloc, sizes, rows, beginners, options.past, watch)?;
    let text = text_of(alloc, &judged)?;
    Ok(Answer {
        text: text.into_bytes(),
        status: status_of_judged(&judged),
    })
}

/// The lines of the first early claim, after which no claim was judged.
fn text_of_early(alloc: Global, claim: &ClaimVerdict) -> Result<String, AllocError>
    ensures { IfOk result (λ text. string_bytes text ≡ claim_text claim.now ++ codes "end early\n") }
{
    let mut lines = String::new(alloc);
    push_claim(&mut lines, claim)?;
    write!(lines, "end early\n")?;
    Ok(lines)
}

/// The lines of a judged log.
fn text_of(alloc: Global, judged: &JudgedLog) -> Result<String, AllocError>
    ensures { IfOk result (λ text. string_bytes text
        ≡ flat_map claim_text judged.now.claims.items ++ end_text judged.now.end) }
{
    let mut lines = String::new(alloc);
    for claim in &judged.claims {
        push_claim(&mut lines, claim)?;
    }
    push_end(&mut lines, judged.end)?;
    Ok(lines)
}

/// Appends the line of a claim, and those of its past.
fn push_claim(lines: &mut String, claim: &ClaimVerdict) -> Result<(), AllocError>
    ensures { IfOk result (λ _. string_bytes lines.new ≡ string_bytes lines.old ++ claim_text claim.now) }
{
    let (process, row) = (claim.process, claim.row);
    write!(lines, "over {process} {row}")?;
    push_verdict(lines, claim.verdict)?;
    for rows in &claim.past {
        push_past(lines, *rows)?;
    }
    Ok(())
}

/// Appends what follows the place of a claim in its line.
fn push_verdict(lines: &mut String, verdict: Verdict) -> Result<(), AllocError>
    ensures { IfOk result (λ _. string_bytes lines.new ≡ string_bytes lines.old ++ verdict_text verdict) }
{
    match verdict {
        Verdict::Right => write!(lines, " right\n"),
        Verdict::OnItsWay { channel, message } => {
            write!(
                lines,
                " early: message {message} of channel {channel} is on its way\n"
            )
        }
        Verdict::Active { process } => write!(lines, " early: process {process} is active\n"),
    }
}

/// Appends the line of the rows of a process in a causal past.
fn push_past(lines: &mut String, past: PastRows) -> Result<(), AllocError>
    ensures { IfOk result (λ _. string_bytes lines.new ≡ string_bytes lines.old ++ past_text past) }
{
    let PastRows { process, rows } = past;
    write!(lines, "past {process} {rows}\n")
}

/// Appends the line of the log's end.
fn push_end(lines: &mut String, end: LogEnd) -> Result<(), AllocError>
    ensures { IfOk result (λ _. string_bytes lines.new ≡ string_bytes lines.old ++ end_text end) }
{
    match end {
        LogEnd::Claimed => write!(lines, "end claimed\n"),
        LogEnd::Missed => write!(lines, "end missed\n"),
        LogEnd::Unclaimed => write!(lines, "end unclaimed\n"),
        LogEnd::OnItsWay { channel, message } => {
            write!(
                lines,
                "end open: message {message} of channel {channel} is on its way\n"
            )
        }
        LogEnd::Active { process } => write!(lines, "end open: process {process} is active\n"),
    }
}

/// The exit status for a judged log.
fn status_of_judged(judged: &JudgedLog) -> Status
    ensures { result ≡ status_of_judged judged.now }
{
    if has_early(&judged.claims) {
        return Status::Halted;
    }
    match judged.end {
        LogEnd::Claimed => Status::Done,
        _ => Status::Unfinished,
    }
}

/// Whether a claim is early.
fn has_early(claims: &[ClaimVerdict]) -> bool
    ensures { result ≡ list_any (λ claim. is_early claim.verdict) claims.now }
{
    claims.iter().any(|claim| claim.verdict.is_early())
}
