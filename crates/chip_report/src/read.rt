//! Reading a report: exactly what is written as one.

ghost use Rattle.std.specs.Prelude.{◌≡◌, IfOk};
ghost use Rattle.chip_graph.specs.Limits.{standard};
ghost use Rattle.chip_report.specs.Reportable.{IsReportWithin, IsNoReportWithin, GivesReport, GrowsForALine};
ghost use Rattle.chip_report.specs.ReportTwo.{IsAnyReportWithin, IsNoReportAtAllWithin};
ghost use Rattle.chip_report.specs.Versions.{IsReportIn, IsNoReportIn, IsToldBy, text_in};

use crate::fault::ReportFault;
use crate::lists::Lists;
use crate::reportable::is_resumed;
use crate::text::{report, report_two};
use chip_graph::Limits;
use chip_sequence::{Outcome, Resumed};
use std::alloc::{AllocError, Global};

/// The outcome whose report the bytes are, within the standard limits.
pub fn read_report(alloc: Global, bytes: &[u8]) -> Result<Outcome, ReportFault>
    ensures outcome { GivesReport (IsReportWithin standard bytes.now) (IsNoReportWithin standard bytes.now) result }
    ensures memory { GrowsForALine bytes.now result }
{
    read_report_within(alloc, Limits::standard(), bytes)
}

/// The outcome whose report the bytes are, if it fits in the limits, else `NotReport`.
pub fn read_report_within(
    alloc: Global,
    limits: Limits,
    bytes: &[u8],
) -> Result<Outcome, ReportFault>
    ensures outcome { GivesReport (IsReportWithin limits bytes.now) (IsNoReportWithin limits bytes.now) result }
    ensures memory { GrowsForALine bytes.now result }
{
    let resumed = read_version(alloc, limits, false, bytes)?;
    Ok(resumed.outcome)
}

/// The stage whose report the bytes are, within the standard limits.
pub fn read_any(alloc: Global, bytes: &[u8]) -> Result<Resumed, ReportFault>
    ensures stage { GivesReport (IsAnyReportWithin standard bytes.now) (IsNoReportAtAllWithin standard bytes.now) result }
    ensures memory { GrowsForALine bytes.now result }
{
    read_any_within(alloc, Limits::standard(), bytes)
}

/// The stage whose report the bytes are, if it fits in the limits, else `NotReport`: a first stage, before which
/// nothing was fired, or a later one.
///
/// Only the report of a later stage ends in version 2, so the bytes are read as one version.
pub fn read_any_within(alloc: Global, limits: Limits, bytes: &[u8]) -> Result<Resumed, ReportFault>
    ensures stage { GivesReport (IsAnyReportWithin limits bytes.now) (IsNoReportAtAllWithin limits bytes.now) result }
    ensures memory { GrowsForALine bytes.now result }
{
    let went_on = bytes.ends_with(b",\"version\":2}\n");
    read_version(alloc, limits, went_on, bytes)
}

/// The stage whose report the bytes are, as a later one or as a first one.
///
/// The numbers are read from the brackets, whatever else the bytes have. Their report is written again and compared
/// with the bytes.
fn read_version(
    alloc: Global,
    limits: Limits,
    went_on: bool,
    bytes: &[u8],
) -> Result<Resumed, ReportFault>
    ensures stage { GivesReport (IsReportIn went_on limits bytes.now) (IsNoReportIn went_on limits bytes.now) result }
    ensures memory { GrowsForALine bytes.now result }
{
    if !bytes.ends_with(b"\n") {
        return Err(ReportFault::NotReport);
    }
    let resumed = stage_of_text(alloc, limits, went_on, bytes)?;
    if is_resumed(&resumed) && text_of(alloc, went_on, &resumed)?.as_slice() == bytes {
        Ok(resumed)
    } else {
        Err(ReportFault::NotReport)
    }
}

/// The report of a stage, as a later one or as a first one.
fn text_of(alloc: Global, went_on: bool, resumed: &Resumed) -> Result<Vec<u8>, AllocError>
    ensures { IfOk result (λ bytes. bytes.items ≡ text_in went_on resumed.now) }
{
    if went_on {
        report_two(alloc, resumed)
    } else {
        report(alloc, &resumed.outcome)
    }
}

/// The stage of a text, if it is a report within the limits. A first one has no list of earlier firings.
fn stage_of_text(
    alloc: Global,
    limits: Limits,
    went_on: bool,
    text: &[u8],
) -> Result<Resumed, ReportFault>
    ensures { GivesReport (IsToldBy went_on limits text.now) (IsNoReportIn went_on limits text.now) result }
{
    let most = limits.vertices();
    let mut lists = Lists::new(text)?;
    let chips = lists.take(alloc, most)?;
    let fired = lists.take(alloc, most)?;
    let over = lists.take(alloc, most)?;
    let fourth = lists.take(alloc, most)?;
    let (prior, sealed) = if went_on {
        (fourth, lists.take(alloc, most)?)
    } else {
        (vec![in alloc; 0; fired.len()]?, fourth)
    };
    let outcome = Outcome {
        fired,
        chips,
        over,
        sealed,
    };
    Ok(Resumed { outcome, prior })
}
