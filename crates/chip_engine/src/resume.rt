//! `resume`: a play goes on from where its report says that it stopped.

ghost use Rattle.chip_graph.specs.Limits.{standard};
ghost use Rattle.chip_sequence.specs.Stages.{IsResumed};
ghost use Rattle.chip_command.specs.CommandAnswers.{GivesAnswer, MeetsSpec};
ghost use Rattle.chip_engine.specs.ResumeCommand.{ResumeAnswers, going_on, reading_stage};

use chip_command::{Answer, Ended, Fault, PlayOptions, deliver, status_of};
use chip_file::{read_graph_within, read_whole_within};
use chip_fire::{Unwatched, Watch, resume_watched};
use chip_graph::{Graph, Limits};
use chip_report::{read_any_within, report_two};
use chip_sequence::Resumed;
use std::alloc::Global;
use std::io::{Read, Write};

/// Resumes the play of a report, on the graph of a graph file within the standard limits and with a firing limit of its
/// own, and writes the report of this stage with what was fired before it.
///
/// The whole report is made before the first byte is written.
pub fn resume_engine<G: Read, R: Read, W: Write>(
    alloc: Global,
    graph: &mut G,
    report: &mut R,
    limit: u64,
    output: &mut W,
) -> Result<Ended, Fault>
    ensures { ResumeAnswers standard (G.remaining graph.old) (R.remaining report.old) limit
        (W.contents output.old) (W.contents output.new) result }
{
    resume_engine_with(
        alloc,
        graph,
        report,
        PlayOptions::standard(limit),
        &mut Unwatched,
        output,
    )
}

/// Does what `resume_engine` does, by these options, and reports progress to `watch`. The watcher changes neither the
/// result nor the bytes.
pub fn resume_engine_with<G: Read, R: Read, P: Watch, W: Write>(
    alloc: Global,
    graph: &mut G,
    report: &mut R,
    options: PlayOptions,
    watch: &mut P,
    output: &mut W,
) -> Result<Ended, Fault>
    ensures { ResumeAnswers options.limits (G.remaining graph.old) (R.remaining report.old) options.limit
        (W.contents output.old) (W.contents output.new) result }
{
    let graph = read_graph_within(alloc, options.limits, graph)?;
    let earlier = read_stage(alloc, options.limits, report)?;
    let answer = go_on(alloc, graph, &earlier, options.limit, watch)?;
    deliver(output, answer)
}

/// The stage of a report of either version, within the limits.
pub(crate) fn read_stage<R: Read>(
    alloc: Global,
    limits: Limits,
    report: &mut R,
) -> Result<Resumed, Fault>
    ensures { MeetsSpec (reading_stage limits (R.remaining report.old)) result }
{
    let text = read_whole_within(alloc, limits, report)?;
    Ok(read_any_within(alloc, limits, &text)?)
}

/// The report of the stage that follows an earlier one, and the exit status.
fn go_on<P: Watch>(
    alloc: Global,
    graph: Graph,
    earlier: &Resumed,
    limit: u64,
    watch: &mut P,
) -> Result<Answer, Fault>
    requires { IsResumed earlier.now }
    ensures { GivesAnswer (going_on graph limit earlier.now) result }
{
    let resumed = resume_watched(alloc, graph, earlier, limit, watch)?;
    let text = report_two(alloc, &resumed)?;
    watch.writes(text.len() as u64);
    Ok(Answer {
        text,
        status: status_of(&resumed.outcome),
    })
}
