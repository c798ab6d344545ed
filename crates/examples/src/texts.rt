//! Files, reports and commands, on texts in memory.

ghost use Rattle.std.specs.Prelude.{◌≡◌, ℕ, List, Some, IfOk, MatchResult};
ghost use Rattle.chip_graph.specs.Limits.{standard};
ghost use Rattle.chip_sequence.specs.Outcomes.{IsOutcome};
ghost use Rattle.chip_file.specs.TraceText.{traces_of_text};
ghost use Rattle.chip_link.specs.declared.trace.TraceRow.{TraceRow};
ghost use Rattle.chip_report.specs.Reportable.{content, FitsIn};
ghost use Rattle.chip_report.specs.declared.fault.ReportFault.TheVariants.{NoMemory};
ghost use Rattle.chip_trace.specs.Interleaving.{fires, trace_of};
ghost use Rattle.chip_command.specs.Inputs.{MeansGame};
ghost use Rattle.examples.specs.Answers.{IsGameReport, IsToldEnd, firings_by, IsRecurrentOf, IsIdentityOf};
ghost use Rattle.examples.specs.Rows.{AreDropRows};

use chip_command::{Ended, Fault, PlayOptions};
use chip_engine::{
    avalanches_engine, identity_engine, plain_engine, plain_guess_engine_with, recurrent_engine,
    verify_engine,
};
use chip_file::{read_chips, read_graph, read_trace};
use chip_fire::{Outcome, Unwatched};
use chip_graph::{Game, Limits};
use chip_report::{ReportFault, read_report, report};
use chip_trace::replay;
use std::alloc::Global;

/// The game of a graph file and a chips file.
pub fn game_of_texts(alloc: Global, graph: &[u8], chips: &[u8], limit: u64) -> Result<Game, Fault>
    ensures { IfOk result (MeansGame standard graph.now chips.now limit) }
{
    let (mut graph, mut chips) = (graph, chips);
    let graph = read_graph(alloc, &mut graph)?;
    let chips = read_chips(alloc, &mut chips, graph.vertices())?;
    Ok(Game::new(graph, chips, limit)?)
}

/// Reports an outcome and reads it back: the same numbers, or memory ran out.
pub fn read_back(alloc: Global, outcome: &Outcome) -> Result<Outcome, ReportFault>
    requires outcome { IsOutcome outcome.now }
    requires few_vertices { FitsIn standard outcome.now }
    ensures { MatchResult result (λ read. content read ≡ content outcome.now) (λ f. f ≡ NoMemory) }
{
    let bytes = report(alloc, outcome)?;
    read_report(alloc, &bytes)
}

/// Reads a report and writes it again: the same bytes.
pub fn write_again(alloc: Global, bytes: &[u8]) -> Result<Vec<u8>, ReportFault>
    ensures { IfOk result (λ again. again.items ≡ bytes.now) }
{
    let outcome = read_report(alloc, bytes)?;
    Ok(report(alloc, &outcome)?)
}

/// The reports of a game, without a guess of the counts and with one: the same bytes.
pub fn with_guess(
    alloc: Global,
    graph: &[u8],
    chips: &[u8],
    guess: &[u8],
    limit: u64,
) -> Result<(Vec<u8>, Vec<u8>), Fault>
    ensures report { IfOk result (λ r. IsGameReport graph.now chips.now limit r.0.items) }
    ensures same { IfOk result (λ r. r.1.items ≡ r.0.items) }
{
    let (mut without, mut with) = (Vec::new(alloc), Vec::new(alloc));
    let (mut graph_once, mut chips_once) = (graph, chips);
    plain_engine(alloc, &mut graph_once, &mut chips_once, limit, &mut without)?;
    let (mut graph, mut chips, mut guess) = (graph, chips, guess);
    plain_guess_engine_with(
        alloc,
        &mut graph,
        &mut chips,
        &mut guess,
        PlayOptions::standard(limit),
        &mut Unwatched,
        &mut with,
    )?;
    Ok((without, with))
}

/// Verifies that a report gives the end of the game of two other texts.
pub fn verify_report(
    alloc: Global,
    graph: &[u8],
    chips: &[u8],
    report: &[u8],
    limit: u64,
) -> Result<(), Fault>
    ensures { IfOk result (λ _. IsToldEnd graph.now chips.now limit report.now) }
{
    let (mut graph, mut chips, mut report) = (graph, chips, report);
    let mut line = Vec::new(alloc);
    verify_engine(alloc, &mut graph, &mut chips, &mut report, limit, &mut line)?;
    Ok(())
}

/// Writes a row for each drop of a file on the game of two other texts. Returns the rows and how the command ended.
pub fn rows_of_drops(
    alloc: Global,
    graph: &[u8],
    chips: &[u8],
    drops: &[u8],
    limit: u64,
) -> Result<(Vec<u8>, Ended), Fault>
    ensures { IfOk result (λ r. AreDropRows graph.now chips.now drops.now limit r.0.items r.1.status) }
{
    let (mut graph, mut chips, mut drops) = (graph, chips, drops);
    let mut text = Vec::new(alloc);
    let mut no_report: Option<Vec<u8>> = None;
    let ended = avalanches_engine(
        alloc,
        &mut graph,
        &mut chips,
        &mut drops,
        limit,
        &mut text,
        &mut no_report,
    )?;
    Ok((text, ended))
}

/// A chips file with the recurrent configuration equivalent to a given one, and whether the given one is recurrent.
pub fn recurrent_of_texts(
    alloc: Global,
    graph: &[u8],
    chips: &[u8],
) -> Result<(Vec<u8>, bool), Fault>
    ensures { IfOk result (λ r. IsRecurrentOf graph.now chips.now r.0.items r.1) }
{
    let (mut graph, mut chips) = (graph, chips);
    let mut text = Vec::new(alloc);
    let ended = recurrent_engine(alloc, &mut graph, &mut chips, Limits::standard(), &mut text)?;
    Ok((text, ended.status == 0))
}

/// A chips file with the identity of the sandpile group of a text's graph.
pub fn identity_of_text(alloc: Global, graph: &[u8]) -> Result<Vec<u8>, Fault>
    ensures { IfOk result (λ text. IsIdentityOf graph.now text.items) }
{
    let mut graph = graph;
    let mut text = Vec::new(alloc);
    identity_engine(alloc, &mut graph, Limits::standard(), &mut text)?;
    Ok(text)
}

/// The firings of a trace, each with its vertex, in an order in which they can be made.
pub fn firings_of_trace(alloc: Global, game: &Game, trace: &[u8]) -> Result<Vec<(u64, u64)>, Fault>
    ensures { IfOk result (λ fired. (traces : List (List TraceRow))
        × (traces_of_text game.now.graph trace.now ≡ Some traces)
        × ((v : ℕ) → firings_by v fired.items ≡ fires (trace_of traces v))) }
{
    let mut trace = trace;
    let traces = read_trace(alloc, &mut trace, game.graph())?;
    Ok(replay(alloc, game, &traces)?)
}
