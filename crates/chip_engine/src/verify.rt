//! `verify`: whether a report is that of a game.

ghost use Rattle.std.specs.Prelude.{◌≡◌, ◌↔◌, ℕ, ◌<◌, true, Contains, MatchOption, length, slice_index};
ghost use Rattle.std.specs.List.Sorted.{IsStrictlyIncreasing};
ghost use Rattle.chip_graph.specs.Limits.{standard};
ghost use Rattle.chip_sequence.specs.Outcomes.{IsOutcome};
ghost use Rattle.chip_sequence.specs.Stages.{IsResumed, fired_in_all};
ghost use Rattle.chip_command.specs.CommandAnswers.{GivesAnswer};
ghost use Rattle.chip_engine.specs.VerifyCommand.{StageAgreesAt, IsFirstDisagreement, VerifyAnswers, verifying};

use crate::guess::counts_in_all;
use crate::resume::read_stage;
use chip_command::{Answer, Ended, Fault, PlayOptions, deliver, read_game};
use chip_fire::{Unwatched, Watch, plain_given};
use chip_graph::Game;
use chip_report::is_in;
use chip_sequence::{Outcome, ResumeFault, Resumed};
use std::alloc::Global;
use std::io::{Read, Write};

/// Writes whether a report is that of the game of a graph file, a chips file and a firing limit, within the standard
/// limits: whether it has the total counts, the chips and the halted vertices with which `plain` ends.
pub fn verify_engine<G: Read, C: Read, R: Read, W: Write>(
    alloc: Global,
    graph: &mut G,
    chips: &mut C,
    report: &mut R,
    limit: u64,
    output: &mut W,
) -> Result<Ended, Fault>
    ensures { VerifyAnswers standard (G.remaining graph.old) (C.remaining chips.old) (R.remaining report.old) limit
        (W.contents output.old) (W.contents output.new) result }
{
    verify_engine_with(
        alloc,
        graph,
        chips,
        report,
        PlayOptions::standard(limit),
        &mut Unwatched,
        output,
    )
}

/// Does what `verify_engine` does, by these options, and reports progress to `watch`. The watcher does not change the
/// result.
pub fn verify_engine_with<G: Read, C: Read, R: Read, P: Watch, W: Write>(
    alloc: Global,
    graph: &mut G,
    chips: &mut C,
    report: &mut R,
    options: PlayOptions,
    watch: &mut P,
    output: &mut W,
) -> Result<Ended, Fault>
    ensures { VerifyAnswers options.limits (G.remaining graph.old) (C.remaining chips.old) (R.remaining report.old)
        options.limit (W.contents output.old) (W.contents output.new) result }
{
    let answer = {
        let game = read_game(alloc, options.limits, graph, chips, options.limit)?;
        let told = read_stage(alloc, options.limits, report)?;
        verify(alloc, &game, &told, watch)
    };
    deliver(output, answer?)
}

/// Says that a stage has the outcome of the game, or why not.
fn verify<P: Watch>(
    alloc: Global,
    game: &Game,
    told: &Resumed,
    watch: &mut P,
) -> Result<Answer, Fault>
    requires { IsResumed told.now }
    ensures { GivesAnswer (verifying game.now told.now) result }
{
    if told.outcome.fired.len() as u64 != game.graph().vertices() {
        return Err(Fault::Resume(ResumeFault::Mismatch));
    }
    watch.plays(game);
    let counts = counts_in_all(alloc, told)?;
    let outcome = plain_given(alloc, game, &counts, watch)?;
    match first_difference(told, &outcome) {
        Some(vertex) => Err(Fault::Differs(vertex)),
        None => Ok(Answer::of_lines(String::from_str(alloc, "verified\n")?)),
    }
}

/// The least vertex at which a stage and an outcome differ.
fn first_difference(told: &Resumed, outcome: &Outcome) -> Option<u64>
    requires in_range { IsResumed told.now }
    requires is_outcome { IsOutcome outcome.now }
    requires as_many { length told.now.outcome.fired.items ≡ length outcome.now.fired.items }
    ensures { MatchOption result ((v : ℕ) → v < length outcome.now.fired.items → StageAgreesAt told.now outcome.now v)
        (IsFirstDisagreement told.now outcome.now) }
{
    for vertex in 0..outcome.fired.len() as u64 {
        if !agrees_at(told, outcome, vertex) {
            return Some(vertex);
        }
    }
    None
}

/// Whether a stage and an outcome agree at a vertex.
fn agrees_at(told: &Resumed, outcome: &Outcome, vertex: u64) -> bool
    requires in_range { IsResumed told.now }
    requires is_outcome { IsOutcome outcome.now }
    requires as_many { length told.now.outcome.fired.items ≡ length outcome.now.fired.items }
    requires is_vertex { vertex < length outcome.now.fired.items }
    ensures { (result ≡ true) ↔ StageAgreesAt told.now outcome.now vertex }
{
    let last = &told.outcome;
    if !has_numbers(told, outcome, vertex) {
        return false;
    }
    if !stands_alike(&last.over, &outcome.over, vertex) {
        return false;
    }
    stands_alike(&last.sealed, &outcome.sealed, vertex)
}

/// Whether a vertex has in all stages the firings of an outcome, and its chips.
fn has_numbers(told: &Resumed, outcome: &Outcome, vertex: u64) -> bool
    requires in_range { IsResumed told.now }
    requires is_outcome { IsOutcome outcome.now }
    requires as_many { length told.now.outcome.fired.items ≡ length outcome.now.fired.items }
    requires is_vertex { vertex < length outcome.now.fired.items }
    ensures { (result ≡ true) ↔ ((fired_in_all told.now vertex ≡ slice_index outcome.now.fired.items vertex)
        × (slice_index told.now.outcome.chips.items vertex ≡ slice_index outcome.now.chips.items vertex)) }
{
    let v = vertex as usize;
    let fired = told.prior[v] + told.outcome.fired[v];
    fired == outcome.fired[v] && told.outcome.chips[v] == outcome.chips[v]
}

/// Whether a vertex is in both of two ascending lists or in neither.
fn stands_alike(one: &[u64], other: &[u64], vertex: u64) -> bool
    requires one_ascends { IsStrictlyIncreasing one.now }
    requires other_ascends { IsStrictlyIncreasing other.now }
    ensures { (result ≡ true) ↔ (Contains one.now vertex ↔ Contains other.now vertex) }
{
    is_in(one, vertex) == is_in(other, vertex)
}
