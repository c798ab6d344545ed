//! `recurrent` and `identity`: configurations of the sandpile group, as chips files.

ghost use Rattle.std.specs.Prelude.{◌≡◌, length, slice_index, IfOk};
ghost use Rattle.chip_file.specs.ChipsText.{text_of_chips};
ghost use Rattle.chip_group.specs.Recurrent.{AgreeOffSink};
ghost use Rattle.chip_command.specs.CommandAnswers.{GivesAnswer};
ghost use Rattle.chip_command.specs.Statuses.{number_of_status};
ghost use Rattle.chip_engine.specs.RecurrentCommand.{RecurrentAnswers, IdentityAnswers, TellsWhether};
ghost use Rattle.chip_engine.specs.RecurrentCommand.{representing, identifying, fault_of_row};

use chip_command::{Answer, Ended, Fault, Status, deliver, read_game};
use chip_file::{read_graph_within, text_of_chips};
use chip_graph::{Game, GameFault, Graph, Limits, MAX_LIMIT};
use chip_recurrent::{Form, Represented, RowFault, agree_off_sink, identity, representative_of};
use std::alloc::{AllocError, Global};
use std::io::{Read, Write};

/// Writes the recurrent configuration that is equivalent to the chips of a file, on the graph of a file within these
/// limits. The status says whether the chips are recurrent.
pub fn recurrent_engine<G: Read, C: Read, W: Write>(
    alloc: Global,
    graph: &mut G,
    chips: &mut C,
    limits: Limits,
    output: &mut W,
) -> Result<Ended, Fault>
    ensures { RecurrentAnswers limits (G.remaining graph.old) (C.remaining chips.old)
        (W.contents output.old) (W.contents output.new) result }
{
    let game = read_game(alloc, limits, graph, chips, MAX_LIMIT)?;
    let answer = represent(alloc, game)?;
    deliver(output, answer)
}

/// Writes the identity of the sandpile group of the graph of a file within these limits.
pub fn identity_engine<G: Read, W: Write>(
    alloc: Global,
    graph: &mut G,
    limits: Limits,
    output: &mut W,
) -> Result<Ended, Fault>
    ensures { IdentityAnswers limits (G.remaining graph.old) (W.contents output.old) (W.contents output.new) result }
{
    let graph = read_graph_within(alloc, limits, graph)?;
    let answer = identify(alloc, graph)?;
    deliver(output, answer)
}

/// The recurrent representative of the chips of a game, and whether they are recurrent.
fn represent(alloc: Global, game: Game) -> Result<Answer, Fault>
    ensures { GivesAnswer (representing game) result }
{
    let chips = Vec::from_slice(alloc, game.start())?;
    match representative_of(alloc, game.into_graph(), Form::Recurrent, &chips) {
        Ok(found) => Ok(compare(alloc, &found, &chips)?),
        Err(fault) => Err(fault_of_row(fault)),
    }
}

/// Chips that were found, and whether they are these except on the sink.
fn compare(alloc: Global, found: &Represented, chips: &[u64]) -> Result<Answer, AllocError>
    requires found_each { length found.now.chips.items ≡ found.now.graph.vertices }
    requires chips_each { length chips.now ≡ found.now.graph.vertices }
    ensures text { IfOk result (λ answer. answer.text.items ≡ text_of_chips found.now.chips.items) }
    ensures status { IfOk result (λ answer. TellsWhether
        (AgreeOffSink found.now.graph (slice_index chips.now) (slice_index found.now.chips.items))
        (number_of_status answer.status)) }
{
    let text = text_of_chips(alloc, &found.chips)?;
    let mut answer = Answer::of_lines(text);
    if !agree_off_sink(&found.graph, chips, &found.chips) {
        answer.status = Status::Halted;
    }
    Ok(answer)
}

/// The identity of the sandpile group.
fn identify(alloc: Global, graph: Graph) -> Result<Answer, Fault>
    ensures { GivesAnswer (identifying graph) result }
{
    match identity(alloc, graph) {
        Ok(chips) => Ok(Answer::of_lines(text_of_chips(alloc, &chips)?)),
        Err(fault) => Err(fault_of_row(fault)),
    }
}

/// The fault of a command for that of a stabilization.
fn fault_of_row(fault: RowFault) -> Fault
    ensures { result ≡ fault_of_row fault }
{
    match fault {
        RowFault::Total(_) => Fault::Game(GameFault::Total),
        RowFault::Stopped(row) => Fault::Stopped(row),
        RowFault::NoMemory => Fault::NoMemory,
    }
}
