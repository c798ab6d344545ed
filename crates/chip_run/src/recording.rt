//! What the actors of a crew wrote down.

ghost use Rattle.std.specs.Prelude.{Some, option_map, IfOk, IfErr, MatchResult};
ghost use Rattle.chip_run.specs.Recording.{Records, RecordsIfAsked, FailsToRecord};

use chip_command::Fault;
use chip_net::Actor;
use chip_trace::write_trace;
use std::alloc::Global;
use std::io::Write;

/// Writes the traces of all actors, if asked, and returns whether one of them was cut.
pub(crate) fn record_if_asked<T: Write>(
    alloc: Global,
    actors: &[Actor],
    trace: &mut Option<T>,
) -> Result<bool, Fault>
    ensures { let old = option_map T.contents trace.old in let new = option_map T.contents trace.new in
        MatchResult result (RecordsIfAsked actors.now old new) (FailsToRecord actors.now old new) }
{
    match trace {
        Some(writer) => write_traces(alloc, actors, writer),
        None => Ok(false),
    }
}

/// Writes the traces of all actors, and returns whether one of them was cut.
fn write_traces<T: Write>(alloc: Global, actors: &[Actor], writer: &mut T) -> Result<bool, Fault>
    ensures records { IfOk result (Records actors.now (T.contents writer.old) (T.contents writer.new)) }
    ensures fault { IfErr result (FailsToRecord actors.now (Some (T.contents writer.old))
        (Some (T.contents writer.new))) }
{
    let mut traces = Vec::with_capacity(alloc, actors.len())?;
    let mut cut = false;
    for actor in actors {
        let (rows, is_cut) = actor.trace();
        traces.push_reserved(rows);
        cut = cut || is_cut;
    }
    write_trace(alloc, &traces, writer)?;
    Ok(cut)
}
