//! Schedules as rows of text.

ghost use Rattle.std.specs.Prelude.{◌≡◌, map, Some, None, IfOk, IfErr};
ghost use Rattle.csv.specs.Records.{fields_of};
ghost use Rattle.chip_file.specs.Answer.{Gives, ReadsText};
ghost use Rattle.chip_file.specs.Rows.{by_index};
ghost use Rattle.chip_file.specs.ScheduleText.{may_be_at, event_of_kind, event_in};
ghost use Rattle.chip_file.specs.ScheduleText.{event_fault, schedule_text_fault, schedule_of_text};
ghost use Rattle.chip_file.specs.Source.{IsFresh, ReadsSource};

use crate::fault::FileFault;
use crate::kind::kind_at;
use crate::number::number_at;
use crate::rows::{RowVisitor, visit_text};
use crate::source::Source;
use crate::whole::read_source;
use chip_graph::{Graph, Limits};
use chip_link::Event;
use csv::ByteRecord;
use std::alloc::Global;
use std::io::Read;

/// The header of a schedule.
const HEADER: [&str; 3] = ["event", "at", "count"];

/// What an event of a schedule may be.
#[derive(Clone, Copy)]
enum EventKind {
    Take,
    Ack,
    Fire,
    Clear,
    Claim,
    Put,
    Halt,
    Settle,
    Seal,
    Read,
    Feed,
    End,
}

/// The kinds of events, by their names.
static KINDS: [(&str, EventKind); 12] = [
    ("take", EventKind::Take),
    ("ack", EventKind::Ack),
    ("fire", EventKind::Fire),
    ("clear", EventKind::Clear),
    ("claim", EventKind::Claim),
    ("put", EventKind::Put),
    ("halt", EventKind::Halt),
    ("settle", EventKind::Settle),
    ("seal", EventKind::Seal),
    ("read", EventKind::Read),
    ("feed", EventKind::Feed),
    ("end", EventKind::End),
];

impl EventKind {
    /// Whether an event of this kind may be at this number: a vertex, an edge, or any number for the end of feeding.
    fn may_be_at(self, graph: &Graph, at: u64) -> bool
        ensures { result ≡ may_be_at graph.now self at }
    {
        match self {
            EventKind::Fire | EventKind::Halt | EventKind::Read => at < graph.vertices(),
            EventKind::End => true,
            _ => at < graph.all_edges(),
        }
    }

    /// The event of this kind at a vertex or an edge; only a firing and a feed have a count.
    fn event(self, at: u64, count: u64) -> Event
        ensures { result ≡ event_of_kind self at count }
    {
        match self {
            EventKind::Take => Event::Take(at),
            EventKind::Ack => Event::Ack(at),
            EventKind::Fire => Event::Fire {
                vertex: at,
                k: count,
            },
            EventKind::Clear => Event::Clear(at),
            EventKind::Claim => Event::Claim(at),
            EventKind::Put => Event::Put(at),
            EventKind::Halt => Event::Halt(at),
            EventKind::Settle => Event::Settle(at),
            EventKind::Seal => Event::Seal(at),
            EventKind::Read => Event::Read(at),
            EventKind::Feed => Event::Feed { edge: at, count },
            EventKind::End => Event::End,
        }
    }
}

/// The events of the rows so far, of a schedule for a graph.
impl RowVisitor for Vec<Event> {
    type Context = Graph;

    ghost row_fault = { λ graph. by_index (event_fault graph) };

    ghost HasVisited = { λ graph rows events. events.items ≡ map event_in rows };

    fn visit(&mut self, graph: &Graph, row: &ByteRecord, index: u64) -> Result<(), FileFault> {
        self.push(event_of(graph, row, index)?)?;
        Ok(())
    }
}

/// Reads the events of a schedule from a file of rows within the limits, in order, or returns the file's first fault.
pub fn read_schedule_within<R: Read>(
    alloc: Global,
    limits: Limits,
    reader: &mut R,
    graph: &Graph,
) -> Result<Vec<Event>, FileFault>
    ensures { ReadsText limits (λ text events. schedule_of_text graph.now text ≡ Some events.items)
        (λ text f. schedule_text_fault graph.now text ≡ Some f) (R.remaining reader.old) (R.remaining reader.new) result }
{
    schedule_of_source(alloc, limits, &mut Source::new(reader), graph)
}

/// The same from a source, which counts the reads.
pub fn schedule_of_source<R: Read>(
    alloc: Global,
    limits: Limits,
    source: &mut Source<'_, R>,
    graph: &Graph,
) -> Result<Vec<Event>, FileFault>
    requires { IsFresh source.old }
    ensures lent { source.new.reader.ghost_name ≡ source.old.reader.ghost_name }
    ensures reads { ReadsSource R.remaining limits
        (λ text events. schedule_of_text graph.now text ≡ Some events.items)
        (λ text f. schedule_text_fault graph.now text ≡ Some f) source.old source.new result }
{
    let text = read_source(alloc, limits, source)?;
    schedule_of_text(alloc, &text, graph)
}

/// The events that a text means, in order, or its first fault.
pub fn schedule_of_text(alloc: Global, text: &[u8], graph: &Graph) -> Result<Vec<Event>, FileFault>
    ensures { Gives (λ events. schedule_of_text graph.now text.now ≡ Some events.items)
        (λ f. schedule_text_fault graph.now text.now ≡ Some f) result }
{
    visit_text(alloc, text, &HEADER, graph, Vec::new(alloc))
}

/// The event of the row with this index.
fn event_of(graph: &Graph, row: &ByteRecord, index: u64) -> Result<Event, FileFault>
    ensures ok { IfOk result (λ event.
        (event_fault graph.now index (fields_of row.now) ≡ None) × (event ≡ event_in (fields_of row.now))) }
    ensures err { IfErr result (λ f. event_fault graph.now index (fields_of row.now) ≡ Some f) }
{
    if row.len() != HEADER.len() {
        return Err(FileFault::Row(index));
    }
    let kind = kind_at(&KINDS, row, 0).ok_or(FileFault::Kind(index))?;
    let at = number_at(row, 1).ok_or(FileFault::Number(index))?;
    let count = number_at(row, 2).ok_or(FileFault::Number(index))?;
    if !kind.may_be_at(graph, at) {
        return Err(FileFault::Vertex(index));
    }
    Ok(kind.event(at, count))
}
