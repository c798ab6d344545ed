//! The rows of drops, each with a vertex, its chips and the avalanche.

ghost use Rattle.std.specs.Prelude.{◌≡◌, ℕ, ◌+◌, ◌<◌, ◌≤◌, ◌++◌, [], IfOk, List, sum, slice_index};
ghost use Rattle.std.specs.Prelude.{string_bytes, length, true, Option, MatchResult};
ghost use Rattle.chip_graph.specs.Limits.{max_total};
ghost use Rattle.chip_graph.specs.More.{AreOfVertices, all_brought};
ghost use Rattle.chip_fire.specs.Pile.{IsPile};
ghost use Rattle.chip_sequence.specs.Firing.{IsStable};
ghost use Rattle.chip_engine.specs.DropRows.{WritesRows, IsOut, FailsOut, row_text, rows_text};

use chip_command::Fault;
use chip_fire::{Avalanche, Pile, Watch};
use chip_report::{WriteFault, write_all_of};
use std::alloc::{AllocError, Global};
use std::io::Write;

/// The first line.
pub const HEADER: &str = "vertex,chips,size,extent,lost\n";

/// The number of bytes that are gathered before they are written.
const STRETCH: usize = 65_536;

/// The most bytes of a row.
const ROW: usize = 128;

/// Rows that are gathered until they are written.
#[derive(Drop)]
struct Rows {
    text: String,
    /// The number of bytes written.
    written: u64,
}

impl Rows {
    /// The first line, not yet written.
    fn new(alloc: Global) -> Result<Rows, AllocError>
        ensures { IfOk result (λ rows. (string_bytes rows.text ≡ rows_text []) × (rows.written ≡ 0)) }
    {
        let mut text = String::with_capacity(alloc, STRETCH + ROW)?;
        text.push_str(HEADER)?;
        Ok(Rows { text, written: 0 })
    }

    /// Writes what was gathered.
    fn write<W: Write>(&mut self, output: &mut W) -> Result<(), Fault>
        ensures flushed { IfOk result (λ _. string_bytes self.new.text ≡ []) }
        ensures bytes { (old : Option (List ℕ)) (all : List ℕ)
            → IsOut old (W.contents output.old) (string_bytes self.old.text) self.old.written all
            → MatchResult result
            (λ _. IsOut old (W.contents output.new) (string_bytes self.new.text) self.new.written all)
            (FailsOut old (W.contents output.new) all) }
    {
        let Some(written) = self.written.checked_add(self.text.len() as u64) else {
            return Err(Fault::NoMemory);
        };
        match write_all_of(output, self.text.as_bytes()) {
            Ok(()) => {
                self.written = written;
                self.text.clear();
                Ok(())
            }
            Err(fault) => Err(Fault::Write(WriteFault {
                written: self.written + fault.written,
            })),
        }
    }

    /// Writes what was gathered, if it is time.
    fn write_if<W: Write>(&mut self, is_time: bool, output: &mut W) -> Result<(), Fault>
        ensures flushed { is_time ≡ true → IfOk result (λ _. string_bytes self.new.text ≡ []) }
        ensures fewer { IfOk result (λ _. length (string_bytes self.new.text) ≤ length (string_bytes self.old.text)) }
        ensures bytes { (old : Option (List ℕ)) (all : List ℕ)
            → IsOut old (W.contents output.old) (string_bytes self.old.text) self.old.written all
            → MatchResult result
            (λ _. IsOut old (W.contents output.new) (string_bytes self.new.text) self.new.written all)
            (FailsOut old (W.contents output.new) all) }
    {
        if is_time { self.write(output) } else { Ok(()) }
    }

    /// Adds a row, and writes all rows if there are enough.
    fn push<W: Write>(
        &mut self,
        vertex: u64,
        count: u64,
        avalanche: Avalanche,
        output: &mut W,
    ) -> Result<(), Fault>
        requires few { length (string_bytes self.old.text) < 65536 }
        ensures few { IfOk result (λ _. length (string_bytes self.new.text) < 65536) }
        ensures bytes { (old : Option (List ℕ)) (all : List ℕ)
            → IsOut old (W.contents output.old) (string_bytes self.old.text) self.old.written all
            → let more = all ++ row_text ((vertex, count), avalanche) in MatchResult result
            (λ _. IsOut old (W.contents output.new) (string_bytes self.new.text) self.new.written more)
            (FailsOut old (W.contents output.new) more) }
    {
        push_row(&mut self.text, vertex, count, avalanche)?;
        let is_time = self.text.len() >= STRETCH;
        self.write_if(is_time, output)
    }
}

/// Appends the row of a drop.
fn push_row(
    text: &mut String,
    vertex: u64,
    count: u64,
    avalanche: Avalanche,
) -> Result<(), AllocError>
    ensures row { IfOk result
        (λ _. string_bytes text.new ≡ string_bytes text.old ++ row_text ((vertex, count), avalanche)) }
    ensures short { length (row_text ((vertex, count), avalanche)) ≤ 128 }
{
    let Avalanche { size, extent, lost } = avalanche;
    writeln!(text, "{vertex},{count},{size},{extent},{lost}")
}

/// Drops chips one after another on a pile, each a vertex and a count, and writes a row for each when its play has
/// ended. A drop whose play the limit stops has no row and is the last.
///
/// Returns the pile, and whether all drops were made and none was stopped. After a fault the last play may not have
/// ended. At most 65,664 bytes of rows are held back. Before a play that no work list finishes, all rows are written
/// and the watcher is called.
pub fn write_rows<P: Watch, W: Write>(
    alloc: Global,
    mut pile: Pile,
    drops: &[(u64, u64)],
    watch: &mut P,
    output: &mut W,
) -> (Pile, Result<bool, Fault>)
    requires pile { IsPile pile }
    requires stable { IsStable pile.game.graph (slice_index pile.chips.items) }
    requires vertices { AreOfVertices pile.game drops.now }
    requires few_chips { sum pile.game.start + all_brought drops.now ≤ max_total }
    ensures { WritesRows pile drops.now (W.contents output.old) (W.contents output.new) result.0 result.1 }
{
    let Ok(mut rows) = Rows::new(alloc) else {
        return (pile, Err(Fault::NoMemory));
    };
    let mut all = true;
    'drops: for &(vertex, count) in drops {
        let begun = pile.begin_drop(vertex, count);
        if let Err(fault) = rows.write_if(begun.is_slow(), output) {
            return (begun.pile, Err(fault));
        }
        let (next, avalanche) = begun.finish(alloc, watch);
        pile = next;
        let Some(avalanche) = avalanche else {
            all = false;
            break;
        };
        if let Err(fault) = rows.push(vertex, count, avalanche, output) {
            return (pile, Err(fault));
        }
    }
    match rows.write(output) {
        Ok(()) => (pile, Ok(all)),
        Err(fault) => (pile, Err(fault)),
    }
}
