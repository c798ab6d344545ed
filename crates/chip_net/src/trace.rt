ghost use Rattle.std.specs.Prelude.{◌≡◌, List, [], ◌∷◌, ◌++◌, IfOk};
ghost use Rattle.chip_net.specs.Traces.{Keeps};

use chip_link::TraceRow;
use std::alloc::{AllocError, Global};
use std::marker::Model;

/// The record of an actor's run, up to its capacity. All memory is taken at the start.
#[derive(Drop)]
pub(crate) struct Trace {
    rows: Vec<TraceRow>,
    room: usize,
    cut: bool,
}

impl Model for Trace {
    ghost use Rattle.std.specs.Prelude.{◌≤◌, length};
    ghost use Rattle.std.specs.Vec.{vec_capacity};
    ghost use Rattle.chip_net.specs.Traces.{TraceState};

    ghost Value = { TraceState };

    ghost view = { λ a. record { rows = a.rows.items; room = a.room; cut = a.cut } };

    ghost invariant = { λ a. (length a.rows.items ≤ a.room) × (a.room ≤ vec_capacity a.rows) };
}

impl Trace {
    ghost use Rattle.chip_link.specs.declared.trace.TraceRow.{TraceRow};
    ghost use Rattle.chip_link.specs.declared.event.Event.TheVariants.{Take};
    ghost use Rattle.chip_net.specs.Traces.{row_of};

    /// An empty trace with room for `room` rows.
    pub(crate) fn new(alloc: Global, room: usize) -> Result<Trace, AllocError>
        ensures room { IfOk result (λ trace. trace.room ≡ room) }
        ensures empty { IfOk result (Keeps []) }
    {
        Ok(Trace {
            rows: Vec::with_capacity(alloc, room)?,
            room,
            cut: false,
        })
    }

    /// Appends a row. Without room for it, the trace is cut from then on.
    pub(crate) fn note(&mut self, row: TraceRow)
        ensures room { self.new.room ≡ self.old.room }
        ensures keeps { (all : List TraceRow) → Keeps all self.old → Keeps (all ++ row ∷ []) self.new }
    {
        // (first: without a trace nothing else is read)
        if self.cut {
            return;
        }
        if self.rows.len() < self.room {
            self.rows.push_reserved(row);
        } else {
            self.cut = true;
        }
    }

    /// Notes the result of a take from an edge: a row, if there was a message.
    pub(crate) fn note_take(&mut self, edge: u64, count: u64)
        ensures room { self.new.room ≡ self.old.room }
        ensures keeps { (all : List TraceRow) → Keeps all self.old → Keeps (all ++ row_of (Take edge) count) self.new }
    {
        if count > 0 {
            self.note(TraceRow::Take { edge, count });
        }
    }

    pub(crate) fn rows(&self) -> &[TraceRow]
        ensures { result.now ≡ self.now.rows }
    {
        &self.rows
    }

    /// Whether a row was dropped for want of room.
    pub(crate) fn is_cut(&self) -> bool
        ensures { result ≡ self.now.cut }
    {
        self.cut
    }
}
