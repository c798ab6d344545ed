use std::alloc::{AllocError, Global};
use std::marker::Model;

/// The vertices to visit, and for each tail those that wait for its firing, so that a row is visited again only after
/// something came for it.
#[derive(Drop)]
pub(crate) struct Agenda {
    due: Vec<u64>,
    waiting: Vec<Vec<u64>>,
}

impl Model for Agenda {
    ghost use Rattle.chip_trace.specs.Agenda.{ReplayAgenda};

    ghost Value = { ReplayAgenda };

    ghost use Rattle.chip_trace.specs.Agenda.{agenda_state, NamesVertices};

    ghost view = { agenda_state };

    ghost invariant = { NamesVertices };
}

impl Agenda {
    ghost use Rattle.std.specs.Prelude.{◌≡◌, ◌+◌, ◌^◌, ◌<◌, IfOk, MatchOption};

    /// All of `vertices` vertices to visit, the least first.
    pub(crate) fn of_all(alloc: Global, vertices: u64) -> Result<Agenda, AllocError>
        ensures { IfOk result (λ agenda. agenda.vertices ≡ vertices) }
    {
        let mut due = Vec::new(alloc);
        let mut waiting = Vec::new(alloc);
        for vertex in (0..vertices).rev() {
            due.push(vertex)?;
            waiting.push(Vec::new(alloc))?;
        }
        Ok(Agenda { due, waiting })
    }

    /// Removes a vertex to visit and returns it.
    pub(crate) fn next(&mut self) -> Option<u64>
        ensures same { self.new.vertices ≡ self.old.vertices }
        ensures cases { MatchOption result (self.new.due ≡ self.old.due)
            (λ vertex. (vertex < self.old.vertices) × (self.new.due + 1 ≡ self.old.due)) }
    {
        self.due.pop()
    }

    /// Notes that the vertex waits for a firing of this tail.
    pub(crate) fn wait_for(&mut self, vertex: u64, tail: u64) -> Result<(), AllocError>
        requires is_vertex { vertex < self.old.vertices }
        requires is_tail { tail < self.old.vertices }
        ensures { self.new ≡ self.old }
    {
        let waiters = &mut self.waiting[tail as usize];
        waiters.push(vertex)?;
        Ok(())
    }

    /// Adds the vertices that wait for a firing of this tail to those to visit.
    pub(crate) fn wake(&mut self, tail: u64) -> Result<(), AllocError>
        requires { tail < self.old.vertices }
        ensures same { self.new.vertices ≡ self.old.vertices }
        ensures few { self.new.due < 2 ^ 64 }
    {
        let waiters = &mut self.waiting[tail as usize];
        self.due.extend_from_slice(waiters)?;
        waiters.clear();
        Ok(())
    }
}
