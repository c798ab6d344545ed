use crate::past::Sizes;
use crate::row::Stream;
use std::alloc::{AllocError, Global};
use std::marker::Model;

/// The processes to visit, and for each stream a process that `wake` adds to them: the one that waits for a message
/// there, so that it is visited again only after one came; or the one that sends there.
#[derive(Drop)]
pub(crate) struct Agenda {
    processes: u32,
    due: Vec<u32>,
    basic: Vec<Option<u32>>,
    control: Vec<Option<u32>>,
}

impl Model for Agenda {
    ghost use Rattle.chip_log.specs.Agenda.{AgendaState, state_of, NamesProcesses};

    ghost Value = { AgendaState };

    ghost view = { state_of };

    ghost invariant = { NamesProcesses };
}

impl Agenda {
    ghost use Rattle.std.specs.Prelude.{◌≡◌, ◌+◌, ◌<◌, ◌≤◌, IfOk, MatchOption};
    ghost use Rattle.chip_log.specs.Agenda.{IsSame};

    /// No process to visit.
    pub(crate) fn new(alloc: Global, sizes: Sizes) -> Result<Agenda, AllocError>
        ensures processes { IfOk result (λ agenda. agenda.processes ≡ sizes.processes) }
        ensures channels { IfOk result (λ agenda. agenda.channels ≡ sizes.channels) }
        ensures none { IfOk result (λ agenda. agenda.due ≡ 0) }
    {
        Ok(Agenda {
            processes: sizes.processes,
            due: Vec::new(alloc),
            basic: vec![in alloc; None; sizes.channels as usize]?,
            control: vec![in alloc; None; sizes.channels as usize]?,
        })
    }

    /// Adds a process to visit.
    pub(crate) fn add(&mut self, process: u32) -> Result<(), AllocError>
        requires { process < self.old.processes }
        ensures same { IsSame self.old self.new }
        ensures due { IfOk result (λ _. self.new.due ≡ self.old.due + 1) }
    {
        self.due.push(process)?;
        Ok(())
    }

    /// Removes a process to visit and returns it.
    pub(crate) fn next(&mut self) -> Option<u32>
        ensures same { IsSame self.old self.new }
        ensures cases { MatchOption result (self.new.due ≡ self.old.due)
            (λ process. (process < self.old.processes) × (self.new.due + 1 ≡ self.old.due)) }
    {
        self.due.pop()
    }

    /// Notes the process of a stream.
    pub(crate) fn note(&mut self, stream: Stream, process: u32)
        requires is_process { process < self.old.processes }
        requires is_stream { stream.channel < self.old.channels }
        ensures { self.new ≡ self.old }
    {
        if stream.is_control {
            self.control[stream.channel as usize] = Some(process);
        } else {
            self.basic[stream.channel as usize] = Some(process);
        }
    }

    /// Adds the process of this stream, if there is one.
    pub(crate) fn wake(&mut self, stream: Stream) -> Result<(), AllocError>
        requires { stream.channel < self.old.channels }
        ensures same { IsSame self.old self.new }
        ensures due { self.new.due ≤ self.old.due + 1 }
    {
        let noted = if stream.is_control {
            self.control[stream.channel as usize]
        } else {
            self.basic[stream.channel as usize]
        };
        if let Some(process) = noted {
            self.due.push(process)?;
        }
        Ok(())
    }
}
