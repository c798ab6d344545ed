use crate::row::Step;
use std::alloc::{AllocError, Global};
use std::collections::VecDeque;
use std::marker::Model;

/// The steps of each process that are read and not done, in its order.
#[derive(Drop)]
pub(crate) struct Queues {
    steps: Vec<VecDeque<Step>>,
}

impl Model for Queues {
    ghost use Rattle.std.specs.Prelude.{List};
    ghost use Rattle.chip_log.specs.declared.row.Step.{Step};
    ghost use Rattle.chip_log.specs.Queues.{queues_of};

    ghost Value = { List (List Step) };

    ghost view = { queues_of };
}

impl Queues {
    ghost use Rattle.std.specs.Prelude.{◌≡◌, ◌+◌, ◌<◌, ◌++◌, ◌∷◌, [], length, replicate, slice_set, drop, IfOk};
    ghost use Rattle.chip_log.specs.Queues.{queue_of, step_in_front};

    /// Empty queues of `processes` processes.
    pub(crate) fn new(alloc: Global, processes: u32) -> Result<Queues, AllocError>
        ensures { IfOk result (λ queues. queues ≡ replicate processes []) }
    {
        let mut steps = Vec::new(alloc);
        for _process in 0..processes {
            steps.push(VecDeque::new(alloc))?;
        }
        Ok(Queues { steps })
    }

    /// Adds one more step of a process.
    pub(crate) fn push(&mut self, process: u32, step: Step) -> Result<(), AllocError>
        requires { process < length self.old }
        ensures { IfOk result (λ _. self.new ≡ slice_set self.old process (queue_of self.old process ++ step ∷ [])) }
    {
        let queue = &mut self.steps[process as usize];
        queue.push_back(step)?;
        Ok(())
    }

    /// The next step of a process.
    pub(crate) fn first(&self, process: u32) -> Option<Step>
        requires { process < length self.now }
        ensures { result ≡ step_in_front (queue_of self.now process) }
    {
        self.steps[process as usize].front().copied()
    }

    /// Removes the next step of a process, which is done.
    pub(crate) fn pop(&mut self, process: u32)
        requires { process < length self.old }
        ensures { self.new ≡ slice_set self.old process (drop 1 (queue_of self.old process)) }
    {
        let queue = &mut self.steps[process as usize];
        queue.pop_front();
    }
}
