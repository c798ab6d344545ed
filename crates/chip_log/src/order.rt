//! An order of the rows of a log in which each is enabled: a message that it gets was sent before.

ghost use Rattle.std.specs.Prelude.{◌≡◌, ◌+◌, ◌^◌, ◌<◌, true, [], length, ℕ, IfOk, MatchOption, MatchResult};
ghost use Rattle.chip_log.specs.Log.{IsInterleaving, steps_of};
ghost use Rattle.chip_log.specs.Books.{IsOf};
ghost use Rattle.chip_log.specs.Past.{Fits};
ghost use Rattle.chip_log.specs.Queues.{total};
ghost use Rattle.chip_log.specs.Order.{IsWellFormed, IsOrderFault};
ghost use Rattle.chip_log.specs.Ordering.{is_there, IsReady, Reads, IsNextStep, MakesNextStep, IsOrderKept, OrderGoesOn, IsOrderBlocked, IsFirstLeft};

use crate::agenda::Agenda;
use crate::fault::OrderFault;
use crate::past::Sizes;
use crate::queues::Queues;
use crate::row::{LogRow, Step};
use crate::tally::Tally;
use crate::waits::report_waits;
use crate::watch::ClaimWatch;
use std::alloc::{AllocError, Global};

/// The rows that are done, in an order in which each was enabled, and the rows that are left.
#[derive(Drop)]
pub(crate) struct Order {
    pub(crate) done: Vec<LogRow>,
    /// How many messages of each stream are in transit after the rows that are done.
    pub(crate) flight: Tally,
    pub(crate) queues: Queues,
    pub(crate) agenda: Agenda,
}

impl Order {
    /// Before a row is read.
    fn new(alloc: Global, sizes: Sizes) -> Result<Order, AllocError>
        ensures ready { IfOk result (IsReady sizes) }
        ensures none { IfOk result (λ order. order.done.items ≡ []) }
        ensures total { IfOk result (λ order. total order.queues ≡ 0) }
    {
        Ok(Order {
            done: Vec::new(alloc),
            flight: Tally::new(alloc, sizes.channels)?,
            queues: Queues::new(alloc, sizes.processes)?,
            agenda: Agenda::new(alloc, sizes)?,
        })
    }

    /// Reads one more row, which is the last of its process that is left.
    fn read(&mut self, row: LogRow) -> Result<(), AllocError>
        requires queue { row.process < length self.old.queues }
        requires process { row.process < self.old.agenda.processes }
        ensures { IfOk result (λ _. Reads row self.old self.new) }
    {
        self.queues.push(row.process, row.step)?;
        self.agenda.add(row.process)
    }

    /// Whether a step is enabled: if it gets a message, one is in transit.
    fn may(&self, step: Step) -> bool
        requires { IsOf self.now.flight.channels step }
        ensures { result ≡ is_there self.now.flight step }
    {
        match step {
            Step::In(stream) => self.flight.count(stream) > 0,
            Step::Out(_) | Step::Passive | Step::Active | Step::Over => true,
        }
    }

    /// Makes the next step of a process. Adds to the agenda the process, and one that waits for what it sends.
    fn make(&mut self, sizes: Sizes, process: u32, step: Step) -> Result<(), AllocError>
        requires ready { IsReady sizes self.old }
        requires process { process < sizes.processes }
        requires next { IsNextStep self.old process step }
        requires there { is_there self.old.flight step ≡ true }
        ensures { IfOk result (λ _. MakesNextStep process step self.old self.new) }
    {
        self.queues.pop(process);
        self.done.push(LogRow { process, step })?;
        self.agenda.add(process)?;
        match step {
            Step::Out(stream) => {
                self.flight.add(stream);
                self.agenda.wake(stream)?;
            }
            Step::In(stream) => self.flight.remove(stream),
            Step::Passive | Step::Active | Step::Over => {}
        }
        Ok(())
    }

    /// Visits a process: makes its next step if that is enabled, and else notes which stream it waits for.
    fn turn(&mut self, sizes: Sizes, process: u32) -> Result<(), AllocError>
        requires ready { IsReady sizes self.old }
        requires process { process < sizes.processes }
        ensures { IfOk result (λ _. OrderGoesOn sizes self.old self.new) }
    {
        if let Some(step) = self.queues.first(process) {
            if self.may(step) {
                self.make(sizes, process, step)?;
            } else if let Step::In(stream) = step {
                self.agenda.note(stream, process);
            }
        }
        Ok(())
    }

    /// Visits each process on the agenda, until none is left there.
    fn run(&mut self, sizes: Sizes) -> Result<(), AllocError>
        requires { IsReady sizes self.old }
        ensures { IfOk result (λ _. OrderGoesOn sizes self.old self.new) }
    {
        while let Some(process) = self.agenda.next() {
            self.turn(sizes, process)?;
        }
        Ok(())
    }

    /// The least process whose next step is enabled, and that step.
    fn first_ready(&self, sizes: Sizes) -> Option<(u32, Step)>
        requires { IsReady sizes self.now }
        ensures { MatchOption result (IsOrderBlocked self.now) (λ found. (found.0 < sizes.processes)
            × IsNextStep self.now found.0 found.1 × (is_there self.now.flight found.1 ≡ true)) }
    {
        for process in 0..sizes.processes {
            if let Some(step) = self.queues.first(process) {
                if self.may(step) {
                    return Some((process, step));
                }
            }
        }
        None
    }

    /// Makes steps until no next step is enabled.
    ///
    /// Not proved: that the agenda, which only saves time, has each process whose next step is enabled. So all
    /// processes are visited once more when it is empty.
    fn settle(&mut self, sizes: Sizes) -> Result<(), AllocError>
        requires { IsReady sizes self.old }
        ensures goes_on { IfOk result (λ _. OrderGoesOn sizes self.old self.new) }
        ensures settled { IfOk result (λ _. IsOrderBlocked self.new) }
    {
        loop {
            self.run(sizes)?;
            match self.first_ready(sizes) {
                Some((process, step)) => self.make(sizes, process, step)?,
                None => return Ok(()),
            }
        }
    }

    /// The least process with a step left.
    fn first_left(&self, sizes: Sizes) -> Option<u32>
        requires { IsReady sizes self.now }
        ensures { IsFirstLeft self.now result }
    {
        for process in 0..sizes.processes {
            if let Some(_) = self.queues.first(process) {
                return Some(process);
            }
        }
        None
    }
}

/// How many of these rows a process has.
pub(crate) fn rows_of(rows: &[LogRow], process: u32) -> u64
    ensures { result ≡ length (steps_of process rows.now) }
{
    let mut count = 0;
    for row in rows {
        count += u64::from(row.process == process);
    }
    count
}

/// All rows of a log in an order in which each is enabled. The time is linear in the rows, the processes and the channels.
///
/// It fails exactly if there is no such order, or if memory runs out. If there is none, the waits are reported to
/// `watch`, if there is memory for that.
pub fn ordered<W: ClaimWatch>(
    alloc: Global,
    sizes: Sizes,
    rows: &[LogRow],
    watch: &mut W,
) -> Result<Vec<LogRow>, OrderFault>
    requires well_formed { IsWellFormed sizes rows.now }
    requires few { length rows.now < 2 ^ 32 }
    ensures order { MatchResult result (λ ordered. IsInterleaving rows.now ordered.items) (IsOrderFault rows.now) }
    ensures fits { IfOk result (λ ordered. Fits sizes ordered.items) }
    ensures few { IfOk result (λ ordered. length ordered.items < 2 ^ 32) }
{
    let mut order = Order::new(alloc, sizes)?;
    for row in rows {
        order.read(*row)?;
        order.run(sizes)?;
    }
    order.settle(sizes)?;
    match order.first_left(sizes) {
        Some(process) => {
            let _ = report_waits(alloc, sizes, rows, &order, process, watch);
            Err(OrderFault::Stuck {
                process,
                row: rows_of(&order.done, process),
            })
        }
        None => Ok(order.done),
    }
}
