//! What is known of the causal past of a claim, while the rows before it are read from the last to the first.

ghost use Rattle.std.specs.Prelude.{◌≡◌, ◌+◌, ◌^◌, ◌<◌, ◌||◌, ◌==◌, true, [], length, nat_lt, IfOk};
ghost use Rattle.chip_log.specs.declared.row.Stream.{Stream};
ghost use Rattle.chip_log.specs.Log.{is_out, is_in};
ghost use Rattle.chip_log.specs.Tally.{count};
ghost use Rattle.chip_log.specs.Books.{said_before, is_needed, is_message_needed, Passes, KeepsRow, HasRoomForRow, HasKeepRoom, IsOf};
ghost use Rattle.chip_log.specs.Books.{HasFlightRoom, HasMakeRoom};
ghost use Rattle.chip_log.specs.Past.{AreSized, AreBooksOf};

use crate::past::Sizes;
use crate::row::{LogRow, Step, Stream};
use crate::tally::Tally;
use std::alloc::{AllocError, Global};

/// Whether a process is active, as its rows in the past say.
#[derive(Clone, Copy)]
pub(crate) enum Said {
    /// They do not say.
    Unsaid,
    Passive,
    Active,
}

impl Said {
    /// The same with one earlier row.
    fn before(self, step: Step) -> Said
        ensures { result ≡ said_before step self }
    {
        match self {
            Said::Passive | Said::Active => self,
            Said::Unsaid => match step {
                Step::In(stream) => {
                    if stream.is_control {
                        Said::Unsaid
                    } else {
                        Said::Active
                    }
                }
                Step::Passive => Said::Passive,
                Step::Out(_) | Step::Active | Step::Over => Said::Unsaid,
            },
        }
    }
}

/// The books of a claim, after the rows read so far.
#[derive(Drop)]
pub(crate) struct Books {
    pub(crate) claimer: u32,
    /// How many messages of each stream are in transit before these rows.
    pub(crate) flight: Tally,
    /// How many messages rows in the past get, and send.
    pub(crate) taken: Tally,
    pub(crate) sent: Tally,
    /// How many rows of each process are in the past, and what they say.
    pub(crate) rows: Vec<u32>,
    pub(crate) said: Vec<Said>,
}

impl Books {
    /// The books before any row is read.
    pub(crate) fn new(alloc: Global, sizes: Sizes, claimer: u32) -> Result<Books, AllocError>
        ensures claimer { IfOk result (λ books. books.claimer ≡ claimer) }
        ensures sized { IfOk result (AreSized sizes) }
        ensures none { IfOk result (AreBooksOf [] []) }
    {
        Ok(Books {
            claimer,
            flight: Tally::new(alloc, sizes.channels)?,
            taken: Tally::new(alloc, sizes.channels)?,
            sent: Tally::new(alloc, sizes.channels)?,
            rows: vec![in alloc; 0; sizes.processes as usize]?,
            said: vec![in alloc; Said::Unsaid; sizes.processes as usize]?,
        })
    }

    /// Makes the step of a row before the claim.
    pub(crate) fn make(&mut self, step: Step)
        requires channel { IsOf self.old.flight.channels step }
        requires room { HasMakeRoom step self.old.flight }
        ensures makes { Passes step self.new.flight self.old.flight }
        ensures claimer { self.new.claimer ≡ self.old.claimer }
        ensures taken { self.new.taken ≡ self.old.taken }
        ensures sent { self.new.sent ≡ self.old.sent }
        ensures rows { self.new.rows.items ≡ self.old.rows.items }
        ensures said { self.new.said.items ≡ self.old.said.items }
    {
        match step {
            Step::Out(stream) => self.flight.add(stream),
            Step::In(stream) => self.flight.remove(stream),
            Step::Passive | Step::Active | Step::Over => {}
        }
    }

    /// Reads one more row.
    pub(crate) fn look(&mut self, row: LogRow)
        requires { HasRoomForRow row self.old }
        ensures passes { Passes row.step self.old.flight self.new.flight }
        ensures keeps { KeepsRow (is_needed row self.new.flight self.old) row self.old self.new }
    {
        pass(&mut self.flight, row.step);
        if self.needs(row) {
            self.keep(row);
        }
    }

    /// Whether this row is in the past.
    fn needs(&self, row: LogRow) -> bool
        requires process { row.process < length self.now.rows.items }
        requires flight { IsOf self.now.flight.channels row.step }
        requires taken { IsOf self.now.taken.channels row.step }
        ensures { result ≡ is_needed row self.now.flight self.now }
    {
        row.process == self.claimer
            || self.rows[row.process as usize] > 0
            || self.needs_message(row.step)
    }

    /// Whether the message of this step is needed.
    fn needs_message(&self, step: Step) -> bool
        requires flight { IsOf self.now.flight.channels step }
        requires taken { IsOf self.now.taken.channels step }
        ensures { result ≡ is_message_needed self.now.flight self.now.taken step }
    {
        match step {
            Step::Out(stream) => self.flight.count(stream) < self.taken.count(stream),
            Step::In(_) | Step::Passive | Step::Active | Step::Over => false,
        }
    }

    /// Notes a row of the past.
    pub(crate) fn keep(&mut self, row: LogRow)
        requires { HasKeepRoom row self.old }
        ensures flight { self.new.flight ≡ self.old.flight }
        ensures keeps { KeepsRow true row self.old self.new }
    {
        let said = self.said[row.process as usize];
        self.said[row.process as usize] = said.before(row.step);
        self.rows[row.process as usize] += 1;
        match row.step {
            Step::Out(stream) => self.sent.add(stream),
            Step::In(stream) => self.taken.add(stream),
            Step::Passive | Step::Active | Step::Over => {}
        }
    }
}

/// Undoes the step in the messages in transit.
fn pass(flight: &mut Tally, step: Step)
    requires channel { IsOf flight.old.channels step }
    requires room { HasFlightRoom step flight.old }
    ensures { Passes step flight.old flight.new }
{
    match step {
        Step::Out(stream) => flight.remove(stream),
        Step::In(stream) => flight.add(stream),
        Step::Passive | Step::Active | Step::Over => {}
    }
}
