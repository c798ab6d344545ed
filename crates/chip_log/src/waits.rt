//! The waits of a log whose rows have no order: which process waits for which.

ghost use Rattle.std.specs.Prelude.{◌≡◌, ◌<◌, IfOk};
ghost use Rattle.chip_log.specs.Past.{Fits};
ghost use Rattle.chip_log.specs.Ordering.{IsReady};

use crate::agenda::Agenda;
use crate::order::{Order, rows_of};
use crate::past::Sizes;
use crate::row::{LogRow, Step, Stream};
use crate::watch::ClaimWatch;
use std::alloc::{AllocError, Global};

/// Processes that wait at maximal progress, each for a message of a stream on which the next one sends.
#[derive(Drop)]
pub struct Waits {
    pub processes: Vec<u32>,
    /// The row at which the last one waits. Rows count from 0, and so do the messages of a stream.
    pub row: u64,
    /// The stream on which it waits.
    pub stream: Stream,
    pub message: u64,
    /// The process that sends on that stream, if there is one. It is one of these processes, or it has no row left.
    pub sender: Option<u32>,
}

/// Follows the waits from a process, and reports them to `watch`, if there is memory for that.
pub(crate) fn report_waits<W: ClaimWatch>(
    alloc: Global,
    sizes: Sizes,
    rows: &[LogRow],
    order: &Order,
    process: u32,
    watch: &mut W,
) -> Result<(), AllocError>
    requires fits { Fits sizes rows.now }
    requires ready { IsReady sizes order.now }
    requires process { process < sizes.processes }
{
    let mut senders = senders_of(alloc, sizes, rows)?;
    let mut is_named = vec![in alloc; false; sizes.processes as usize]?;
    let mut processes = Vec::new(alloc);
    let mut last = process;
    for _wait in 0..sizes.processes {
        let Some(Step::In(stream)) = order.queues.first(last) else {
            return Ok(());
        };
        processes.push(last)?;
        is_named[last as usize] = true;
        senders.wake(stream)?;
        let sender = senders.next();
        match sender {
            Some(next) if !is_named[next as usize] && order.queues.first(next).is_some() => {
                last = next;
            }
            _ => {
                watch.waits(&Waits {
                    processes,
                    row: rows_of(&order.done, last),
                    stream,
                    message: taken_of(&order.done, stream),
                    sender,
                });
                return Ok(());
            }
        }
    }
    Ok(())
}

/// An agenda in which the process of each stream is the one that sends there, if there is one.
fn senders_of(alloc: Global, sizes: Sizes, rows: &[LogRow]) -> Result<Agenda, AllocError>
    requires { Fits sizes rows.now }
    ensures { IfOk result (λ senders. (senders.processes ≡ sizes.processes) × (senders.channels ≡ sizes.channels)) }
{
    let mut senders = Agenda::new(alloc, sizes)?;
    for row in rows {
        if let Step::Out(stream) = row.step {
            senders.note(stream, row.process);
        }
    }
    Ok(senders)
}

/// How many messages of a stream these rows get.
fn taken_of(rows: &[LogRow], stream: Stream) -> u64 {
    let taken = rows.iter().filter(|row| row.step == Step::In(stream));
    taken.count() as u64
}
