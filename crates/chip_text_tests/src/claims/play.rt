//! Short words for rows, and questions to a log.

ghost use Rattle.std.specs.Prelude.{◌≡◌, ◌^◌, ◌<◌, IfOk, IsTrue, length};
ghost use Rattle.chip_log.specs.Judge.{AreBeginners, first_step};
ghost use Rattle.chip_log.specs.Past.{Fits};
ghost use Rattle.chip_text_tests.specs.Checks.{may_order};

use chip_log::{
    ClaimVerdict, ClaimWatch, JudgedLog, LogEnd, LogRow, OrderFault, Sizes, Step, Stream,
    Unwatched, Verdict, first_absent, first_early, judge_log,
};
use std::alloc::{AllocError, Global};
use std::process::Abort;

/// A row of a process.
macro_rules! row {
    ($process:expr, $step:expr) => {
        LogRow {
            process: $process,
            step: $step,
        }
    };
}

/// A message of a channel, a control message or not.
macro_rules! stream {
    ($channel:expr, $is_control:expr) => {
        Stream {
            channel: $channel,
            is_control: $is_control,
        }
    };
}

macro_rules! send {
    ($process:expr, $channel:expr) => {
        row!($process, Step::Out(stream!($channel, false)))
    };
}

macro_rules! receive {
    ($process:expr, $channel:expr) => {
        row!($process, Step::In(stream!($channel, false)))
    };
}

macro_rules! tell {
    ($process:expr, $channel:expr) => {
        row!($process, Step::Out(stream!($channel, true)))
    };
}

macro_rules! hear {
    ($process:expr, $channel:expr) => {
        row!($process, Step::In(stream!($channel, true)))
    };
}

pub(crate) use hear;
pub(crate) use receive;
pub(crate) use row;
pub(crate) use send;
pub(crate) use stream;
pub(crate) use tell;

/// Room for the logs of these tests.
pub(crate) const SIZES: Sizes = Sizes {
    processes: 3,
    channels: 3,
};

/// Of each process whether it begins active; `None` if it has no row.
fn beginners(alloc: Global, sizes: Sizes, rows: &[LogRow]) -> Result<Vec<Option<bool>>, AllocError>
    requires { Fits sizes rows.now }
    ensures { IfOk result (λ beginners. AreBeginners sizes rows.now beginners.items) }
{
    let mut beginners = vec![in alloc; None; sizes.processes as usize]?;
    for row in rows {
        let begins = beginners[row.process as usize];
        beginners[row.process as usize] = first_of(begins, row.step);
    }
    Ok(beginners)
}

/// Whether a process begins active, if it has one more row.
fn first_of(begins: Option<bool>, step: Step) -> Option<bool>
    ensures { result ≡ first_step begins step }
{
    Some(begins.unwrap_or(matches!(step, Step::Active)))
}

/// The judgment of a log, with the causal past of each early claim.
pub(crate) fn judged<W: ClaimWatch>(
    rt: &impl AllocGlobal,
    sizes: Sizes,
    rows: &[LogRow],
    watch: &mut W,
) -> Result<JudgedLog, OrderFault>
    requires well_formed { IsTrue (may_order sizes rows.now) }
    requires few { length rows.now < 2 ^ 32 }
{
    let beginners = beginners(rt.alloc(), sizes, rows)?;
    judge_log(rt.alloc(), sizes, rows, &beginners, true, watch)
}

/// The first early claim of a log, with its causal past, if there is one.
pub(crate) fn first(
    rt: &impl AllocGlobal,
    sizes: Sizes,
    rows: &[LogRow],
) -> Result<Option<ClaimVerdict>, OrderFault>
    requires well_formed { IsTrue (may_order sizes rows.now) }
    requires few { length rows.now < 2 ^ 32 }
{
    let beginners = beginners(rt.alloc(), sizes, rows)?;
    first_early(rt.alloc(), sizes, rows, &beginners, true, &mut Unwatched)
}

/// The least of the first `expected` processes without a row, if there is one.
pub(crate) fn absent(
    rt: &(impl AllocGlobal + Abort),
    sizes: Sizes,
    rows: &[LogRow],
    expected: u64,
) -> Option<u64>
    requires well_formed { IsTrue (may_order sizes rows.now) }
{
    let beginners = beginners(rt.alloc(), sizes, rows).ok().expect(rt, "memory");
    first_absent(&beginners, expected)
}

/// The verdict on the last claim of a log, if there is a claim.
pub(crate) fn last_verdict(
    rt: &(impl AllocGlobal + Abort),
    sizes: Sizes,
    rows: &[LogRow],
) -> Option<Verdict>
    requires well_formed { IsTrue (may_order sizes rows.now) }
    requires few { length rows.now < 2 ^ 32 }
{
    let judged = judged(rt, sizes, rows, &mut Unwatched)
        .ok()
        .expect(rt, "an order");
    judged.claims.last().map(|claim| claim.verdict)
}

/// How a log ends.
pub(crate) fn end(rt: &(impl AllocGlobal + Abort), sizes: Sizes, rows: &[LogRow]) -> LogEnd
    requires well_formed { IsTrue (may_order sizes rows.now) }
    requires few { length rows.now < 2 ^ 32 }
{
    judged(rt, sizes, rows, &mut Unwatched)
        .ok()
        .expect(rt, "an order")
        .end
}
