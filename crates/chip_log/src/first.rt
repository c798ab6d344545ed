//! The first early claim of a log.

ghost use Rattle.std.specs.Prelude.{◌^◌, ◌<◌, length, IfOk, MatchResult};
ghost use Rattle.chip_log.specs.Past.{IsInOrder};
ghost use Rattle.chip_log.specs.Order.{IsWellFormed, IsOrderFault};
ghost use Rattle.chip_log.specs.First.{IsFirstEarly};
ghost use Rattle.chip_log.specs.Judge.{AreBeginners};

use crate::claims::claims_of;
use crate::fault::OrderFault;
use crate::judge::judge_next;
use crate::judged::ClaimVerdict;
use crate::order::ordered;
use crate::past::Sizes;
use crate::row::LogRow;
use crate::watch::ClaimWatch;
use std::alloc::{AllocError, Global};

/// Finds the first early claim of a log, by process and row, if there is one. No claim after it is judged.
///
/// The time is linear in the rows, the processes and the channels, once more for each process up to that of the claim.
/// With `with_past` the rows in the claim's causal past are counted.
///
/// It fails exactly if the rows have no order in which each is enabled, or if memory runs out.
pub fn first_early<W: ClaimWatch>(
    alloc: Global,
    sizes: Sizes,
    rows: &[LogRow],
    beginners: &[Option<bool>],
    with_past: bool,
    watch: &mut W,
) -> Result<Option<ClaimVerdict>, OrderFault>
    requires well_formed { IsWellFormed sizes rows.now }
    requires few { length rows.now < 2 ^ 32 }
    requires beginners { AreBeginners sizes rows.now beginners.now }
    ensures { MatchResult result (IsFirstEarly with_past rows.now) (IsOrderFault rows.now) }
{
    let order = ordered(alloc, sizes, rows, watch)?;
    Ok(first_in_order(alloc, sizes, &order, beginners, with_past, watch)?)
}

/// The first early claim of an ordered log, if there is one.
fn first_in_order<W: ClaimWatch>(
    alloc: Global,
    sizes: Sizes,
    rows: &[LogRow],
    beginners: &[Option<bool>],
    with_past: bool,
    watch: &mut W,
) -> Result<Option<ClaimVerdict>, AllocError>
    requires order { IsInOrder sizes rows.now }
    requires beginners { AreBeginners sizes rows.now beginners.now }
    ensures { IfOk result (IsFirstEarly with_past rows.now) }
{
    let places = claims_of(alloc, sizes, rows)?;
    let mut right = None;
    let mut next = 0;
    while next < places.len() {
        watch.judges(next, places.len());
        let place = places[next];
        let claim = judge_next(alloc, sizes, rows, beginners, place, right, with_past)?;
        if claim.verdict.is_early() {
            return Ok(Some(claim));
        }
        right = Some(place);
        next += 1;
    }
    Ok(None)
}
