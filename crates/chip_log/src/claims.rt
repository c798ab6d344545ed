//! The places of the claims in an ordered log.

ghost use Rattle.std.specs.Prelude.{◌^◌, ◌<◌, length, IfOk};
ghost use Rattle.chip_log.specs.Past.{Fits};
ghost use Rattle.chip_log.specs.Judge.{ArePlaces};
ghost use Rattle.chip_log.specs.Places.{AreFound};

use crate::past::{ClaimPlace, Sizes};
use crate::row::{LogRow, Step};
use std::alloc::{AllocError, Global};

/// More rows than a process has.
const ROWS: u64 = 1 << 32;

/// All claims, by process and row.
pub(crate) fn claims_of(
    alloc: Global,
    sizes: Sizes,
    rows: &[LogRow],
) -> Result<Vec<ClaimPlace>, AllocError>
    requires fits { Fits sizes rows.now }
    requires few { length rows.now < 2 ^ 32 }
    ensures { IfOk result (λ claims. ArePlaces rows.now claims.items) }
{
    let mut claims = found(alloc, sizes, rows)?;
    claims.sort_unstable_by_key(|claim| u64::from(claim.process) * ROWS + u64::from(claim.row));
    Ok(claims)
}

/// All claims, in the order of the rows.
fn found(alloc: Global, sizes: Sizes, rows: &[LogRow]) -> Result<Vec<ClaimPlace>, AllocError>
    requires fits { Fits sizes rows.now }
    requires few { length rows.now < 2 ^ 32 }
    ensures { IfOk result (λ claims. AreFound rows.now claims.items) }
{
    let mut claims = Vec::new(alloc);
    let mut counts = vec![in alloc; 0; sizes.processes as usize]?;
    let mut at = 0;
    while at < rows.len() {
        let row = rows[at];
        let count = counts[row.process as usize];
        if let Step::Over = row.step {
            claims.push(ClaimPlace {
                process: row.process,
                row: count,
                at,
            })?;
        }
        counts[row.process as usize] = count + 1;
        at += 1;
    }
    Ok(claims)
}
