//! The library for C: each function exports one of `chip_library` under its own name. A slice is a pointer and a
//! length. The status is 0 or the number of a fault, whose place is written.
#![tactic(auto)]

ghost use Rattle.std.specs.Prelude.{◌≡◌};
ghost use Rattle.chip_library.specs.Batch.{StabilizesAll};
ghost use Rattle.chip_library.specs.Claims.{Verifies};
ghost use Rattle.chip_library.specs.Drops.{Avalanches};
ghost use Rattle.chip_exports.specs.Answers.{Answers, answer_of};

use chip_library::{CallFault, EdgeLists, VERSION, avalanches, stabilize_all, verify};
use std::alloc::Global;

mod detector;
mod group;
mod pile;
mod sums;

/// The version of the library: 1,000,000 * major + 1,000 * minor + patch.
#[unsafe(no_mangle)]
pub extern "C" fn chipfire_version() -> u64
    ensures { result ≡ VERSION }
{
    VERSION
}

/// Plays games on one graph (`chip_library::stabilize_all`).
#[unsafe(no_mangle)]
pub extern "C" fn chipfire_stabilize_all(
    alloc: Global,
    vertices: u64,
    sink: u64,
    tails: &[u64],
    heads: &[u64],
    mults: &[u64],
    limit: u64,
    guesses: &[u64],
    chips: &mut [u64],
    fired: &mut [u64],
    stopped: &mut [u64],
    place: &mut u64,
) -> u64
    ensures { Answers result place.new (StabilizesAll
        (record { vertices = vertices; sink = sink; tails = tails.entry; heads = heads.entry; mults = mults.entry })
        limit guesses.now
        (record { chips = chips.old; fired = fired.old; stopped = stopped.old })
        (record { chips = chips.new; fired = fired.new; stopped = stopped.new })) }
{
    let edges = EdgeLists {
        vertices,
        sink,
        tails,
        heads,
        mults,
    };
    let done = stabilize_all(alloc, edges, limit, guesses, chips, fired, stopped);
    answer(done, place)
}

/// Drops chips on a game, one drop after another (`chip_library::avalanches`).
#[unsafe(no_mangle)]
pub extern "C" fn chipfire_avalanches(
    alloc: Global,
    vertices: u64,
    sink: u64,
    tails: &[u64],
    heads: &[u64],
    mults: &[u64],
    limit: u64,
    at: &[u64],
    amounts: &[u64],
    chips: &mut [u64],
    sizes: &mut [u64],
    extents: &mut [u64],
    losts: &mut [u64],
    place: &mut u64,
) -> u64
    ensures { Answers result place.new (Avalanches
        (record { vertices = vertices; sink = sink; tails = tails.entry; heads = heads.entry; mults = mults.entry })
        limit at.now amounts.now
        (record { chips = chips.old; sizes = sizes.old; extents = extents.old; losts = losts.old })
        (record { chips = chips.new; sizes = sizes.new; extents = extents.new; losts = losts.new })) }
{
    let edges = EdgeLists {
        vertices,
        sink,
        tails,
        heads,
        mults,
    };
    let done = avalanches(
        alloc, edges, limit, at, amounts, chips, sizes, extents, losts,
    );
    answer(done, place)
}

/// Verifies that a game ends with these counts and chips (`chip_library::verify`).
#[unsafe(no_mangle)]
pub extern "C" fn chipfire_verify(
    alloc: Global,
    vertices: u64,
    sink: u64,
    tails: &[u64],
    heads: &[u64],
    mults: &[u64],
    limit: u64,
    chips: &[u64],
    fired: &[u64],
    ends: &[u64],
    place: &mut u64,
) -> u64
    ensures { Answers result place.new (Verifies
        (record { vertices = vertices; sink = sink; tails = tails.entry; heads = heads.entry; mults = mults.entry })
        limit chips.now fired.now ends.now) }
{
    let edges = EdgeLists {
        vertices,
        sink,
        tails,
        heads,
        mults,
    };
    let done = verify(alloc, edges, limit, chips, fired, ends);
    answer(done, place)
}

/// The number of a fault, after writing its place; or 0 with place 0.
fn answer(done: Result<(), CallFault>, place: &mut u64) -> u64
    ensures { (result, place.new) ≡ answer_of done }
{
    match done {
        Ok(()) => {
            *place = 0;
            0
        }
        Err(fault) => {
            *place = fault.place();
            fault.number()
        }
    }
}
