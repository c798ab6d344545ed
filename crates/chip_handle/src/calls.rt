//! Calls on a pile that C keeps.

ghost use Rattle.std.specs.Prelude.{◌≡◌, None};
ghost use Rattle.chip_library.specs.KeptGames.{PutsChips, PlaysSome, Drops};
ghost use Rattle.chip_library.specs.Measures.{measures_of};
ghost use Rattle.chip_handle.specs.Handles.{MakesNew, OnPile, DropsOn, MeasuresOn, Copies, CopiesOf, DrawsOf, chips_on, firings_on, bytes_held};

use crate::handle::Handle;
use chip_fire::Avalanche;
use chip_library::{CallFault, EdgeLists, KeptPile};
use core::mem::replace_with;
use std::alloc::Global;

/// Makes the pile at the start of a game, with a limit of at most 2^40, in place of the pile that is there, if any.
///
/// Returns the first fault: of the lengths, the graph or the game. Then nothing changes.
pub fn make(
    alloc: Global,
    handle: &mut Handle,
    edges: EdgeLists<'_>,
    limit: u64,
    chips: &[u64],
) -> Result<(), CallFault>
    ensures { MakesNew edges.entry limit chips.now handle.old.raw.value handle.new.raw.value result }
{
    let kept = KeptPile::new(alloc, edges, limit, chips)?;
    let boxed = Box::new(alloc, kept)?;
    let _before = handle.take(alloc);
    *handle = Handle::of(boxed);
    Ok(())
}

/// Replaces the chips on a pile (`KeptPile::put`).
pub fn put(alloc: Global, handle: &mut Handle, limit: u64, chips: &[u64]) -> Result<(), CallFault>
    ensures { OnPile (λ old new told. PutsChips old new limit chips.now told)
        handle.old.raw.value handle.new.raw.value result }
{
    let Some(mut boxed) = handle.take(alloc) else {
        return Err(CallFault::NoPile);
    };
    let kept: &mut KeptPile = &mut boxed;
    let told = replace_with(kept, (alloc, limit, chips), one_put);
    *handle = Handle::of(boxed);
    told
}

/// A pile with other chips.
fn one_put(kept: KeptPile, given: (Global, u64, &[u64])) -> (KeptPile, Result<(), CallFault>)
    ensures { PutsChips kept result.0 given.entry.1 given.entry.2.now result.1 }
{
    let (alloc, limit, chips) = given;
    kept.put(alloc, limit, chips)
}

/// Plays a pile on by about `visits` visits (`KeptPile::play_some`).
pub fn play_on(alloc: Global, handle: &mut Handle, visits: u64) -> Result<bool, CallFault>
    ensures { OnPile (λ old new told. PlaysSome old new visits told)
        handle.old.raw.value handle.new.raw.value result }
{
    let Some(mut boxed) = handle.take(alloc) else {
        return Err(CallFault::NoPile);
    };
    let kept: &mut KeptPile = &mut boxed;
    let told = replace_with(kept, (alloc, visits), one_portion);
    *handle = Handle::of(boxed);
    told
}

/// A pile after a portion of its play.
fn one_portion(kept: KeptPile, portion: (Global, u64)) -> (KeptPile, Result<bool, CallFault>)
    ensures { PlaysSome kept result.0 portion.1 result.1 }
{
    let (alloc, visits) = portion;
    kept.play_some(alloc, visits)
}

/// Drops chips on a vertex of a pile (`KeptPile::drop_chips`).
pub fn drop_on(
    alloc: Global,
    handle: &mut Handle,
    vertex: u64,
    count: u64,
) -> Result<Avalanche, CallFault>
    ensures { OnPile (λ old new told. Drops old new vertex count told)
        handle.old.raw.value handle.new.raw.value result }
{
    let Some(mut boxed) = handle.take(alloc) else {
        return Err(CallFault::NoPile);
    };
    let kept: &mut KeptPile = &mut boxed;
    let told = replace_with(kept, (alloc, vertex, count), one_drop);
    *handle = Handle::of(boxed);
    told
}

/// A pile after one more drop.
fn one_drop(kept: KeptPile, drop: (Global, u64, u64)) -> (KeptPile, Result<Avalanche, CallFault>)
    ensures { Drops kept result.0 drop.1 drop.2 result.1 }
{
    let (alloc, vertex, count) = drop;
    kept.drop_chips(alloc, vertex, count)
}

/// Drops chips on a pile, one drop after another (`KeptPile::drop_each`).
pub fn drops_on(
    alloc: Global,
    handle: &mut Handle,
    at: &[u64],
    amounts: &[u64],
    sizes: &mut [u64],
    extents: &mut [u64],
    losts: &mut [u64],
) -> Result<(), CallFault>
    ensures { DropsOn handle.old.raw.value handle.new.raw.value at.now amounts.now
        (record { sizes = sizes.old; extents = extents.old; losts = losts.old })
        (record { sizes = sizes.new; extents = extents.new; losts = losts.new }) result }
{
    let Some(mut boxed) = handle.take(alloc) else {
        return Err(CallFault::NoPile);
    };
    let kept: &mut KeptPile = &mut boxed;
    let told = kept.drop_each(alloc, at, amounts, sizes, extents, losts);
    *handle = Handle::of(boxed);
    told
}

/// Drops chips on a pile, one drop after another, and measures what they set off (`KeptPile::measure_each`).
pub fn measure_on(
    alloc: Global,
    handle: &mut Handle,
    at: &[u64],
    amounts: &[u64],
    loses: bool,
    marks: &[u64],
    sizes: &mut [u64],
    extents: &mut [u64],
    losts: &mut [u64],
    durations: &mut [u64],
    ends: &mut [u64],
    vertices: &mut [u64],
    times: &mut [u64],
) -> Result<u64, CallFault>
    ensures { MeasuresOn handle.old.raw.value handle.new.raw.value at.now amounts.now loses marks.now
        (measures_of sizes.old extents.old losts.old durations.old ends.old vertices.old times.old)
        (measures_of sizes.new extents.new losts.new durations.new ends.new vertices.new times.new) result }
{
    let Some(mut boxed) = handle.take(alloc) else {
        return Err(CallFault::NoPile);
    };
    let kept: &mut KeptPile = &mut boxed;
    let told = kept.measure_each(
        alloc, at, amounts, loses, marks, sizes, extents, losts, durations, ends, vertices, times,
    );
    *handle = Handle::of(boxed);
    told
}

/// Copies the chips of each vertex of a pile.
pub fn chips_of(alloc: Global, handle: &mut Handle, chips: &mut [u64]) -> Result<(), CallFault>
    ensures { CopiesOf chips_on handle.old.raw.value handle.new.raw.value chips.old chips.new result }
{
    let Some(boxed) = handle.take(alloc) else {
        return Err(CallFault::NoPile);
    };
    let told = copy(boxed.chips(), chips);
    *handle = Handle::of(boxed);
    told
}

/// Copies how often each vertex of a pile has fired since the start of its game.
pub fn fired_of(alloc: Global, handle: &mut Handle, fired: &mut [u64]) -> Result<(), CallFault>
    ensures { CopiesOf firings_on handle.old.raw.value handle.new.raw.value fired.old fired.new result }
{
    let Some(boxed) = handle.take(alloc) else {
        return Err(CallFault::NoPile);
    };
    let told = copy(boxed.fired(), fired);
    *handle = Handle::of(boxed);
    told
}

/// Writes random recurrent configurations of the graph of a pile (`KeptPile::draw`).
pub fn draw_on(
    alloc: Global,
    handle: &mut Handle,
    seed: u64,
    first: u64,
    rows: usize,
    chips: &mut [u64],
) -> Result<(), CallFault>
    ensures { DrawsOf rows handle.old.raw.value handle.new.raw.value chips.old chips.new result }
{
    let Some(mut boxed) = handle.take(alloc) else {
        return Err(CallFault::NoPile);
    };
    let kept: &mut KeptPile = &mut boxed;
    let told = kept.draw(alloc, seed, first, rows, chips);
    *handle = Handle::of(boxed);
    told
}

/// Copies numbers into a slice of the same length.
fn copy(numbers: &[u64], room: &mut [u64]) -> Result<(), CallFault>
    ensures { Copies numbers.now room.old room.new result }
{
    if room.len() != numbers.len() {
        return Err(CallFault::Lengths);
    }
    room.copy_from_slice(numbers);
    Ok(())
}

/// The number of bytes in the arrays of a pile (`KeptPile::bytes`), or 0 if there is none.
pub fn bytes_of(alloc: Global, handle: &mut Handle) -> u64
    ensures pile { handle.new.raw.value ≡ handle.old.raw.value }
    ensures bytes { result ≡ bytes_held handle.old.raw.value }
{
    let Some(boxed) = handle.take(alloc) else {
        return 0;
    };
    let bytes = boxed.bytes();
    *handle = Handle::of(boxed);
    bytes
}

/// Frees a pile, if there is one.
pub fn release(alloc: Global, handle: &mut Handle)
    ensures { handle.new.raw.value ≡ None }
{
    let _old = handle.take(alloc);
}
