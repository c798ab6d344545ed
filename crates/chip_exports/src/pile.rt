//! A pile kept from one call to the next (`chip_handle`).

ghost use Rattle.std.specs.Prelude.{◌≡◌, None, Bool};
ghost use Rattle.chip_fire.specs.declared.avalanche.Avalanche.{Avalanche};
ghost use Rattle.chip_library.specs.declared.fault.CallFault.{CallFault};
ghost use Rattle.chip_library.specs.KeptGames.{PutsChips, PlaysSome, Drops};
ghost use Rattle.chip_library.specs.Measures.{measures_of};
ghost use Rattle.chip_handle.specs.Handles.{MakesNew, OnPile, DropsOn, MeasuresOn, CopiesOf, DrawsOf, chips_on, firings_on};
ghost use Rattle.chip_handle.specs.Handles.{bytes_held};
ghost use Rattle.chip_exports.specs.Answers.{Answers, answer_of};
ghost use Rattle.chip_exports.specs.Status.{is_true};
ghost use Rattle.chip_exports.specs.Piles.{CallStatus, call_status_of, left_of, written_of, TellsMade};

use crate::answer;
use chip_handle::{
    Handle, bytes_of, chips_of, draw_on, drop_on, drops_on, fired_of, make, measure_on, play_on,
    put, release,
};
use chip_library::{CallFault, EdgeLists};
use std::alloc::Global;

/// Makes a pile (`chip_handle::make`).
#[unsafe(no_mangle)]
pub extern "C" fn chipfire_pile_new(
    alloc: Global,
    pile: &mut Handle,
    vertices: u64,
    sink: u64,
    tails: &[u64],
    heads: &[u64],
    mults: &[u64],
    limit: u64,
    chips: &[u64],
    place: &mut u64,
) -> u64
    ensures { Answers result place.new (MakesNew
        (record { vertices = vertices; sink = sink; tails = tails.entry; heads = heads.entry; mults = mults.entry })
        limit chips.now pile.old.raw.value pile.new.raw.value) }
{
    let edges = EdgeLists {
        vertices,
        sink,
        tails,
        heads,
        mults,
    };
    let done = make(alloc, pile, edges, limit, chips);
    answer(done, place)
}

/// Replaces the chips on a pile (`chip_handle::put`).
#[unsafe(no_mangle)]
pub extern "C" fn chipfire_pile_put(
    alloc: Global,
    pile: &mut Handle,
    limit: u64,
    chips: &[u64],
) -> u64
    ensures { CallStatus {T = Unit {0}} result (OnPile (λ old new told. PutsChips old new limit chips.now told)
        pile.old.raw.value pile.new.raw.value) }
{
    call_status(put(alloc, pile, limit, chips))
}

/// Plays a pile on by about `visits` visits (`chip_handle::play_on`).
#[unsafe(no_mangle)]
pub extern "C" fn chipfire_pile_play(
    alloc: Global,
    pile: &mut Handle,
    visits: u64,
    left: &mut u64,
) -> u64
    ensures { CallStatus {T = Bool} result (λ told. OnPile (λ old new told. PlaysSome old new visits told)
        pile.old.raw.value pile.new.raw.value told × (left.new ≡ left_of told left.old)) }
{
    match play_on(alloc, pile, visits) {
        Ok(goes_on) => {
            *left = u64::from(goes_on);
            0
        }
        Err(fault) => fault.number(),
    }
}

/// Drops chips on a pile and plays to the end (`chip_handle::drop_on`).
#[unsafe(no_mangle)]
pub extern "C" fn chipfire_pile_drop(
    alloc: Global,
    pile: &mut Handle,
    vertex: u64,
    amount: u64,
    size: &mut u64,
    extent: &mut u64,
    lost: &mut u64,
) -> u64
    ensures { CallStatus {T = Avalanche} result (λ told. OnPile (λ old new told. Drops old new vertex amount told)
        pile.old.raw.value pile.new.raw.value told
        × ((size.new, extent.new, lost.new) ≡ written_of told (size.old, extent.old, lost.old))) }
{
    match drop_on(alloc, pile, vertex, amount) {
        Ok(avalanche) => {
            *size = avalanche.size;
            *extent = avalanche.extent;
            *lost = avalanche.lost;
            0
        }
        Err(fault) => fault.number(),
    }
}

/// Drops chips on a pile, one drop after another (`chip_handle::drops_on`).
#[unsafe(no_mangle)]
pub extern "C" fn chipfire_pile_drops(
    alloc: Global,
    pile: &mut Handle,
    at: &[u64],
    amounts: &[u64],
    sizes: &mut [u64],
    extents: &mut [u64],
    losts: &mut [u64],
    place: &mut u64,
) -> u64
    ensures { Answers result place.new (DropsOn pile.old.raw.value pile.new.raw.value at.now amounts.now
        (record { sizes = sizes.old; extents = extents.old; losts = losts.old })
        (record { sizes = sizes.new; extents = extents.new; losts = losts.new })) }
{
    let done = drops_on(alloc, pile, at, amounts, sizes, extents, losts);
    answer(done, place)
}

/// Makes drops on a pile and measures what they fire (`chip_handle::measure_on`).
#[unsafe(no_mangle)]
pub extern "C" fn chipfire_pile_measure(
    alloc: Global,
    pile: &mut Handle,
    at: &[u64],
    amounts: &[u64],
    loses: u64,
    marks: &[u64],
    sizes: &mut [u64],
    extents: &mut [u64],
    losts: &mut [u64],
    durations: &mut [u64],
    ends: &mut [u64],
    vertices: &mut [u64],
    times: &mut [u64],
    place: &mut u64,
) -> u64
    ensures { TellsMade result place.new (MeasuresOn pile.old.raw.value pile.new.raw.value at.now amounts.now
        (is_true loses) marks.now
        (measures_of sizes.old extents.old losts.old durations.old ends.old vertices.old times.old)
        (measures_of sizes.new extents.new losts.new durations.new ends.new vertices.new times.new)) }
{
    let loses = loses != 0;
    let made = measure_on(
        alloc, pile, at, amounts, loses, marks, sizes, extents, losts, durations, ends, vertices,
        times,
    );
    match made {
        Ok(made) => {
            *place = made;
            0
        }
        Err(fault) => {
            *place = fault.place();
            fault.number()
        }
    }
}

/// Writes random recurrent configurations of the graph of a pile (`chip_handle::draw_on`).
#[unsafe(no_mangle)]
pub extern "C" fn chipfire_pile_random_recurrent(
    alloc: Global,
    pile: &mut Handle,
    seed: u64,
    first: u64,
    rows: usize,
    chips: &mut [u64],
    place: &mut u64,
) -> u64
    ensures { Answers result place.new (DrawsOf rows pile.old.raw.value pile.new.raw.value chips.old chips.new) }
{
    answer(draw_on(alloc, pile, seed, first, rows, chips), place)
}

/// Copies the chips of a pile (`chip_handle::chips_of`).
#[unsafe(no_mangle)]
pub extern "C" fn chipfire_pile_chips(alloc: Global, pile: &mut Handle, chips: &mut [u64]) -> u64
    ensures { CallStatus {T = Unit {0}} result
        (CopiesOf chips_on pile.old.raw.value pile.new.raw.value chips.old chips.new) }
{
    call_status(chips_of(alloc, pile, chips))
}

/// Copies how often each vertex of a pile has fired (`chip_handle::fired_of`).
#[unsafe(no_mangle)]
pub extern "C" fn chipfire_pile_fired(alloc: Global, pile: &mut Handle, fired: &mut [u64]) -> u64
    ensures { CallStatus {T = Unit {0}} result
        (CopiesOf firings_on pile.old.raw.value pile.new.raw.value fired.old fired.new) }
{
    call_status(fired_of(alloc, pile, fired))
}

/// The number of bytes in the arrays of a pile, or 0 (`chip_handle::bytes_of`).
#[unsafe(no_mangle)]
pub extern "C" fn chipfire_pile_size(alloc: Global, pile: &mut Handle) -> u64
    ensures pile { pile.new.raw.value ≡ pile.old.raw.value }
    ensures bytes { result ≡ bytes_held pile.old.raw.value }
{
    bytes_of(alloc, pile)
}

/// Frees a pile, if there is one (`chip_handle::release`).
#[unsafe(no_mangle)]
pub extern "C" fn chipfire_pile_free(alloc: Global, pile: &mut Handle)
    ensures { pile.new.raw.value ≡ None }
{
    release(alloc, pile);
}

/// The number of a fault, or 0.
fn call_status(done: Result<(), CallFault>) -> u64
    ensures { result ≡ call_status_of done }
{
    match done {
        Ok(()) => 0,
        Err(fault) => fault.number(),
    }
}
