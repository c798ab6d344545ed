//! The calls of `chip_library` on burning scripts, recurrent configurations and the identity.

ghost use Rattle.chip_library.specs.GroupCalls.{FindsBurning, TestsRows, FindsForms, FindsIdentity, DrawsRows};
ghost use Rattle.chip_recurrent.specs.declared.classes.Form.TheVariants.{Recurrent, Superstable, Inverse};
ghost use Rattle.chip_exports.specs.Answers.{Answers};

use crate::answer;
use chip_library::{
    EdgeLists, Form, are_recurrent, burning, identity, random_recurrents, representatives,
};
use std::alloc::Global;

/// Writes the least burning script and its chips (`chip_library::burning`).
#[unsafe(no_mangle)]
pub extern "C" fn chipfire_burning(
    alloc: Global,
    vertices: u64,
    sink: u64,
    tails: &[u64],
    heads: &[u64],
    mults: &[u64],
    script: &mut [u64],
    chips: &mut [u64],
    place: &mut u64,
) -> u64
    ensures { Answers result place.new (FindsBurning
        (record { vertices = vertices; sink = sink; tails = tails.entry; heads = heads.entry; mults = mults.entry })
        script.old chips.old script.new chips.new) }
{
    let edges = EdgeLists {
        vertices,
        sink,
        tails,
        heads,
        mults,
    };
    let done = burning(alloc, edges, script, chips);
    answer(done, place)
}

/// Writes which configurations are recurrent (`chip_library::are_recurrent`).
#[unsafe(no_mangle)]
pub extern "C" fn chipfire_are_recurrent(
    alloc: Global,
    vertices: u64,
    sink: u64,
    tails: &[u64],
    heads: &[u64],
    mults: &[u64],
    chips: &[u64],
    flags: &mut [u64],
    place: &mut u64,
) -> u64
    ensures { Answers result place.new (TestsRows
        (record { vertices = vertices; sink = sink; tails = tails.entry; heads = heads.entry; mults = mults.entry })
        chips.now flags.old flags.new) }
{
    let edges = EdgeLists {
        vertices,
        sink,
        tails,
        heads,
        mults,
    };
    let done = are_recurrent(alloc, edges, chips, flags);
    answer(done, place)
}

/// Replaces each configuration by the equivalent recurrent one (`chip_library::representatives`).
#[unsafe(no_mangle)]
pub extern "C" fn chipfire_recurrent(
    alloc: Global,
    vertices: u64,
    sink: u64,
    tails: &[u64],
    heads: &[u64],
    mults: &[u64],
    rows: usize,
    chips: &mut [u64],
    place: &mut u64,
) -> u64
    ensures { Answers result place.new (FindsForms
        (record { vertices = vertices; sink = sink; tails = tails.entry; heads = heads.entry; mults = mults.entry })
        Recurrent rows chips.old chips.new) }
{
    let edges = EdgeLists {
        vertices,
        sink,
        tails,
        heads,
        mults,
    };
    let done = representatives(alloc, edges, Form::Recurrent, rows, chips);
    answer(done, place)
}

/// Replaces each configuration by the equivalent superstable one (`chip_library::representatives`).
#[unsafe(no_mangle)]
pub extern "C" fn chipfire_superstable(
    alloc: Global,
    vertices: u64,
    sink: u64,
    tails: &[u64],
    heads: &[u64],
    mults: &[u64],
    rows: usize,
    chips: &mut [u64],
    place: &mut u64,
) -> u64
    ensures { Answers result place.new (FindsForms
        (record { vertices = vertices; sink = sink; tails = tails.entry; heads = heads.entry; mults = mults.entry })
        Superstable rows chips.old chips.new) }
{
    let edges = EdgeLists {
        vertices,
        sink,
        tails,
        heads,
        mults,
    };
    let done = representatives(alloc, edges, Form::Superstable, rows, chips);
    answer(done, place)
}

/// Replaces each configuration by the recurrent one of the inverse class (`chip_library::representatives`).
#[unsafe(no_mangle)]
pub extern "C" fn chipfire_inverse(
    alloc: Global,
    vertices: u64,
    sink: u64,
    tails: &[u64],
    heads: &[u64],
    mults: &[u64],
    rows: usize,
    chips: &mut [u64],
    place: &mut u64,
) -> u64
    ensures { Answers result place.new (FindsForms
        (record { vertices = vertices; sink = sink; tails = tails.entry; heads = heads.entry; mults = mults.entry })
        Inverse rows chips.old chips.new) }
{
    let edges = EdgeLists {
        vertices,
        sink,
        tails,
        heads,
        mults,
    };
    let done = representatives(alloc, edges, Form::Inverse, rows, chips);
    answer(done, place)
}

/// Writes the identity of the sandpile group (`chip_library::identity`).
#[unsafe(no_mangle)]
pub extern "C" fn chipfire_identity(
    alloc: Global,
    vertices: u64,
    sink: u64,
    tails: &[u64],
    heads: &[u64],
    mults: &[u64],
    chips: &mut [u64],
    place: &mut u64,
) -> u64
    ensures { Answers result place.new (FindsIdentity
        (record { vertices = vertices; sink = sink; tails = tails.entry; heads = heads.entry; mults = mults.entry })
        chips.old chips.new) }
{
    let edges = EdgeLists {
        vertices,
        sink,
        tails,
        heads,
        mults,
    };
    let done = identity(alloc, edges, chips);
    answer(done, place)
}

/// Writes random recurrent configurations (`chip_library::random_recurrents`).
#[unsafe(no_mangle)]
pub extern "C" fn chipfire_random_recurrent(
    alloc: Global,
    vertices: u64,
    sink: u64,
    tails: &[u64],
    heads: &[u64],
    mults: &[u64],
    seed: u64,
    first: u64,
    rows: usize,
    chips: &mut [u64],
    place: &mut u64,
) -> u64
    ensures { Answers result place.new (DrawsRows
        (record { vertices = vertices; sink = sink; tails = tails.entry; heads = heads.entry; mults = mults.entry })
        rows chips.old chips.new) }
{
    let edges = EdgeLists {
        vertices,
        sink,
        tails,
        heads,
        mults,
    };
    let done = random_recurrents(alloc, edges, seed, first, rows, chips);
    answer(done, place)
}
