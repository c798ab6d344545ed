//! A kept pile: chips put there, and drops on it.

use crate::graphs::TRIANGLE;
use chip_fire::Avalanche;
use chip_library::{CallFault, EdgeLists, KeptPile};
use std::process::Abort;

/// The greatest limit.
const LARGEST: u64 = 1 << 40;

/// A drop, and what it returns and leaves.
#[derive(Drop)]
struct Case {
    vertex: u64,
    count: u64,
    told: Result<Avalanche, CallFault>,
    chips: &'static [u64],
    fired: &'static [u64],
}

/// Whether a pile has these chips and counts.
fn has(kept: &KeptPile, chips: &[u64], fired: &[u64]) -> bool {
    kept.chips() == chips && kept.fired() == fired
}

/// Makes a drop, and compares what it returns and leaves.
fn drops(rt: &(impl AllocGlobal + Abort), kept: KeptPile, drop: &Case) -> KeptPile {
    let (kept, told) = kept.drop_chips(rt.alloc(), drop.vertex, drop.count);
    let same = told == drop.told && has(&kept, drop.chips, drop.fired);
    assert!(rt;
        same,
        "{:?}, chips {:?}, fired {:?}",
        told,
        kept.chips(),
        kept.fired()
    );
    kept
}

/// The first drop plays the game before it: 4, 0, 0 fires 0, 0, 1.
const DROPS: &[&Case] = &[
    &Case {
        vertex: 2,
        count: 1,
        told: Ok(Avalanche {
            size: 0,
            extent: 0,
            lost: 0,
        }),
        chips: &[1, 0, 4],
        fired: &[2, 1, 0],
    },
    &Case {
        vertex: 0,
        count: 1,
        told: Ok(Avalanche {
            size: 1,
            extent: 1,
            lost: 1,
        }),
        chips: &[0, 1, 5],
        fired: &[3, 1, 0],
    },
    &Case {
        vertex: 3,
        count: 1,
        told: Err(CallFault::Vertex(0)),
        chips: &[0, 1, 5],
        fired: &[3, 1, 0],
    },
    &Case {
        vertex: 0,
        count: LARGEST,
        told: Err(CallFault::Total(0)),
        chips: &[0, 1, 5],
        fired: &[3, 1, 0],
    },
];

#[test]
fn drops_on_a_pile(rt: HostRuntime) {
    let lists = TRIANGLE.edges();
    let mut kept = KeptPile::new(rt.alloc(), lists, LARGEST, &[4, 0, 0]).expect(&rt, "a pile");
    assert!(&rt; has(&kept, &[4, 0, 0], &[0, 0, 0]));
    for drop in DROPS {
        kept = drops(&rt, kept, drop);
    }
}

/// The limit stops the play of the game, and of the second drop.
#[test]
fn the_limit_halts_a_pile(rt: HostRuntime) {
    let lists = TRIANGLE.edges();
    let kept = KeptPile::new(rt.alloc(), lists, 1, &[4, 0, 0]).expect(&rt, "a pile");
    let halted = Case {
        vertex: 2,
        count: 1,
        told: Err(CallFault::Stopped(0)),
        chips: &[2, 1, 1],
        fired: &[1, 0, 0],
    };
    let kept = drops(&rt, kept, &halted);
    let (kept, put) = kept.put(rt.alloc(), 2, &[4, 0, 0]);
    assert!(&rt; put == Ok(()) && has(&kept, &[4, 0, 0], &[0, 0, 0]));
    let (kept, played) = kept.play(rt.alloc());
    assert!(&rt; played == Ok(()) && has(&kept, &[1, 0, 3], &[2, 1, 0]));
    let halted = Case {
        vertex: 0,
        count: 1,
        told: Err(CallFault::Stopped(0)),
        chips: &[2, 0, 3],
        fired: &[2, 1, 0],
    };
    let kept = drops(&rt, kept, &halted);
    let (kept, put) = kept.put(rt.alloc(), 2, &[4, 0]);
    assert!(&rt; put.is_err() && has(&kept, &[2, 0, 3], &[2, 1, 0]));
}

/// Plays on by some visits, and compares the result.
fn portion(
    rt: &(impl AllocGlobal + Abort),
    kept: KeptPile,
    visits: u64,
    told: Result<bool, CallFault>,
) -> KeptPile {
    let (kept, left) = kept.play_some(rt.alloc(), visits);
    assert!(rt; left == told, "{:?}, fired {:?}", left, kept.fired());
    kept
}

/// No visits change nothing, the last one finds the end, and the limit stops a play that would go on.
#[test]
fn a_play_in_portions(rt: HostRuntime) {
    let lists = TRIANGLE.edges();
    let kept = KeptPile::new(rt.alloc(), lists, LARGEST, &[4, 0, 0]).expect(&rt, "a pile");
    let kept = portion(&rt, kept, 0, Ok(true));
    assert!(&rt; has(&kept, &[4, 0, 0], &[0, 0, 0]));
    let kept = portion(&rt, kept, u64::MAX, Ok(false));
    assert!(&rt; has(&kept, &[1, 0, 3], &[2, 1, 0]));
    let kept = portion(&rt, kept, 1, Ok(false));
    let (kept, _) = kept.put(rt.alloc(), 1, &[4, 0, 0]);
    let kept = portion(&rt, kept, u64::MAX, Err(CallFault::Stopped(0)));
    assert!(&rt; has(&kept, &[2, 1, 1], &[1, 0, 0]));
    let kept = portion(&rt, kept, 1, Err(CallFault::Stopped(0)));
    assert!(&rt; has(&kept, &[2, 1, 1], &[1, 0, 0]));
}

/// The number of vertices of a path.
const LONG: u64 = 200;

/// A pile on a path to the sink, with chips on its first vertex.
fn heap_on_a_path(rt: &(impl AllocGlobal + Abort), count: u64) -> KeptPile {
    let alloc = rt.alloc();
    let (mut tails, mut heads) = (Vec::new(alloc), Vec::new(alloc));
    let mut mults = Vec::new(alloc);
    let mut chips = Vec::new(alloc);
    for vertex in 0..LONG {
        for (tail, head) in [(vertex, vertex + 1), (vertex + 1, vertex)] {
            if tail < LONG {
                tails.push(tail).expect(rt, "memory");
                heads.push(head).expect(rt, "memory");
                mults.push(1).expect(rt, "memory");
            }
        }
        chips
            .push(if vertex == 0 { count } else { 0 })
            .expect(rt, "memory");
    }
    chips.push(0).expect(rt, "memory");
    let lists = EdgeLists {
        vertices: LONG + 1,
        sink: LONG,
        tails: &tails,
        heads: &heads,
        mults: &mults,
    };
    KeptPile::new(alloc, lists, LARGEST, &chips).expect(rt, "a pile")
}

/// Plays to the end in portions of this many visits, and compares the end with that of a whole play. In each portion
/// some vertex fires, so there are several, and the counts rise from one to the next.
fn expect_portions(rt: &(impl AllocGlobal + Abort), count: u64, visits: u64, least: u64) {
    let (whole, played) = heap_on_a_path(rt, count).play(rt.alloc());
    assert!(rt; played == Ok(()));
    let mut kept = heap_on_a_path(rt, count);
    let mut fired = 0u64;
    let mut portions = 0u64;
    for _ in 0..u64::MAX {
        let (next, left) = kept.play_some(rt.alloc(), visits);
        kept = next;
        portions = portions.saturating_add(1);
        let more = all_of(kept.fired());
        if left == Ok(false) {
            break;
        }
        assert!(rt;
            left == Ok(true) && more > fired,
            "{} portions, {} firings",
            portions,
            more
        );
        fired = more;
    }
    assert!(rt;
        has(&kept, whole.chips(), whole.fired()),
        "{} portions",
        portions
    );
    assert!(rt;
        portions >= least,
        "{} portions of {} visits",
        portions,
        visits
    );
}

/// The sum of numbers, up to 2^64 - 1.
fn all_of(numbers: &[u64]) -> u64 {
    let mut all = 0u64;
    for number in numbers {
        all = all.saturating_add(*number);
    }
    all
}

/// A heap played by a work list and rounds, and one for which counts are searched.
#[test]
fn heaps_in_portions(rt: HostRuntime) {
    expect_portions(&rt, 60, 1, 3);
    expect_portions(&rt, 60, 1000, 2);
    expect_portions(&rt, 2000, 1, 100);
    expect_portions(&rt, 2000, 1 << 16, 2);
    expect_portions(&rt, 20_000, 1, 3);
}

/// Three drops by one call, the last of which the limit stops; and drops of which one is on no vertex.
#[test]
fn many_drops_on_a_pile(rt: HostRuntime) {
    let lists = TRIANGLE.edges();
    let mut kept = KeptPile::new(rt.alloc(), lists, 2, &[4, 0, 0]).expect(&rt, "a pile");
    let (mut sizes, mut extents, mut losts) = ([7; 3], [7; 3], [7; 3]);
    let told = kept.drop_each(
        rt.alloc(),
        &[2, 1, 0],
        &[1, 1, 2],
        &mut sizes,
        &mut extents,
        &mut losts,
    );
    assert!(&rt; told == Err(CallFault::Stopped(2)) && has(&kept, &[3, 1, 4], &[2, 1, 0]));
    assert!(&rt; sizes == [0, 0, 7] && extents == [0, 0, 7] && losts == [0, 0, 7]);
    let told = kept.drop_each(
        rt.alloc(),
        &[2, 3, 0],
        &[1, 1, 2],
        &mut sizes,
        &mut extents,
        &mut losts,
    );
    assert!(&rt; told == Err(CallFault::Vertex(1)) && has(&kept, &[3, 1, 4], &[2, 1, 0]));
}

/// The triangle fires 0, 1 after the first drop, none after the second, and 0 twice and both together after the third.
#[test]
fn measures_of_drops(rt: HostRuntime) {
    let lists = TRIANGLE.edges();
    let mut kept = KeptPile::new(rt.alloc(), lists, LARGEST, &[1, 1, 0]).expect(&rt, "a pile");
    let (mut sizes, mut extents, mut losts) = ([7; 3], [7; 3], [7; 3]);
    let (mut durations, mut ends) = ([7; 3], [7; 3]);
    let (mut vertices, mut times) = ([7; 7], [7; 7]);
    let told = kept.measure_each(
        rt.alloc(),
        &[0, 2, 0],
        &[1, 1, 5],
        false,
        &[],
        &mut sizes,
        &mut extents,
        &mut losts,
        &mut durations,
        &mut ends,
        &mut vertices,
        &mut times,
    );
    assert!(&rt; told == Ok(3) && has(&kept, &[1, 1, 7], &[4, 2, 0]));
    assert!(&rt; sizes == [2, 0, 4] && extents == [2, 0, 2] && losts == [2, 0, 4]);
    assert!(&rt; durations == [2, 0, 3] && ends == [2, 2, 4]);
    assert!(&rt; vertices == [0, 1, 0, 1, 7, 7, 7] && times == [1, 1, 3, 1, 7, 7, 7]);
}

/// After what the first drop fires there is no room for three more vertices; and the limit stops a drop.
#[test]
fn no_room_for_a_drop(rt: HostRuntime) {
    let lists = TRIANGLE.edges();
    let mut kept = KeptPile::new(rt.alloc(), lists, 3, &[1, 1, 0]).expect(&rt, "a pile");
    let (mut sizes, mut extents, mut losts) = ([7; 2], [7; 2], [7; 2]);
    let (mut ends, mut vertices, mut times) = ([7; 2], [7; 4], [7; 4]);
    let told = kept.measure_each(
        rt.alloc(),
        &[0, 0],
        &[1, 5],
        false,
        &[],
        &mut sizes,
        &mut extents,
        &mut losts,
        &mut [],
        &mut ends,
        &mut vertices,
        &mut times,
    );
    assert!(&rt; told == Ok(1) && has(&kept, &[1, 0, 2], &[1, 1, 0]));
    assert!(&rt; sizes == [2, 7] && ends == [2, 7] && vertices == [0, 1, 7, 7]);
    let mut durations = [7; 2];
    let told = kept.measure_each(
        rt.alloc(),
        &[2, 0],
        &[1, 5],
        false,
        &[],
        &mut sizes,
        &mut extents,
        &mut losts,
        &mut durations,
        &mut [],
        &mut [],
        &mut [],
    );
    assert!(&rt; told == Err(CallFault::Stopped(1)) && durations == [0, 7] && sizes == [0, 7]);
}

/// Of three drops the second fires 0 and 1, and loses chips: how many are made, if these end the run.
fn expect_made(rt: &(impl AllocGlobal + Abort), loses: bool, marks: &[u64], made: u64) {
    let lists = TRIANGLE.edges();
    let mut kept = KeptPile::new(rt.alloc(), lists, LARGEST, &[1, 1, 0]).expect(rt, "a pile");
    let (mut sizes, mut extents, mut losts) = ([7; 3], [7; 3], [7; 3]);
    let told = kept.measure_each(
        rt.alloc(),
        &[2, 0, 2],
        &[1, 1, 1],
        loses,
        marks,
        &mut sizes,
        &mut extents,
        &mut losts,
        &mut [],
        &mut [],
        &mut [],
        &mut [],
    );
    assert!(rt; told == Ok(made), "{:?}", told);
}

#[test]
fn ends_of_runs(rt: HostRuntime) {
    expect_made(&rt, false, &[], 3);
    expect_made(&rt, true, &[], 2);
    expect_made(&rt, false, &[0, 3, 0], 2);
    expect_made(&rt, false, &[2, 4, 0], 2);
    expect_made(&rt, false, &[8, 16, 0], 2);
    expect_made(&rt, false, &[2, 16, 5], 3);
}
