//! Books with sums: the small run of `docs/DETECTOR.md` as process `A` sees it, and what is refused.

use chip_detect::Tally;
use chip_library::detector::{BooksFault, NEUTRAL};
use chip_library::sums::{Acknowledged, SummedBooks};
use std::process::Abort;

/// A tally of an edge.
fn tally(edge: u64, messages: u64, answered: u64) -> Tally {
    Tally {
        edge,
        messages,
        answered,
    }
}

/// Whether books have this parent and these sums.
fn have(books: &SummedBooks, parent: u64, owed: u64, deficit: u64) -> bool {
    books.parent == parent && books.owed == owed && books.deficit == deficit
}

/// Whether the call acknowledged `count` messages, and `so_far` in all.
fn gave(answer: Result<Acknowledged, BooksFault>, count: u64, so_far: u64) -> bool {
    match answer {
        Ok(now) => now.count == count && now.so_far == so_far,
        Err(_) => false,
    }
}

/// The edges r and b, 3 and 1, lead into the process, and the edge a, 0, out of it.
#[test]
fn the_small_run_with_sums(rt: HostRuntime) {
    let (mut ins, mut outs) = ([tally(1, 0, 0), tally(3, 0, 0)], [tally(0, 0, 0)]);
    let mut books = SummedBooks {
        ins: &mut ins,
        outs: &mut outs,
        parent: NEUTRAL,
        owed: 9,
        deficit: 9,
    };
    assert!(&rt; books.verify().is_err() && books.open() == Ok(()) && books.verify() == Ok(()));
    assert!(&rt; books.got(3) == Ok(()) && have(&books, 3, 1, 0));
    assert!(&rt; books.sent(0) == Ok(()) && have(&books, 3, 1, 1));
    assert!(&rt; books.got(1) == Ok(()) && have(&books, 3, 2, 1));
    assert!(&rt; gave(books.acknowledge(3, true), 0, 0) && have(&books, 3, 2, 1));
    assert!(&rt; gave(books.acknowledge(1, false), 1, 1) && have(&books, 3, 1, 1));
    assert!(&rt; gave(books.acknowledge(3, true), 0, 0) && !books.is_over(true));
    assert!(&rt; books.settled(0, 1) == Ok(1) && books.settled(0, 0) == Ok(0));
    assert!(&rt; gave(books.acknowledge(3, false), 0, 0) && have(&books, 3, 1, 0));
    assert!(&rt; gave(books.acknowledge(3, true), 1, 1) && have(&books, NEUTRAL, 0, 0));
    assert!(&rt; books.is_over(true) && !books.is_over(false) && books.verify() == Ok(()));
    assert!(&rt; ins[0].answered == 1 && ins[1].answered == 1 && outs[0].answered == 1);
}

/// One refusal of each kind, after which nothing is written.
#[test]
fn refused_with_sums(rt: HostRuntime) {
    let (mut ins, mut outs) = ([tally(4, 2, 0)], [tally(5, 7, 6)]);
    let mut books = SummedBooks {
        ins: &mut ins,
        outs: &mut outs,
        parent: 5,
        owed: 8,
        deficit: 9,
    };
    assert!(&rt; books.open() == Err(BooksFault::NotSound) && have(&books, 5, 8, 9));
    books.parent = 4;
    assert!(&rt; books.open() == Ok(()) && have(&books, 4, 2, 1));
    assert!(&rt;
        books.got(5).is_err() && books.sent(4).is_err() && books.acknowledge(5, true).is_err()
    );
    assert!(&rt; books.settled(5, 8).is_err() && books.settled(4, 0).is_err());
    assert!(&rt; have(&books, 4, 2, 1) && books.verify() == Ok(()));
    books.owed = u64::MAX;
    assert!(&rt; books.got(4).is_err() && books.verify().is_err());
    assert!(&rt; ins[0].messages == 2 && ins[0].answered == 0 && outs[0].answered == 6);
}
