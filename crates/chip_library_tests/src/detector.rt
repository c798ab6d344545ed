//! The books of a process in the caller's memory: the small run of `docs/DETECTOR.md` as process `A` sees it, and each
//! refusal.

use chip_detect::Tally;
use chip_library::detector::{
    BooksFault, NEUTRAL, acked, check, deficit, got, is_over, may_ack, sent, settled,
};
use std::process::Abort;

/// The greatest number of messages on one edge.
const MOST: u64 = 1 << 40;

/// A tally of an edge.
fn tally(edge: u64, messages: u64, answered: u64) -> Tally {
    Tally {
        edge,
        messages,
        answered,
    }
}

/// Whether a tally has these counts.
fn has(tally: &Tally, messages: u64, answered: u64) -> bool {
    tally.messages == messages && tally.answered == answered
}

/// The edges r and b, 3 and 1, lead into the process, and the edge a, 0, out of it.
#[test]
fn the_small_run(rt: HostRuntime) {
    let (mut ins, mut outs, mut parent) = (
        [tally(1, 0, 0), tally(3, 0, 0)],
        [tally(0, 0, 0)],
        NEUTRAL,
    );
    assert!(&rt; check(&ins, &outs, parent) == Ok(()));
    assert!(&rt; got(&mut ins, &mut parent, 3) == Ok(()) && parent == 3);
    assert!(&rt; sent(&mut outs, 0) == Ok(()) && deficit(&outs) == Ok(1));
    assert!(&rt; got(&mut ins, &mut parent, 1) == Ok(()) && parent == 3);
    assert!(&rt; may_ack(&ins, &outs, parent, 1, false) == Ok(1));
    assert!(&rt; acked(&mut ins, &outs, &mut parent, 1, false, 1) == Ok(()) && parent == 3);
    assert!(&rt; acked(&mut ins, &outs, &mut parent, 3, true, 1) == Err(BooksFault::NotYet));
    assert!(&rt; may_ack(&ins, &outs, parent, 3, true) == Ok(0) && has(&ins[1], 1, 0));
    assert!(&rt; is_over(&outs, true) == Ok(false));
    assert!(&rt; settled(&mut outs, 0, 1) == Ok(1) && settled(&mut outs, 0, 0) == Ok(0));
    assert!(&rt; acked(&mut ins, &outs, &mut parent, 3, false, 1) == Err(BooksFault::NotYet));
    assert!(&rt; acked(&mut ins, &outs, &mut parent, 3, true, 1) == Ok(()) && parent == NEUTRAL);
    assert!(&rt; has(&ins[0], 1, 1) && has(&ins[1], 1, 1) && has(&outs[0], 1, 1));
    assert!(&rt; is_over(&outs, true) == Ok(true) && is_over(&outs, false) == Ok(false));
    assert!(&rt; check(&ins, &outs, parent) == Ok(()));
}

/// One refusal of each kind, after which nothing is written.
#[test]
fn refusals(rt: HostRuntime) {
    let (mut ins, mut outs, mut parent) = ([tally(4, MOST, 0)], [tally(5, MOST, 7)], 4);
    let refused = Err(BooksFault::NotSound);
    assert!(&rt; check(&ins, &outs, parent) == Ok(()));
    assert!(&rt;
        got(&mut ins, &mut parent, 4) == refused && got(&mut ins, &mut parent, 5) == refused
    );
    assert!(&rt; sent(&mut outs, 5) == refused && sent(&mut outs, NEUTRAL) == refused);
    assert!(&rt; acked(&mut ins, &outs, &mut parent, 4, false, MOST + 1) == refused);
    assert!(&rt; acked(&mut ins, &outs, &mut parent, 3, false, 0) == refused);
    assert!(&rt; settled(&mut outs, 5, MOST + 1).is_err() && settled(&mut outs, 4, 0).is_err());
    assert!(&rt; may_ack(&ins, &outs, parent, 5, true).is_err());
    assert!(&rt; has(&ins[0], MOST, 0) && has(&outs[0], MOST, 7) && parent == 4);
    assert!(&rt; BooksFault::NotSound.number() == 46 && BooksFault::NotYet.number() == 47);
}

/// Books that are not sound, each for one reason.
#[test]
fn garbage(rt: HostRuntime) {
    let refused = Err(BooksFault::NotSound);
    assert!(&rt;
        check(&[tally(2, 1, 0), tally(1, 0, 0)], &[], 2) == refused,
        "edges descend"
    );
    assert!(&rt;
        check(&[tally(2, 1, 0), tally(2, 0, 0)], &[], 2) == refused,
        "an edge stands twice"
    );
    assert!(&rt;
        check(&[tally(2, 1, 0), tally(NEUTRAL, 0, 0)], &[], 2) == refused
            && check(&[], &[tally(NEUTRAL, 0, 0)], NEUTRAL) == refused,
        "no edge has the number of none"
    );
    assert!(&rt;
        check(&[], &[tally(1, 0, 1)], NEUTRAL) == refused,
        "more is answered than there was"
    );
    assert!(&rt;
        check(&[], &[tally(1, MOST + 1, 1)], NEUTRAL) == refused,
        "too many messages"
    );
    assert!(&rt;
        check(&[tally(2, 1, 0)], &[], NEUTRAL) == refused,
        "a neutral part owes"
    );
    assert!(&rt;
        check(&[tally(2, 1, 1)], &[], 2) == refused,
        "nothing is owed to the parent"
    );
    assert!(&rt;
        check(&[tally(2, 1, 0)], &[], 1) == refused,
        "the parent is no edge"
    );
    let mut outs = [
        tally(9, u64::MAX, 0),
        tally(9, 0, u64::MAX),
        tally(0, u64::MAX, u64::MAX),
    ];
    assert!(&rt; deficit(&outs).is_err() && is_over(&outs, true).is_err());
    assert!(&rt; sent(&mut outs, 9).is_err() && settled(&mut outs, 9, u64::MAX).is_err());
}
