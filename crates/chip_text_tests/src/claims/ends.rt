//! All claims of a log, their causal pasts, and how logs end.

use crate::claims::play::{
    SIZES, absent, end, first, hear, judged, receive, row, send, stream, tell,
};
use chip_log::{
    ClaimVerdict, ClaimWatch, LogEnd, LogRow, PastRows, Step, Stream, Unwatched, Verdict,
};

/// Process 0 claims before it sends and after that, process 1 when it is passive and again, and last process 2, which
/// knows nothing.
const CLAIMS: [LogRow; 12] = [
    row!(2, Step::Over),
    receive!(1, 0),
    row!(1, Step::Passive),
    hear!(1, 1),
    row!(1, Step::Over),
    row!(1, Step::Over),
    row!(0, Step::Active),
    row!(0, Step::Over),
    send!(0, 0),
    row!(0, Step::Passive),
    tell!(0, 1),
    row!(0, Step::Over),
];

/// Counts the claims that it sees.
#[derive(Drop)]
struct Count(usize);

impl ClaimWatch for Count {
    fn judges(&mut self, _claim: usize, _claims: usize) {
        self.0 = self.0.wrapping_add(1);
    }
}

/// Process, row and verdict of a claim.
fn seen(claim: &ClaimVerdict) -> (u32, u64, Verdict) {
    (claim.process, claim.row, claim.verdict)
}

/// Process 0 is active at its first claim. Its second knows nothing of process 1, so the message may be in transit.
/// Process 1 heard that 0 is passive. Process 2 heard nothing, so 0 may not have begun.
#[test]
fn all_claims(rt: HostRuntime) {
    let mut told = Count(0);
    let judged = judged(&rt, SIZES, &CLAIMS, &mut told)
        .ok()
        .expect(&rt, "an order");
    assert!(rt; told.0 == 5);
    let on_its_way = Verdict::OnItsWay {
        channel: 0,
        message: 0,
    };
    let mut claims = judged.claims.iter();
    assert!(rt; claims.next().map(seen) == Some((0, 1, Verdict::Active { process: 0 })));
    assert!(rt; claims.next().map(seen) == Some((0, 5, on_its_way)));
    assert!(rt; claims.next().map(seen) == Some((1, 3, Verdict::Right)));
    assert!(rt; claims.next().map(seen) == Some((1, 4, Verdict::Right)));
    assert!(rt; claims.next().map(seen) == Some((2, 0, Verdict::Active { process: 0 })));
    assert!(rt; claims.next().map(seen) == None);
    assert!(rt; judged.end == LogEnd::Claimed);
}

/// The rows before each: of process 0 alone, and nothing at all.
#[test]
fn pasts(rt: HostRuntime) {
    let judged = judged(&rt, SIZES, &CLAIMS, &mut Unwatched)
        .ok()
        .expect(&rt, "an order");
    let mut claims = judged.claims.iter();
    let first = [PastRows {
        process: 0,
        rows: 1,
    }];
    let second = [PastRows {
        process: 0,
        rows: 5,
    }];
    assert!(rt;
        claims
            .next()
            .map(|claim| claim.past.as_slice() == first.as_slice())
            == Some(true)
    );
    assert!(rt;
        claims
            .next()
            .map(|claim| claim.past.as_slice() == second.as_slice())
            == Some(true)
    );
    assert!(rt; claims.next().map(|claim| claim.past.is_empty()) == Some(true));
    assert!(rt; claims.next().map(|claim| claim.past.is_empty()) == Some(true));
    assert!(rt; claims.next().map(|claim| claim.past.is_empty()) == Some(true));
}

/// A process sends, another gets and acknowledges. Nobody claims.
const NO_CLAIM: [LogRow; 7] = [
    row!(0, Step::Active),
    send!(0, 0),
    row!(0, Step::Passive),
    receive!(1, 0),
    row!(1, Step::Passive),
    tell!(1, 0),
    hear!(0, 0),
];

/// The acknowledgement is not heard.
const UNHEARD: [LogRow; 6] = [
    row!(0, Step::Active),
    send!(0, 0),
    row!(0, Step::Passive),
    receive!(1, 0),
    row!(1, Step::Passive),
    tell!(1, 0),
];

/// Cut off before the message is got, and before its receiver is passive.
const ON_ITS_WAY: [LogRow; 3] = [row!(0, Step::Active), send!(0, 0), row!(0, Step::Passive)];

const ACTIVE: [LogRow; 4] = [
    row!(0, Step::Active),
    send!(0, 0),
    row!(0, Step::Passive),
    receive!(1, 0),
];

#[test]
fn ends(rt: HostRuntime) {
    assert!(rt; end(&rt, SIZES, &NO_CLAIM) == LogEnd::Missed);
    assert!(rt; end(&rt, SIZES, &UNHEARD) == LogEnd::Unclaimed);
    assert!(rt;
        end(&rt, SIZES, &ON_ITS_WAY)
            == LogEnd::OnItsWay {
                channel: 0,
                message: 0
            }
    );
    assert!(rt; end(&rt, SIZES, &ACTIVE) == LogEnd::Active { process: 1 });
}

/// Process 0 is active at its first claim. Without a claim, and where each claim is right, there is none.
#[test]
fn first_early_claim(rt: HostRuntime) {
    let found = first(&rt, SIZES, &CLAIMS).ok().expect(&rt, "an order");
    assert!(rt; found.as_ref().map(seen) == Some((0, 1, Verdict::Active { process: 0 })));
    let past = [PastRows {
        process: 0,
        rows: 1,
    }];
    assert!(rt; found.map(|claim| claim.past.as_slice() == past.as_slice()) == Some(true));
    let none = first(&rt, SIZES, &NO_CLAIM).ok().expect(&rt, "an order");
    assert!(rt; none.is_none());
    let silent = first(&rt, SIZES, &[row!(1, Step::Over)])
        .ok()
        .expect(&rt, "an order");
    assert!(rt; silent.is_none());
}

/// Processes 0 and 1 have rows.
#[test]
fn absent_processes(rt: HostRuntime) {
    assert!(rt; absent(&rt, SIZES, &NO_CLAIM, 0) == None);
    assert!(rt; absent(&rt, SIZES, &NO_CLAIM, 2) == None);
    assert!(rt; absent(&rt, SIZES, &NO_CLAIM, 3) == Some(2));
    assert!(rt; absent(&rt, SIZES, &NO_CLAIM, 1 << 22) == Some(2));
    assert!(rt; absent(&rt, SIZES, &[row!(1, Step::Over)], 2) == Some(0));
}
