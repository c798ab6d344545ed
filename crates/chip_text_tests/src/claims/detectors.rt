//! Claims of known detectors, right and wrong ones, in logs that were put together process by process, the last one
//! first. Process 0 claims.

use crate::claims::play::{SIZES, hear, judged, last_verdict, receive, row, send, stream, tell};
use chip_log::{LogRow, OrderFault, Step, Stream, Unwatched, Verdict};

/// Dijkstra and Scholten: a process acknowledges the message that woke it when it is passive and all of its own are
/// acknowledged. The rows are in the order of time.
const DIJKSTRA_SCHOLTEN: [LogRow; 13] = [
    row!(0, Step::Active),
    send!(0, 0),
    row!(0, Step::Passive),
    receive!(1, 0),
    send!(1, 1),
    row!(1, Step::Passive),
    receive!(2, 1),
    row!(2, Step::Passive),
    tell!(2, 1),
    hear!(1, 1),
    tell!(1, 0),
    hear!(0, 0),
    row!(0, Step::Over),
];

/// The same run, process by process.
const BY_PROCESS: [LogRow; 13] = [
    receive!(2, 1),
    row!(2, Step::Passive),
    tell!(2, 1),
    receive!(1, 0),
    send!(1, 1),
    row!(1, Step::Passive),
    hear!(1, 1),
    tell!(1, 0),
    row!(0, Step::Active),
    send!(0, 0),
    row!(0, Step::Passive),
    hear!(0, 0),
    row!(0, Step::Over),
];

#[test]
fn dijkstra_scholten(rt: HostRuntime) {
    assert!(rt; last_verdict(&rt, SIZES, &DIJKSTRA_SCHOLTEN) == Some(Verdict::Right));
    assert!(rt; last_verdict(&rt, SIZES, &BY_PROCESS) == Some(Verdict::Right));
}

/// Process 1 acknowledges at once.
const AT_ONCE: [LogRow; 13] = [
    receive!(2, 1),
    tell!(2, 1),
    row!(2, Step::Passive),
    receive!(1, 0),
    tell!(1, 0),
    send!(1, 1),
    row!(1, Step::Passive),
    hear!(1, 1),
    row!(0, Step::Active),
    send!(0, 0),
    row!(0, Step::Passive),
    hear!(0, 0),
    row!(0, Step::Over),
];

/// Process 1 acknowledges when it is passive, though its own message is not acknowledged.
const WHEN_PASSIVE: [LogRow; 13] = [
    receive!(2, 1),
    row!(2, Step::Passive),
    tell!(2, 1),
    receive!(1, 0),
    send!(1, 1),
    row!(1, Step::Passive),
    tell!(1, 0),
    hear!(1, 1),
    row!(0, Step::Active),
    send!(0, 0),
    row!(0, Step::Passive),
    hear!(0, 0),
    row!(0, Step::Over),
];

#[test]
fn early_acknowledgements(rt: HostRuntime) {
    let on_its_way = Verdict::OnItsWay {
        channel: 1,
        message: 0,
    };
    assert!(rt; last_verdict(&rt, SIZES, &AT_ONCE) == Some(Verdict::Active { process: 1 }));
    assert!(rt; last_verdict(&rt, SIZES, &WHEN_PASSIVE) == Some(on_its_way));
}

/// Safra: the token goes from 0 to 2 to 1 to 0. After its first visit process 2 is woken by 1 and replies. The token
/// comes back black in the first round and in the second, and white in the third.
const SAFRA: [LogRow; 26] = [
    hear!(2, 0),
    tell!(2, 1),
    receive!(2, 0),
    send!(2, 1),
    row!(2, Step::Passive),
    hear!(2, 0),
    tell!(2, 1),
    hear!(2, 0),
    tell!(2, 1),
    row!(1, Step::Active),
    send!(1, 0),
    receive!(1, 1),
    row!(1, Step::Passive),
    hear!(1, 1),
    tell!(1, 2),
    hear!(1, 1),
    tell!(1, 2),
    hear!(1, 1),
    tell!(1, 2),
    tell!(0, 0),
    hear!(0, 2),
    tell!(0, 0),
    hear!(0, 2),
    tell!(0, 0),
    hear!(0, 2),
    row!(0, Step::Over),
];

/// Without colours process 0 claims at the end of the first round, in which the message counts add up to 0.
const WITHOUT_COLOURS: [LogRow; 14] = [
    hear!(2, 0),
    tell!(2, 1),
    receive!(2, 0),
    send!(2, 1),
    row!(2, Step::Passive),
    row!(1, Step::Active),
    send!(1, 0),
    receive!(1, 1),
    row!(1, Step::Passive),
    hear!(1, 1),
    tell!(1, 2),
    tell!(0, 0),
    hear!(0, 2),
    row!(0, Step::Over),
];

#[test]
fn safra(rt: HostRuntime) {
    assert!(rt; last_verdict(&rt, SIZES, &SAFRA) == Some(Verdict::Right));
    assert!(rt; last_verdict(&rt, SIZES, &WITHOUT_COLOURS) == Some(Verdict::Active { process: 2 }));
}

/// Credit: a process gives back the credit of its message when it is passive.
const CREDIT: [LogRow; 13] = [
    receive!(2, 1),
    row!(2, Step::Passive),
    tell!(2, 1),
    receive!(1, 0),
    row!(1, Step::Passive),
    tell!(1, 0),
    row!(0, Step::Active),
    send!(0, 0),
    send!(0, 1),
    row!(0, Step::Passive),
    hear!(0, 0),
    hear!(0, 1),
    row!(0, Step::Over),
];

/// Process 1 gives it back while it is active.
const CREDIT_SOON: [LogRow; 13] = [
    receive!(2, 1),
    row!(2, Step::Passive),
    tell!(2, 1),
    receive!(1, 0),
    tell!(1, 0),
    row!(1, Step::Passive),
    row!(0, Step::Active),
    send!(0, 0),
    send!(0, 1),
    row!(0, Step::Passive),
    hear!(0, 0),
    hear!(0, 1),
    row!(0, Step::Over),
];

#[test]
fn credit(rt: HostRuntime) {
    assert!(rt; last_verdict(&rt, SIZES, &CREDIT) == Some(Verdict::Right));
    assert!(rt; last_verdict(&rt, SIZES, &CREDIT_SOON) == Some(Verdict::Active { process: 1 }));
}

/// Each of two processes waits for the other.
const CIRCLE: [LogRow; 4] = [hear!(0, 1), tell!(0, 0), hear!(1, 0), tell!(1, 1)];

/// The same log in another order.
const CIRCLE_TURNED: [LogRow; 4] = [hear!(1, 0), tell!(1, 1), hear!(0, 1), tell!(0, 0)];

#[test]
fn circle(rt: HostRuntime) {
    let at_first = OrderFault::Stuck { process: 0, row: 0 };
    assert!(rt; judged(&rt, SIZES, &CIRCLE, &mut Unwatched).err() == Some(at_first));
    assert!(rt; judged(&rt, SIZES, &CIRCLE_TURNED, &mut Unwatched).err() == Some(at_first));
}
