//! The calls on small games, reply for reply and operation for operation.

ghost use Rattle.std.specs.Prelude.{◌≡◌, ◌≢◌, ◌<◌, false, IsTrue, length};
ghost use Rattle.chip_actor.specs.Actor.{SomePart, StandsFor};
ghost use Rattle.chip_core_tests.specs.ActorAsking.{AnswersFor};
ghost use Rattle.chip_core_tests.specs.Asking.{may_ask, may_play, may_see_all, may_play_new, setting_on};
ghost use Rattle.chip_part.specs.Part.{opening_part};

use crate::games::{TRIANGLE, fire, got, made_game, message, sent};
use chip_actor::ActorState;
use chip_link::{Event, Message};
use chip_part::{Act, Cause, Cursor, Observed, Reply, Rule};
use std::process::Abort;

/// Requests an event, which is made if its rules are met.
fn ask(actor: &mut ActorState, event: Event, seen: u64) -> Reply
    requires { SomePart actor.old (λ g s. IsTrue (may_ask g actor.old.vertex s event seen)) }
    ensures { AnswersFor actor.old actor.new event seen result }
{
    match actor.may(&event) {
        Ok(act) => actor.apply(Observed { act, seen }),
        Err(rule) => Reply::NotNow(rule),
    }
}

/// Whether it is the expected operation, and not the end.
fn is_wanted(act: Act, wanted: Act) -> bool
    ensures same { IsTrue result → act ≡ wanted }
    ensures some { IsTrue result → act ≢ Act.End }
{
    match (act, wanted) {
        (Act::Take { edge, cell }, Act::Take { edge: e, cell: c }) => edge == e && cell == c,
        (Act::Settle { edge }, Act::Settle { edge: e }) => edge == e,
        (Act::Fire { k }, Act::Fire { k: wanted }) => k == wanted,
        (Act::Clear { edge, cell }, Act::Clear { edge: e, cell: c }) => edge == e && cell == c,
        (
            Act::Claim {
                edge,
                expected,
                new,
            },
            Act::Claim {
                edge: e,
                expected: x,
                new: n,
            },
        ) => edge == e && expected == x && new == n,
        (
            Act::Put { edge, cell, value },
            Act::Put {
                edge: e,
                cell: c,
                value: v,
            },
        ) => edge == e && cell == c && value == v,
        _ => false,
    }
}

/// Makes a turn of these operations, each with the word that it sees; returns the number of those that count.
fn make_turn(rt: &impl Abort, actor: &mut ActorState, turn: &[(Act, u64)]) -> usize
    requires { SomePart actor.old (λ g s. IsTrue (may_see_all g actor.old.vertex s turn.now)) }
{
    let mut cursor = Cursor::start();
    let mut counted = 0;
    for i in 0..turn.len() {
        let (wanted, seen) = turn[i];
        let (act, next) = actor.next(cursor);
        assert!(rt; is_wanted(act, wanted));
        let observed = Observed { act: wanted, seen };
        let reply = actor.apply(observed);
        if observed.counts(&reply) {
            counted += 1;
        }
        cursor = next;
    }
    let (last, _) = actor.next(cursor);
    assert!(rt; matches!(last, Act::End));
    counted
}

/// Requests events in order, each with the word that it sees and the expected reply, and makes a turn of these
/// operations, if any. Returns the number of operations that count.
fn play(
    rt: &impl Abort,
    actor: &mut ActorState,
    questions: &[(Event, u64, Reply)],
    turn: &[(Act, u64)],
) -> usize
    requires { SomePart actor.old (λ g s. IsTrue (may_play g actor.old.vertex s questions.now turn.now)) }
{
    for i in 0..questions.len() {
        let (event, seen, reply) = questions[i];
        let answer = ask(actor, event, seen);
        assert!(rt; answer == reply);
    }
    if turn.is_empty() {
        return 0;
    }
    make_turn(rt, actor, turn)
}

/// A vertex of the game on these edges, as it opens with rings of one cell.
fn new_actor(
    rt: &(impl AllocGlobal + Abort),
    ends: &[(u64, u64)],
    start: &[u64],
    vertex: u64,
) -> Box<ActorState>
    requires { vertex < length start.now }
    ensures vertex { result.value.vertex ≡ vertex }
    ensures opened { let g = setting_on ends.now start.now false in StandsFor g (opening_part g) result.value }
{
    let game = made_game(rt, ends, start);
    let actor = ActorState::new(rt.alloc(), &game, vertex, 1).expect(rt, "memory");
    Box::new(rt.alloc(), actor).expect(rt, "memory")
}

/// Plays a vertex of the game on these edges from its opening on. Returns its actor, and the number of the turn's
/// operations that count.
fn play_new(
    rt: &(impl AllocGlobal + Abort),
    ends: &[(u64, u64)],
    start: &[u64],
    vertex: u64,
    questions: &[(Event, u64, Reply)],
    turn: &[(Act, u64)],
) -> (Box<ActorState>, usize)
    requires vertex { vertex < length start.now }
    requires plays { IsTrue (may_play_new ends.now start.now vertex questions.now turn.now) }
{
    let mut actor = new_actor(rt, ends, start, vertex);
    let counted = play(rt, &mut actor, questions, turn);
    (actor, counted)
}

/// A chain of two edges to the sink 2.
const CHAIN: [(u64, u64); 2] = [(0, 1), (1, 2)];

/// Two edges from vertex 0 to the sink 1.
const TWICE: [(u64, u64); 2] = [(0, 1), (0, 1)];

/// A ring of one cell that is full.
const FULL_RING: [(Event, u64, Reply); 7] = [
    (Event::Take(2), 3, got!(2, 0, 3)),
    (fire!(0, 1), 0, Reply::Done(1)),
    (Event::Clear(0), 0, Reply::Done(0)),
    (Event::Claim(0), 0, sent!(0, 0, 1)),
    (Event::Put(0), 0, Reply::Done(1)),
    (fire!(0, 1), 1, Reply::Done(2)),
    (Event::Clear(0), 1, Reply::Full),
];

#[test]
fn full_ring(rt: HostRuntime) {
    let (actor, _) = play_new(&rt, &CHAIN, &[3, 0, 0], 0, &FULL_RING, &[]);
    assert!(rt; actor.chips() == 1);
    assert!(rt; actor.fired() == 2);
    assert!(rt; !actor.passive());
}

/// The edge to the sink is sealed before the firing that would send over it.
const SEALED_HALF_WAY: [(Event, u64, Reply); 8] = [
    (Event::Take(4), 4, got!(4, 0, 4)),
    (fire!(0, 2), 0, Reply::Done(2)),
    (Event::Clear(0), 0, Reply::Done(0)),
    (Event::Claim(0), 0, sent!(0, 0, 2)),
    (Event::Put(0), 0, Reply::Done(2)),
    (Event::Clear(1), 0, Reply::Done(0)),
    (Event::Claim(1), 1 << 63, Reply::Sealed),
    (Event::Halt(0), 2, Reply::Done(0)),
];

#[test]
fn sealed_half_way(rt: HostRuntime) {
    let (actor, _) = play_new(&rt, &TRIANGLE, &[4, 0, 0], 0, &SEALED_HALF_WAY, &[]);
    assert!(rt; actor.halted() == Some(Cause::SealedEdge));
    assert!(rt; actor.fired() == 2);
    assert!(rt; actor.passive());
    assert!(rt; actor.detect().deficit() == 1);
}

/// A vertex engaged by the last of two messages.
const ENGAGING_MESSAGE_LAST: [(Event, u64, Reply); 5] = [
    (Event::Take(0), 1, got!(0, 0, 1)),
    (Event::Take(1), 1, got!(1, 0, 1)),
    (Event::Ack(0), 0, Reply::NotNow(Rule::Engaged)),
    (Event::Ack(1), 0, Reply::Done(1)),
    (Event::Ack(0), 0, Reply::Done(1)),
];

#[test]
fn engaging_message_last(rt: HostRuntime) {
    let (actor, _) = play_new(&rt, &TWICE, &[2, 0], 1, &ENGAGING_MESSAGE_LAST, &[]);
    assert!(rt; !actor.detect().engaged());
    assert!(rt; actor.chips() == 2);
}

/// The operation that claims the first message on this edge.
macro_rules! claim {
    ($edge:expr) => {
        Act::Claim {
            edge: $edge,
            expected: 0,
            new: 1,
        }
    };
}

/// The operation that puts this number of chips into the first cell of this edge.
macro_rules! put {
    ($edge:expr, $value:expr) => {
        Act::Put {
            edge: $edge,
            cell: 0,
            value: $value,
        }
    };
}

/// A whole turn of vertex 0 with four chips.
const FIRST_TURN: [(Act, u64); 11] = [
    (Act::Take { edge: 2, cell: 0 }, 0),
    (Act::Take { edge: 4, cell: 0 }, 4),
    (Act::Settle { edge: 0 }, 0),
    (Act::Settle { edge: 1 }, 0),
    (Act::Fire { k: 2 }, 0),
    (Act::Clear { edge: 0, cell: 0 }, 0),
    (claim!(0), 0),
    (put!(0, 2), 0),
    (Act::Clear { edge: 1, cell: 0 }, 0),
    (claim!(1), 0),
    (put!(1, 2), 0),
];

#[test]
fn first_turn(rt: HostRuntime) {
    let (_, counted) = play_new(&rt, &TRIANGLE, &[4, 0, 0], 0, &[], &FIRST_TURN);
    assert!(rt; counted == 6);
}

/// Vertex 0 with six chips, until it has claimed a second message and not put it.
const CLAIMED: [(Event, u64, Reply); 7] = [
    (Event::Take(4), 6, got!(4, 0, 6)),
    (fire!(0, 2), 0, Reply::Done(2)),
    (Event::Clear(0), 0, Reply::Done(0)),
    (Event::Claim(0), 0, sent!(0, 0, 2)),
    (Event::Put(0), 0, Reply::Done(2)),
    (Event::Clear(1), 0, Reply::Done(0)),
    (Event::Claim(1), 0, sent!(1, 0, 2)),
];

/// A turn that begins there.
const PUTTING_TURN: [(Act, u64); 5] = [
    (Act::Take { edge: 2, cell: 0 }, 0),
    (Act::Take { edge: 4, cell: 0 }, 0),
    (Act::Settle { edge: 0 }, 0),
    (Act::Settle { edge: 1 }, 0),
    (put!(1, 2), 0),
];

#[test]
fn turn_begun_in_the_middle(rt: HostRuntime) {
    let (actor, counted) = play_new(&rt, &TRIANGLE, &[6, 0, 0], 0, &CLAIMED, &PUTTING_TURN);
    assert!(rt; counted == 1);
    assert!(rt; actor.chips() == 2);
}
