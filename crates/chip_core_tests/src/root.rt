//! The calls of the root on small games, reply for reply.

ghost use Rattle.std.specs.Prelude.{◌<◌, IsTrue, length};
ghost use Rattle.chip_core_tests.specs.Asking.{setting_on};
ghost use Rattle.chip_core_tests.specs.RootAsking.{may_ask_root, may_play_root, may_play_root_new, RootAnswers};
ghost use Rattle.chip_core_tests.specs.RootAsking.{four_on_first};
ghost use Rattle.chip_part.specs.Part.{opening_part};
ghost use Rattle.chip_actor.specs.Root.{SomeRoot, RootStandsFor};

use crate::games::{TRIANGLE, feed, made_game, message, sent};
use chip_actor::RootBooks;
use chip_link::{Event, Message, Ring};
use chip_part::{Reply, Rule, Setting};
use std::process::Abort;

/// Requests an event of the root, which makes it if its rules are met.
fn ask_root(root: &mut RootBooks, event: Event, seen: u64) -> Reply
    requires { SomeRoot root.old (λ g s. IsTrue (may_ask_root g s event seen)) }
    ensures { RootAnswers root.old root.new event seen result }
{
    match root.may(&event) {
        Ok(_) => root.apply(&event, seen),
        Err(rule) => Reply::NotNow(rule),
    }
}

/// Requests events of the root in order, each with the word that it sees and the expected reply.
fn play_root(rt: &impl Abort, root: &mut RootBooks, questions: &[(Event, u64, Reply)])
    requires { SomeRoot root.old (λ g s. IsTrue (may_play_root g s questions.now)) }
{
    for i in 0..questions.len() {
        let (event, seen, reply) = questions[i];
        let answer = ask_root(root, event, seen);
        assert!(rt; answer == reply);
    }
}

/// The root of the game on these edges, as it opens with rings of one cell.
fn new_root(
    rt: &(impl AllocGlobal + Abort),
    ends: &[(u64, u64)],
    start: &[u64],
    fed: bool,
) -> Box<RootBooks>
    requires { 0 < length start.now }
    ensures { let g = setting_on ends.now start.now fed in RootStandsFor g (opening_part g) result.value }
{
    let game = Box::into_inner(made_game(rt, ends, start));
    let setting = Setting::new(game, Ring::of(1), fed);
    let root = RootBooks::new(rt.alloc(), &setting).expect(rt, "memory");
    Box::new(rt.alloc(), root).expect(rt, "memory")
}

/// Makes these requests of the root of the game on these edges, from its opening on. It is closed then.
fn closes(
    rt: &(impl AllocGlobal + Abort),
    ends: &[(u64, u64)],
    start: &[u64],
    fed: bool,
    questions: &[(Event, u64, Reply)],
)
    requires start { 0 < length start.now }
    requires plays { IsTrue (may_play_root_new ends.now start.now fed questions.now) }
{
    let mut root = new_root(rt, ends, start, fed);
    play_root(rt, &mut root, questions);
    assert!(rt; root.closed());
}

/// A root that may not feed.
const UNFED: [(Event, u64, Reply); 9] = [
    (Event::Clear(4), 0, Reply::NotNow(Rule::Ended)),
    (Event::Put(4), 0, Reply::NotNow(Rule::NotClaimed)),
    (feed!(4, 1), 0, Reply::NotNow(Rule::Ended)),
    (feed!(0, 1), 0, Reply::NotNow(Rule::NoSuch)),
    (Event::Read(0), 0, Reply::NotNow(Rule::NotClosed)),
    (Event::End, 0, Reply::Done(0)),
    (Event::Settle(4), 1, Reply::Done(1)),
    (Event::Settle(7), 0, Reply::NotNow(Rule::NoSuch)),
    (Event::Read(0), 2, Reply::Done(2)),
];

#[test]
fn unfed_root(rt: HostRuntime) {
    closes(&rt, &TRIANGLE, &[4, 0, 0], false, &UNFED);
}

/// The message of vertex 0 is acknowledged; no later acknowledgement is new.
fn settles_once(rt: &impl Abort, root: &mut RootBooks)
    requires { RootStandsFor four_on_first (opening_part four_on_first) root.old }
{
    assert!(rt; root.outstanding() == 1);
    let first = root.settle(0, 1);
    assert!(rt; first == 1);
    assert!(rt; root.closed());
    let second = root.settle(0, 1);
    assert!(rt; second == 0);
    assert!(rt; root.closed());
}

#[test]
fn settled_root(rt: HostRuntime) {
    let mut root = new_root(&rt, &TRIANGLE, &[4, 0, 0], false);
    settles_once(&rt, &mut root);
}

/// A root that feeds vertex 0, and then notes the end.
const FED: [(Event, u64, Reply); 16] = [
    (feed!(4, 3), 0, Reply::NotNow(Rule::NotCleared)),
    (Event::Clear(4), 0, Reply::Done(0)),
    (feed!(4, 0), 0, Reply::NotNow(Rule::Zero)),
    (feed!(4, 1 << 40), 0, Reply::NotNow(Rule::TooMuch)),
    (feed!(4, 3), 0, sent!(4, 0, 3)),
    (Event::Clear(4), 0, Reply::NotNow(Rule::Unput)),
    (Event::Put(4), 0, Reply::Done(3)),
    (Event::Put(4), 0, Reply::NotNow(Rule::NotClaimed)),
    (Event::Clear(4), 3, Reply::Full),
    (Event::Settle(6), 1, Reply::Done(1)),
    (Event::Settle(4), 1, Reply::Done(1)),
    (Event::Read(0), 0, Reply::NotNow(Rule::NotClosed)),
    (Event::End, 1, Reply::Done(0)),
    (Event::Clear(4), 0, Reply::NotNow(Rule::Ended)),
    (feed!(4, 1), 0, Reply::NotNow(Rule::Ended)),
    (Event::Read(0), 1, Reply::Done(1)),
];

#[test]
fn fed_root(rt: HostRuntime) {
    closes(&rt, &TRIANGLE, &[0, 0, 1], true, &FED);
}
