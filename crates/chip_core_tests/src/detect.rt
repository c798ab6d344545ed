//! The books of one vertex, call by call.

ghost use Rattle.std.specs.Prelude.{◌≡◌, ◌≤◌, [], ◌∷◌, length};
ghost use Rattle.std.specs.List.Sorted.{IsStrictlyIncreasing};
ghost use Rattle.chip_detect.specs.Tally.{edge_limit};
ghost use Rattle.chip_detect.specs.Books.{IsSound, AreFreshBooks, in_edges, out_edges};

use chip_detect::{Detect, Slot};
use std::process::Abort;

/// The books of a neutral vertex with these edges, each list ascending.
#[tactic(auto, using(chip_detect::proofs::FreshLemmas::stand_in_order))]
fn neutral(rt: &(impl AllocGlobal + Abort), ins: &[u64], outs: &[u64]) -> Box<Detect>
    requires ins { IsStrictlyIncreasing ins.now }
    requires outs { IsStrictlyIncreasing outs.now }
    requires few_ins { length ins.now ≤ edge_limit }
    requires few_outs { length outs.now ≤ edge_limit }
    ensures ins { in_edges result.value ≡ ins.now }
    ensures outs { out_edges result.value ≡ outs.now }
    ensures fresh { AreFreshBooks result.value ins.now outs.now }
    ensures sound { IsSound result.value }
{
    let detect = Detect::new(rt.alloc(), ins, outs).expect(rt, "memory");
    Box::new(rt.alloc(), detect).expect(rt, "memory")
}

#[test]
fn engaging_message_last(rt: HostRuntime) {
    let mut detect = neutral(&rt, &[0, 1, 3], &[]);
    assert!(rt; !detect.engaged());
    detect.got(0);
    detect.got(1);
    assert!(rt; detect.parent() == Some(0));
    assert!(rt; detect.may_ack(0, true) == 0);
    assert!(rt; detect.may_ack(1, true) == 1);
    detect.acked(1, 1);
    assert!(rt; detect.may_ack(0, true) == 1);
    detect.acked(0, 1);
    assert!(rt; !detect.engaged());
}

#[test]
fn two_on_the_parent_edge(rt: HostRuntime) {
    let mut detect = neutral(&rt, &[0, 1, 3], &[]);
    detect.got(0);
    detect.got(0);
    assert!(rt; detect.owed(0) == 2);
    assert!(rt; detect.may_ack(0, false) == 1);
    assert!(rt; detect.may_ack(0, true) == 2);
}

#[test]
fn deficit_of_two_edges(rt: HostRuntime) {
    let mut detect = neutral(&rt, &[7], &[2, 5]);
    detect.got(7);
    detect.sent(2);
    detect.sent(5);
    assert!(rt; detect.deficit() == 2);
    assert!(rt; detect.may_ack(7, true) == 0);
    assert!(rt; detect.settled(5, 1) == 1);
    assert!(rt; detect.settled(5, 1) == 0);
    assert!(rt; detect.deficit() == 1);
    assert!(rt; detect.settled(2, 1) == 1);
    assert!(rt; detect.may_ack(7, true) == 1);
}

/// The number settled so far on the second of these edges out of the vertex.
fn settled_on_the_second(detect: &Detect) -> u64
    requires { out_edges detect.now ≡ 2 ∷ 5 ∷ [] }
{
    detect.settled_so_far(Slot { index: 1, edge: 5 })
}

#[test]
fn settled_so_far(rt: HostRuntime) {
    let mut detect = neutral(&rt, &[7], &[2, 5]);
    assert!(rt; settled_on_the_second(&detect) == 0);
    detect.sent(5);
    detect.sent(5);
    assert!(rt; detect.settled(5, 2) == 2);
    assert!(rt; settled_on_the_second(&detect) == 2);
}

#[test]
fn lists_in_any_order(rt: HostRuntime) {
    let detect = Detect::new(rt.alloc(), &[3, 0, 3, 1], &[9, 4, 9, 9]).expect(&rt, "memory");
    assert!(rt; !detect.engaged());
    assert!(rt; detect.deficit() == 0);
}

/// An implementation that fails at long lists meets the contract too.
#[test]
fn as_many_edges_as_there_may_be(rt: HostRuntime) {
    let mut edges = [0u64; 65_537];
    for (place, edge) in edges.iter_mut().enumerate() {
        *edge = place as u64;
    }
    let detect = Detect::new(rt.alloc(), &edges, &edges).expect(&rt, "memory");
    assert!(rt; !detect.engaged());
    assert!(rt; detect.deficit() == 0);
}
