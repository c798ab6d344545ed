//! Floods of small networks, worked out by hand.

use chip_flooding::{Flood, Topology};

#[test]
fn two_ways_and_a_ring_apart(rt: HostRuntime) {
    let topology = Topology {
        parts: 6,
        root: 5,
        tails: vec![in rt.alloc(); 5, 0, 1, 2, 0, 3, 4, 5].expect(&rt, "memory"),
        heads: vec![in rt.alloc(); 0, 1, 2, 0, 2, 4, 3, 2].expect(&rt, "memory"),
    };
    let flood = Flood::opened(rt.alloc(), topology).expect(&rt, "memory");
    let marked = flood.finish();
    assert!(rt; marked.as_slice() == [true, true, true, false, false, true].as_slice());
}

#[test]
fn two_edges_alike_and_a_loop(rt: HostRuntime) {
    let topology = Topology {
        parts: 3,
        root: 0,
        tails: vec![in rt.alloc(); 0, 0, 1].expect(&rt, "memory"),
        heads: vec![in rt.alloc(); 1, 1, 1].expect(&rt, "memory"),
    };
    let flood = Flood::opened(rt.alloc(), topology).expect(&rt, "memory");
    let marked = flood.finish();
    assert!(rt; marked.as_slice() == [true, true, false].as_slice());
}
