//! The results of the calls, step by step, on small runs and on rings that wrap.

ghost use Rattle.std.specs.Prelude.{◌≡◌, ◌+◌, ◌^◌, ◌<◌, ◌≤◌};
ghost use Rattle.chip_link.specs.Ends.{max_count};

use crate::games::message;
use chip_link::{EdgeWord, FiredWord, HeadLink, MAX_RING, Message, Ring, TailLink};
use std::process::Abort;

/// An edge with its two ends, as plain words.
#[derive(Drop)]
struct Wire {
    tail: TailLink,
    head: HeadLink,
    word: u64,
    cells: Vec<u64>,
}

/// An edge with a ring of `size` cells.
fn new_wire(rt: &(impl AllocGlobal + Abort), edge: u64, size: u64) -> Box<Wire>
    ensures { result.value.head.taken ≡ 0 }
{
    let ring = Ring::new(size).expect(rt, "1 to 64 cells");
    assert!(rt; ring.cells() == size);
    let wire = Wire {
        tail: TailLink::new(edge, ring.cells()),
        head: HeadLink::new(edge, ring.cells()),
        word: 0,
        cells: vec![in rt.alloc(); 0; size as usize].expect(rt, "memory"),
    };
    Box::new(rt.alloc(), wire).expect(rt, "memory")
}

/// Sends one message if the tail finds room, by plain reads and writes; returns its place and its cell.
fn send(
    rt: &impl Abort,
    tail: &mut TailLink,
    word: &mut u64,
    cells: &mut Vec<u64>,
    count: u64,
) -> Option<(u64, u64)>
    requires { (1 ≤ count) × (count ≤ max_count) }
{
    let looked = tail.cell() as usize;
    assert!(rt; looked < cells.len());
    if !tail.cleared(cells[looked]) {
        return None;
    }
    let (expected, new) = tail.claim_next().expect(rt, "the cell is clear");
    assert!(rt; *word == expected);
    *word = new;
    let message = tail.claimed(expected, count).expect(rt, "no seal");
    let (cell, value) = tail.put_value().expect(rt, "a message is held");
    assert!(rt; (cell as usize) < cells.len());
    cells[cell as usize] = value;
    Some((message.place, cell))
}

/// Takes the next message, if there is one; returns its place, its count and its cell.
fn receive(rt: &impl Abort, head: &mut HeadLink, cells: &mut Vec<u64>) -> Option<(u64, u64, u64)>
    requires { head.old.taken < 2 ^ 62 }
    ensures { head.new.taken ≤ head.old.taken + 1 }
{
    let cell = head.cell();
    assert!(rt; (cell as usize) < cells.len());
    let found = cells[cell as usize];
    cells[cell as usize] = 0;
    let message = head.taken(found)?;
    Some((message.place, message.count, cell))
}

/// Sends a message of `count` chips and expects this place and cell.
fn sends(rt: &impl Abort, wire: &mut Wire, count: u64, place: u64, cell: u64)
    requires { (1 ≤ count) × (count ≤ max_count) }
    ensures { wire.new.head ≡ wire.old.head }
{
    let Some(sent) = send(rt, &mut wire.tail, &mut wire.word, &mut wire.cells, count) else {
        panic!(rt; "ring of {}: no room for message {place}", wire.cells.len());
    };
    assert!(rt;
        sent.0 == place && sent.1 == cell,
        "ring of {}, message {place}: {sent:?}",
        wire.cells.len()
    );
}

/// Expects that the ring has no room for a message.
fn is_full(rt: &impl Abort, wire: &mut Wire)
    ensures { wire.new.head ≡ wire.old.head }
{
    let sent = send(rt, &mut wire.tail, &mut wire.word, &mut wire.cells, 1);
    assert!(rt; sent.is_none(), "ring of {}: {sent:?}", wire.cells.len());
}

/// Takes a message and expects this place and cell, and `count` chips.
fn receives(rt: &impl Abort, wire: &mut Wire, place: u64, count: u64, cell: u64)
    requires { wire.old.head.taken < 2 ^ 62 }
    ensures { wire.new.head.taken ≤ wire.old.head.taken + 1 }
{
    let Some(taken) = receive(rt, &mut wire.head, &mut wire.cells) else {
        panic!(rt; "ring of {}: no message {place}", wire.cells.len());
    };
    let same = taken.0 == place && taken.1 == count && taken.2 == cell;
    assert!(rt;
        same,
        "ring of {}, message {place}: {taken:?}",
        wire.cells.len()
    );
}

/// Expects that the ring has no message.
fn is_empty(rt: &impl Abort, wire: &mut Wire)
    requires { wire.old.head.taken < 2 ^ 62 }
{
    let taken = receive(rt, &mut wire.head, &mut wire.cells);
    assert!(rt; taken.is_none(), "ring of {}: {taken:?}", wire.cells.len());
}

/// The tail of an edge with one cell: it sends two chips, and then the edge is sealed.
fn tail_of_one_cell(rt: &impl Abort, tail: &mut TailLink) {
    assert!(rt; tail.cell() == 0);
    assert!(rt; tail.claim_next() == None);
    assert!(rt; tail.cleared(0));
    assert!(rt; tail.claim_next() == Some((0, 1)));
    assert!(rt; tail.claimed(0, 2) == Some(message!(0, 0, 2)));
    assert!(rt; !tail.cleared(0));
    assert!(rt; tail.held() == Some((0, 2)));
    assert!(rt; tail.put_value() == Some((0, 2)));
    assert!(rt; tail.put_value() == None);
    assert!(rt; tail.held() == None);
    assert!(rt; !tail.cleared(2));
    assert!(rt; tail.cleared(0));
    assert!(rt; tail.claim_next() == Some((1, 2)));
    assert!(rt; !tail.refused());
    assert!(rt; tail.claimed(9_223_372_036_854_775_809, 5) == None);
    assert!(rt; tail.refused());
    assert!(rt; tail.claim_next() == None);
    assert!(rt; !tail.cleared(0));
}

/// The tail of an edge with two cells: two messages are sent as a whole; the cell of a third is full at first.
fn whole_sends(rt: &impl Abort, tail: &mut TailLink) {
    assert!(rt; tail.place_for(0) == Some(0));
    assert!(rt; tail.place_for(7) == None);
    assert!(rt; tail.cell() == 0);
    send_whole(rt, tail, 0);
    assert!(rt; tail.cell() == 1);
    send_whole(rt, tail, 1);
    assert!(rt; tail.cell() == 0);
    assert!(rt; tail.place_for(3) == None);
    assert!(rt; tail.place_for(0) == Some(2));
    assert!(rt; tail.held() == None);
    assert!(rt; tail.claim_next() == None);
}

/// Sends at this place, as a whole.
fn send_whole(rt: &impl Abort, tail: &mut TailLink, place: u64) {
    match tail.place_for(0) {
        Some(next) => {
            assert!(rt; next == place);
            tail.sent();
        }
        None => panic!(rt; "no place for message {place}"),
    }
}

#[test]
fn sent_as_a_whole(rt: HostRuntime) {
    let mut wire = new_wire(&rt, 4, 2);
    whole_sends(&rt, &mut wire.tail);
    assert!(rt; wire.tail.cleared(0));
    assert!(rt; wire.tail.claim_next() == Some((2, 3)));
    assert!(rt; wire.tail.claimed(2, 9) == Some(message!(4, 2, 9)));
    assert!(rt; wire.tail.place_for(0) == None);
}

/// The head of that edge: it takes two chips, and five more from the next place.
fn head_of_one_cell(rt: &impl Abort, head: &mut HeadLink)
    requires { head.old.taken ≡ 0 }
{
    assert!(rt; head.cell() == 0);
    assert!(rt; head.taken(0) == None);
    assert!(rt; head.taken(2) == Some(message!(0, 0, 2)));
    assert!(rt; head.taken(5) == Some(message!(0, 1, 5)));
}

#[test]
fn one_cell(rt: HostRuntime) {
    let mut wire = new_wire(&rt, 0, 1);
    tail_of_one_cell(&rt, &mut wire.tail);
    head_of_one_cell(&rt, &mut wire.head);
}

#[test]
fn ring_of_two(rt: HostRuntime) {
    let mut wire = new_wire(&rt, 0, 2);
    sends(&rt, &mut wire, 1, 0, 0);
    sends(&rt, &mut wire, 1, 1, 1);
    is_full(&rt, &mut wire);
    receives(&rt, &mut wire, 0, 1, 0);
    sends(&rt, &mut wire, 1, 2, 0);
    receives(&rt, &mut wire, 1, 1, 1);
    receives(&rt, &mut wire, 2, 1, 0);
    is_empty(&rt, &mut wire);
    assert!(rt; wire.word == 3);
}

/// A ring kept full from its first turn on, so that each further message waits for a take, and then emptied.
fn wraps(rt: &impl Abort, wire: &mut Wire, size: u64)
    requires head { wire.old.head.taken ≡ 0 }
    requires size { (1 ≤ size) × (size ≤ 64) }
{
    for place in 0..300 {
        if place >= size {
            is_full(rt, wire);
            let oldest = place - size;
            receives(rt, wire, oldest, oldest % 5 + 1, oldest % size);
        }
        sends(rt, wire, place % 5 + 1, place, place % size);
    }
    for left in 300 - size..300 {
        receives(rt, wire, left, left % 5 + 1, left % size);
    }
    is_empty(rt, wire);
    assert!(rt; wire.word == 300);
}

#[test]
fn rings_wrap(rt: HostRuntime) {
    for size in [1, 2, 3, 63, MAX_RING] {
        let mut wire = new_wire(&rt, 9, size);
        wraps(&rt, &mut wire, size);
    }
    assert!(rt; Ring::new(0).is_none());
    assert!(rt; Ring::new(MAX_RING + 1).is_none());
    assert!(rt; Ring::of(1).cells() == 1);
}

/// The word of a vertex that has halted.
fn is_halted(rt: &impl Abort, word: u64, fired: u64, by_limit: bool) {
    let halted = FiredWord::from_word(word).expect(rt, "halted");
    assert!(rt; halted.fired == fired && halted.halted && halted.by_limit == by_limit);
    assert!(rt; halted.to_word() == word);
}

#[test]
fn words_both_ways(rt: HostRuntime) {
    let sealed = EdgeWord::from_word(9_223_372_036_854_775_813);
    assert!(rt; sealed.claims == 5 && sealed.sealed);
    assert!(rt; sealed.to_word() == 9_223_372_036_854_775_813);
    assert!(rt; EdgeWord::from_word(7).to_word() == 7);
    assert!(rt; FiredWord::from_word(4_611_686_018_427_387_904).is_none());
    is_halted(&rt, 9_223_372_036_854_775_811, 3, false);
    is_halted(&rt, 13_835_058_055_282_163_714, 2, true);
}
