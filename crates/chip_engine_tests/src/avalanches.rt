//! Chips dropped one after another, by hand on the triangle.

ghost use Rattle.std.specs.Prelude.{◌≡◌, sum, slice_index};
ghost use Rattle.chip_fire.specs.Pile.{IsPile};
ghost use Rattle.chip_sequence.specs.Firing.{IsStable};

use crate::engines::{Heard, NO_LIMIT, TRIANGLE, closed};
use chip_command::{Ended, Fault, read_game};
use chip_engine::{PlayOptions, avalanches_engine, avalanches_engine_with, write_rows};
use chip_fire::{Avalanche, Pile, Unwatched, plain};
use chip_graph::Limits;
use chip_report::{WriteFault, is_closed};
use std::alloc::Global;
use std::io;
use std::io::Write;
use std::process::Abort;

/// The play leaves 1 and 0, and 3 on the sink.
const CHIPS: &str = "vertex,chips\n0,4\n";

/// One on 0: it fires. Seven on the sink: nothing does. Five on 0, 5 and 1: 0 fires twice, 1, 0 and 1.
const DROPS: &str = "vertex,chips\n0,1\n2,7\n0,5\n";

const ROWS: &str = "vertex,chips,size,extent,lost\n0,1,1,1,1\n2,7,0,0,0\n0,5,5,2,5\n";

/// The report of all seventeen chips.
const TOGETHER: &str =
    "{\"chips\":[1,0,16],\"closed\":true,\"fired\":[6,3,0],\"over\":[],\"sealed\":[],\"version\":1}\n";

/// The same with limit 3, which stops the last drop at 5 and 1.
const STOPPED: &str =
    "{\"chips\":[5,1,11],\"closed\":false,\"fired\":[3,1,0],\"over\":[0],\"sealed\":[],\"version\":1}\n";

/// The pile of these chips.
#[tactic(auto, using(chip_engine::proofs::StageLemmas::none_legal))]
fn rested(rt: &(impl AllocGlobal + Abort)) -> Box<Pile>
    ensures pile { IsPile result.value }
    ensures stable { IsStable result.value.game.graph (slice_index result.value.chips.items) }
    ensures three { result.value.game.graph.vertices ≡ 3 }
    ensures four { sum result.value.game.start ≡ 4 }
{
    let (graph, chips) = (&mut TRIANGLE.as_bytes(), &mut CHIPS.as_bytes());
    let game = read_game(rt.alloc(), Limits::standard(), graph, chips, NO_LIMIT).expect(
        rt, "a game",
    );
    assert!(rt; game.graph().vertices() == 3);
    assert!(rt; game.total() == 4);
    let outcome = plain(rt.alloc(), &game).expect(rt, "memory");
    assert!(rt; is_closed(&outcome));
    let pile = Pile::new(rt.alloc(), game, outcome).expect(rt, "memory");
    Box::new(rt.alloc(), pile).expect(rt, "memory")
}

/// Six on 0: it fires three times, and 1 once.
#[test]
fn measures_an_avalanche(rt: HostRuntime) {
    let pile = Box::into_inner(rested(&rt));
    let (pile, avalanche) = pile.drop_chips(rt.alloc(), 0, 5);
    assert!(rt;
        avalanche
            == Some(Avalanche {
                size: 4,
                extent: 2,
                lost: 4
            })
    );
    let outcome = pile.outcome(rt.alloc()).expect(&rt, "memory");
    assert!(rt; outcome.fired.as_slice() == [5, 2, 0].as_slice());
    assert!(rt; outcome.chips.as_slice() == [1, 1, 7].as_slice());
}

#[test]
fn writes_a_row_for_each_drop(rt: HostRuntime) {
    let mut rows = Vec::new(rt.alloc());
    let drops = [(0, 1), (2, 7), (0, 5)];
    let (pile, watch) = (Box::into_inner(rested(&rt)), &mut Unwatched);
    let (_, all) = write_rows(rt.alloc(), pile, &drops, watch, &mut rows);
    assert!(rt; all == Ok(true));
    assert!(rt; rows.as_slice() == ROWS.as_bytes());
}

#[test]
fn drops_on_the_triangle(rt: HostRuntime) {
    let (graph, chips, drops) = (
        &mut TRIANGLE.as_bytes(),
        &mut CHIPS.as_bytes(),
        &mut DROPS.as_bytes(),
    );
    let (mut rows, mut report) = (Vec::new(rt.alloc()), Some(Vec::new(rt.alloc())));
    let ended = avalanches_engine(
        rt.alloc(),
        graph,
        chips,
        drops,
        NO_LIMIT,
        &mut rows,
        &mut report,
    );
    assert!(rt; ended == closed(0));
    assert!(rt; rows.as_slice() == ROWS.as_bytes());
    assert!(rt; report.is_some_and(|report| report.as_slice() == TOGETHER.as_bytes()));
}

#[test]
fn a_stopped_drop_has_no_row(rt: HostRuntime) {
    let (graph, chips) = (&mut TRIANGLE.as_bytes(), &mut CHIPS.as_bytes());
    let (drops, options) = (&mut DROPS.as_bytes(), PlayOptions::standard(3));
    let (mut rows, mut report) = (Vec::new(rt.alloc()), Some(Vec::new(rt.alloc())));
    let watch = &mut Unwatched;
    let ended = avalanches_engine_with(
        rt.alloc(),
        graph,
        chips,
        drops,
        options,
        watch,
        &mut rows,
        &mut report,
    );
    assert!(rt; ended == closed(2));
    assert!(rt;
        rows.as_slice() == "vertex,chips,size,extent,lost\n0,1,1,1,1\n2,7,0,0,0\n".as_bytes()
    );
    assert!(rt; report.is_some_and(|report| report.as_slice() == STOPPED.as_bytes()));
}

/// Vertices 0 and 1 send each other a thousand chips, and 0 one to the sink: they take turns until that has many.
const SLOW: &str =
    "{\"edges\":[[0,1,1000],[0,2,1],[1,0,1000]],\"sink\":2,\"version\":1,\"vertices\":3}";

/// At 0 and 1 together 1000 chips stay. So 1005 of the second drop go to the sink, one at each firing of 0, and 1 fires
/// as often.
const SLOW_DROPS: &str = "vertex,chips\n0,5\n0,2000\n1,3\n";

const BEFORE: &str = "vertex,chips,size,extent,lost\n0,5,0,0,0\n";

const AFTER: &str = "0,2000,2010,2,1005\n1,3,0,0,0\n";

/// Takes no more than `room` bytes, and keeps how many it had after each write.
#[derive(Drop)]
struct Blocks {
    room: usize,
    taken: Vec<u8>,
    ends: Vec<usize>,
}

impl Write for Blocks {
    fn write(&mut self, bytes: &[u8]) -> io::Result<usize> {
        if self.taken.len() >= self.room {
            return Err(io::Error::from(io::ErrorKind::Other));
        }
        let count = bytes.len().min(self.room - self.taken.len());
        self.taken.extend_from_slice(&bytes[..count])?;
        self.ends.push(self.taken.len())?;
        Ok(count)
    }

    fn flush(&mut self) -> io::Result<()> {
        Ok(())
    }
}

/// The outcome of the slow drops if the output has room for `room` bytes: the result, the output, and what the watcher
/// saw.
fn slow_drops(alloc: Global, room: usize) -> (Result<Ended, Fault>, Blocks, Heard) {
    let (graph, chips) = (&mut SLOW.as_bytes(), &mut "vertex,chips\n".as_bytes());
    let (drops, options) = (&mut SLOW_DROPS.as_bytes(), PlayOptions::standard(NO_LIMIT));
    let (mut heard, mut no_report) = (Heard { fired: [0; 3] }, None::<Vec<u8>>);
    let mut rows = Blocks {
        room,
        taken: Vec::new(alloc),
        ends: Vec::new(alloc),
    };
    let ended = avalanches_engine_with(
        alloc,
        graph,
        chips,
        drops,
        options,
        &mut heard,
        &mut rows,
        &mut no_report,
    );
    (ended, rows, heard)
}

#[test]
fn a_slow_drop_is_reported_after_the_rows_before_it(rt: HostRuntime) {
    let (ended, rows, heard) = slow_drops(rt.alloc(), 1000);
    assert!(rt; ended == closed(0));
    assert!(rt; heard.fired == [1005, 1005, 0]);
    let (before, all) = (BEFORE.len(), BEFORE.len() + AFTER.len());
    assert!(rt; rows.ends.as_slice() == [before, all].as_slice());
    assert!(rt; rows.taken.get(..before) == Some(BEFORE.as_bytes()));
    assert!(rt; rows.taken.get(before..) == Some(AFTER.as_bytes()));
}

#[test]
fn a_slow_drop_is_not_played_if_the_rows_before_it_fail(rt: HostRuntime) {
    let (ended, rows, heard) = slow_drops(rt.alloc(), 10);
    assert!(rt; ended == Err(Fault::Write(WriteFault { written: 10 })));
    assert!(rt; Some(rows.taken.as_slice()) == BEFORE.as_bytes().get(..10));
    assert!(rt; heard.fired == [0, 0, 0]);
}
