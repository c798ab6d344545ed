//! Games that several modules play, and short names for events in them.

ghost use Rattle.std.specs.Prelude.{◌≡◌, ◌<◌, length};
ghost use Rattle.chip_core_tests.specs.Asking.{game_on};

use chip_graph::{Edge, Game, Graph};
use std::process::Abort;

/// A message, by edge, place and count.
macro_rules! message {
    ($edge:expr, $place:expr, $count:expr) => {
        Message {
            edge: $edge,
            place: $place,
            count: $count,
        }
    };
}

/// The reply to a take of this message.
macro_rules! got {
    ($edge:expr, $place:expr, $count:expr) => {
        Reply::Got(message!($edge, $place, $count))
    };
}

/// The reply to a claim for this message.
macro_rules! sent {
    ($edge:expr, $place:expr, $count:expr) => {
        Reply::Sent(message!($edge, $place, $count))
    };
}

/// A firing of a vertex, `k` times in a row.
macro_rules! fire {
    ($vertex:expr, $k:expr) => {
        Event::Fire {
            vertex: $vertex,
            k: $k,
        }
    };
}

/// The root feeds this number of chips over an edge.
macro_rules! feed {
    ($edge:expr, $count:expr) => {
        Event::Feed {
            edge: $edge,
            count: $count,
        }
    };
}

pub(crate) use feed;
pub(crate) use fire;
pub(crate) use got;
pub(crate) use message;
pub(crate) use sent;

/// Two vertices that send to each other, and both to the sink 2.
pub(crate) const TRIANGLE: [(u64, u64); 4] = [(0, 1), (0, 2), (1, 0), (1, 2)];

/// The game on these edges, which send one chip for each firing. The sink is the last vertex.
pub(crate) fn made_game(
    rt: &(impl AllocGlobal + Abort),
    ends: &[(u64, u64)],
    start: &[u64],
) -> Box<Game>
    requires { 0 < length start.now }
    ensures { result.value ≡ game_on ends.now start.now }
{
    let mut rows = Vec::new(rt.alloc());
    for i in 0..ends.len() {
        let (tail, head) = ends[i];
        rows.push(Edge {
            tail,
            head,
            mult: 1,
        })
        .expect(rt, "memory");
    }
    let vertices = start.len() as u64;
    let graph = Graph::new(rt.alloc(), vertices, vertices - 1, rows).expect(rt, "a graph");
    let start = Vec::from_slice(rt.alloc(), start).expect(rt, "memory");
    let game = Game::new(graph, start, 1 << 40).expect(rt, "a game");
    Box::new(rt.alloc(), game).expect(rt, "memory")
}
