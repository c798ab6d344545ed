//! Games given by numbers.

ghost use Rattle.std.specs.Prelude.{◌≡◌, ℕ, ◌+◌, ◌<◌, ◌≤◌, sum, IfOk, IfSome, OnErr};
ghost use Rattle.chip_graph.specs.Limits.{max_total};
ghost use Rattle.chip_graph.specs.ChipGame.{IsGame};
ghost use Rattle.chip_sequence.specs.Counted.{game_from};
ghost use Rattle.chip_sequence.specs.Stages.{IsResumed, IsPlayFrom};
ghost use Rattle.chip_library.specs.EdgeLists.{graph_of};
ghost use Rattle.chip_library.specs.Batch.{row, game_at};
ghost use Rattle.examples.specs.Answers.{IsEveryEnd, SetsOffAvalanche};

use chip_fire::{Avalanche, Outcome, Pile, ResumeFault, Resumed, plain, resume};
use chip_graph::{Edge, Game, Graph};
use chip_library::{CallFault, EdgeLists, stabilize_all};
use chip_report::is_closed;
use std::alloc::{AllocError, Global};

/// How the game on these edges ends, in whatever order vertices fire; `None` if the numbers make no game, or memory
/// runs out.
pub fn end_of_edges(
    alloc: Global,
    vertices: u64,
    sink: u64,
    edges: Vec<Edge>,
    start: Vec<u64>,
    limit: u64,
) -> Option<Outcome>
    ensures { IfSome result (λ o. IsEveryEnd
        (game_from (record { vertices = vertices; sink = sink; edges = edges.items }) start.items limit)
        o.fired.items o.chips.items) }
{
    let Ok(graph) = Graph::new(alloc, vertices, sink, edges) else {
        return None;
    };
    let Ok(game) = Game::new(graph, start, limit) else {
        return None;
    };
    plain(alloc, &game).ok()
}

/// Continues a play that a limit stopped. What was fired before counts.
pub fn go_on(
    alloc: Global,
    graph: Graph,
    earlier: &Resumed,
    limit: u64,
) -> Result<Resumed, ResumeFault>
    requires { IsResumed earlier.now }
    ensures { IfOk result (λ later. (x : ℕ → ℕ) → IsPlayFrom graph x earlier.now → IsPlayFrom graph x later) }
{
    resume(alloc, graph, earlier, limit)
}

/// The avalanche of `count` chips dropped on a vertex once the game is over; `None` if the limit stops it.
pub fn avalanche(
    alloc: Global,
    game: Game,
    vertex: u64,
    count: u64,
) -> Result<Option<Avalanche>, AllocError>
    requires game { IsGame game }
    requires is_vertex { vertex < game.graph.vertices }
    requires few_chips { sum game.start + count ≤ max_total }
    ensures { IfOk result (λ told. IfSome told (SetsOffAvalanche game vertex count)) }
{
    let outcome = plain(alloc, &game)?;
    if !is_closed(&outcome) {
        return Ok(None);
    }
    let pile = Pile::new(alloc, game, outcome)?;
    let (_, avalanche) = pile.drop_chips(alloc, vertex, count);
    Ok(avalanche)
}

/// How often each vertex fires in each of `games` games on one graph. Their chips are replaced by those at the end.
pub fn end_of_each(
    alloc: Global,
    edges: EdgeLists<'_>,
    limit: u64,
    games: usize,
    chips: &mut [u64],
) -> Result<Vec<u64>, CallFault>
    ensures ends { IfOk result (λ fired. (i : ℕ) → i < games → IsEveryEnd
        (game_at (graph_of edges.entry) limit chips.old i)
        (row edges.entry.vertices fired.items i) (row edges.entry.vertices chips.new i)) }
    ensures same { OnErr result (chips.new ≡ chips.old) }
{
    let mut fired = vec![in alloc; 0; chips.len()]?;
    let mut stopped = vec![in alloc; 0; games]?;
    stabilize_all(alloc, edges, limit, &[], chips, &mut fired, &mut stopped)?;
    Ok(fired)
}
