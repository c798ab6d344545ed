//! Games worked out by hand, and each call once. What holds for all inputs stands in the contracts.

ghost use Rattle.chip_sequence.specs.Stages.{IsResumed};

use crate::games::{Rows, TRIANGLE, game_of, graph_of, triangle};
use chip_fire::{Play, ResumeFault, Search, Watch, plain, plain_watched, resume, resume_watched};
use chip_graph::{Game, Graph};
use chip_sequence::{Outcome, Resumed};
use std::process::Abort;

/// A game, and where it ends.
struct Played {
    name: &'static str,
    edges: Rows,
    start: &'static [u64],
    limit: u64,
    fired: &'static [u64],
    chips: &'static [u64],
    over: &'static [u64],
}

/// Plays a game, and compares how often each vertex fired, the chips at the end and the halted vertices.
fn plays(rt: &(impl AllocGlobal + Abort), played: &Played) {
    let game = game_of(rt, played.edges, played.start, played.limit);
    let outcome = plain(rt.alloc(), &game).expect(rt, "memory");
    let same = outcome.fired.as_slice() == played.fired
        && outcome.chips.as_slice() == played.chips
        && outcome.over.as_slice() == played.over
        && outcome.sealed.is_empty();
    assert!(rt;
        same,
        "{}: fired {:?}, chips {:?}, over {:?}",
        played.name, outcome.fired, outcome.chips, outcome.over
    );
}

const LARGEST: u64 = 1_099_511_627_776;

const PLAYED: &[&Played] = &[
    &Played {
        name: "one chip short",
        edges: TRIANGLE,
        start: &[3, 0, 0],
        limit: 1 << 40,
        fired: &[1, 0, 0],
        chips: &[1, 1, 1],
        over: &[],
    },
    &Played {
        name: "small triangle",
        edges: TRIANGLE,
        start: &[4, 0, 0],
        limit: 1 << 40,
        fired: &[2, 1, 0],
        chips: &[1, 0, 3],
        over: &[],
    },
    &Played {
        name: "fires again",
        edges: TRIANGLE,
        start: &[5, 0, 0],
        limit: 1 << 40,
        fired: &[3, 1, 0],
        chips: &[0, 1, 4],
        over: &[],
    },
    &Played {
        name: "six chips",
        edges: TRIANGLE,
        start: &[6, 0, 0],
        limit: 1 << 40,
        fired: &[3, 1, 0],
        chips: &[1, 1, 4],
        over: &[],
    },
    &Played {
        name: "batch of two",
        edges: &[(0, 1, 3)],
        start: &[7, 0],
        limit: 1 << 40,
        fired: &[2, 0],
        chips: &[1, 6],
        over: &[],
    },
    &Played {
        name: "largest total",
        edges: &[(0, 1, 1)],
        start: &[LARGEST, 0],
        limit: 1 << 40,
        fired: &[LARGEST, 0],
        chips: &[0, LARGEST],
        over: &[],
    },
    &Played {
        name: "a chain whose ends lose chips",
        edges: &[
            (0, 1, 1),
            (0, 4, 1),
            (1, 0, 1),
            (1, 2, 1),
            (2, 1, 1),
            (2, 3, 1),
            (3, 2, 1),
            (3, 4, 1),
        ],
        start: &[1, 2, 1, 1, 0],
        limit: 1 << 40,
        fired: &[1, 2, 2, 1, 0],
        chips: &[1, 1, 0, 1, 2],
        over: &[],
    },
    &Played {
        name: "a grid of two by two that loses chips all round",
        edges: &[
            (0, 1, 1),
            (0, 2, 1),
            (0, 4, 2),
            (1, 0, 1),
            (1, 3, 1),
            (1, 4, 2),
            (2, 0, 1),
            (2, 3, 1),
            (2, 4, 2),
            (3, 1, 1),
            (3, 2, 1),
            (3, 4, 2),
        ],
        start: &[4, 3, 3, 4, 0],
        limit: 1 << 40,
        fired: &[1, 1, 1, 1, 0],
        chips: &[2, 1, 1, 2, 8],
        over: &[],
    },
];

#[test]
fn small_games(rt: HostRuntime) {
    for played in PLAYED {
        plays(&rt, played);
    }
}

const LIMIT_OF_TWO: &Played = &Played {
    name: "limit of two",
    edges: TRIANGLE,
    start: &[5, 0, 0],
    limit: 2,
    fired: &[2, 1, 0],
    chips: &[2, 0, 3],
    over: &[0],
};

#[test]
fn limit_of_two(rt: HostRuntime) {
    plays(&rt, LIMIT_OF_TWO);
}

/// The last vertex of a path of as many vertices as there may be.
pub(crate) const END: u64 = 4_095;

/// A path whose ends lose chips to its sink, which is this vertex, the last one.
fn path(rt: &(impl AllocGlobal + Abort), end: u32) -> Box<Graph> {
    let end = u64::from(end);
    let mut rows = Vec::new(rt.alloc());
    for vertex in 0..end {
        rows.push((vertex, vertex + 1, 1)).expect(rt, "memory");
        rows.push((vertex, vertex.checked_sub(1).unwrap_or(end), 1))
            .expect(rt, "memory");
    }
    graph_of(rt, end + 1, end, &rows)
}

/// `more` chips in the middle of a path up to this sink.
pub(crate) fn heap(rt: &(impl AllocGlobal + Abort), end: u32, more: u64, limit: u64) -> Box<Game> {
    let mut start = vec![in rt.alloc(); 0; end as usize + 1].expect(rt, "memory");
    if let Some(chips) = start.get_mut(end as usize / 2) {
        *chips = more;
    }
    let game = Game::new(Box::into_inner(path(rt, end)), start, limit).expect(rt, "a game");
    Box::new(rt.alloc(), game).expect(rt, "memory")
}

/// 2^20 chips in the middle of a path of 1,024 vertices: rounds alone would take a million and more.
pub(crate) fn long_game(rt: &(impl AllocGlobal + Abort), limit: u64) -> Box<Game> {
    heap(rt, 1_023, 1 << 20, limit)
}

/// The chips in the middle, at the first vertex and on the sink, once nothing may fire: one on each vertex but the
/// middle, and all others on the sink.
pub(crate) fn long_path_ends(rt: &impl Abort, outcome: &Outcome) {
    assert!(rt; outcome.chips.get(511).copied() == Some(0));
    assert!(rt; outcome.chips.get(0).copied() == Some(1));
    assert!(rt; outcome.chips.get(1_023).copied() == Some(1_047_554));
    assert!(rt; outcome.over.is_empty());
}

#[test]
fn plays_a_long_path(rt: HostRuntime) {
    let mut told = Told::nothing();
    let game = long_game(&rt, 1 << 40);
    let outcome = plain_watched(rt.alloc(), &game, &mut told).expect(&rt, "memory");
    assert!(rt; outcome.fired.get(511).copied() == Some(268_304_640));
    assert!(rt; outcome.fired.get(0).copied() == Some(523_777));
    long_path_ends(&rt, &outcome);
    assert!(rt; told.times > 1, "told on the way, and not at the end alone");
    assert!(rt;
        told.firings == all_firings(&outcome.fired),
        "told of the end"
    );
}

/// One chip on each vertex of the path, and one more at this place from the first end on.
pub(crate) fn one_more(rt: &(impl AllocGlobal + Abort), place: u64) -> Box<Game> {
    let mut start = vec![in rt.alloc(); 1; 4_096].expect(rt, "memory");
    if let Some(chips) = start.get_mut(place.saturating_sub(1) as usize) {
        *chips = 2;
    }
    let graph = Box::into_inner(path(rt, END as u32));
    let game = Game::new(graph, start, 1 << 40).expect(rt, "a game");
    Box::new(rt.alloc(), game).expect(rt, "memory")
}

/// Compares how often the vertices of the path fire if one more chip is at this place: as often as their own place is
/// from the nearer end, but no more often than that place is. Whether rounds fire some of them.
fn expect_one_more(rt: &(impl AllocGlobal + Abort), place: u64, by_rounds: bool) {
    let game = one_more(rt, place);
    let mut told = Told::nothing();
    let outcome = plain_watched(rt.alloc(), &game, &mut told).expect(rt, "memory");
    assert!(rt; (told.rounds > 0) == by_rounds);
    let most = place.min((END + 1).saturating_sub(place));
    for vertex in 0..END {
        let expected = (vertex + 1).min(END - vertex).min(most);
        assert!(rt; outcome.fired.get(vertex as usize).copied() == Some(expected));
    }
    assert!(rt; outcome.over.is_empty());
}

/// One chip waits to move, and the play ends by the work list alone.
#[test]
fn one_chip_more_on_a_long_path(rt: HostRuntime) {
    for place in [1, 30, 4_080] {
        expect_one_more(&rt, place, false);
    }
}

/// It sets off enough firings that rounds go on.
#[test]
fn one_chip_more_far_from_the_ends(rt: HostRuntime) {
    expect_one_more(&rt, 1_000, true);
}

/// The side of a grid whose borders lose chips to the sink.
const SIDE: u64 = 61;

/// The cell in the middle of the grid.
const MIDDLE: u64 = SIDE * SIDE / 2;

/// The grid with three chips on each cell, as many as stay there, and `more` more in the middle.
fn full_grid(rt: &(impl AllocGlobal + Abort), more: u64) -> Box<Game> {
    let sink = SIDE * SIDE;
    let mut rows = Vec::new(rt.alloc());
    for cell in 0..sink {
        let (row, column) = (cell / SIDE, cell % SIDE);
        let beside = [
            if row > 0 { cell - SIDE } else { sink },
            if column > 0 { cell - 1 } else { sink },
            if column < SIDE - 1 { cell + 1 } else { sink },
            (cell + SIDE).min(sink),
        ];
        for head in beside {
            rows.push((cell, head, 1)).expect(rt, "memory");
        }
    }
    let mut start = vec![in rt.alloc(); 3; sink as usize + 1].expect(rt, "memory");
    if let Some(chips) = start.get_mut(MIDDLE as usize) {
        *chips = more.wrapping_add(3);
    }
    let graph = graph_of(rt, sink + 1, sink, &rows);
    let game = Game::new(Box::into_inner(graph), start, 1 << 40).expect(rt, "a game");
    Box::new(rt.alloc(), game).expect(rt, "memory")
}

/// One chip more has each cell fire as often as its layer is from the border on, the outermost ones once. If few chips
/// set off many, rounds play them, and no counts are searched.
#[test]
fn few_chips_more_on_a_full_grid(rt: HostRuntime) {
    for more in [1, 50] {
        let mut told = Told::nothing();
        let game = full_grid(&rt, more);
        let outcome = plain_watched(rt.alloc(), &game, &mut told).expect(&rt, "memory");
        assert!(rt; told.rounds > 0 && told.searches == 0);
        assert!(rt; outcome.over.is_empty());
        for cell in 0..SIDE * SIDE {
            let (row, column) = (cell / SIDE, cell % SIDE);
            let layer = row.min(column).min(SIDE - 1 - row).min(SIDE - 1 - column) + 1;
            let fired = outcome.fired.get(cell as usize).copied();
            assert!(rt; more > 1 || fired == Some(layer));
        }
    }
}

/// The first stage of a play.
fn first_stage(rt: &(impl AllocGlobal + Abort), game: &Game) -> Resumed
    ensures { IsResumed result }
{
    let outcome = plain(rt.alloc(), game).expect(rt, "memory");
    Resumed::first(rt.alloc(), outcome).expect(rt, "memory")
}

/// At first each vertex may fire once, and then as often as it can: the counts add up to those of one stage, and are
/// searched as in one.
#[test]
fn a_long_path_in_two_stages(rt: HostRuntime) {
    let first = first_stage(&rt, &long_game(&rt, 1));
    assert!(rt; first.outcome.over.as_slice() == [511].as_slice());
    let path = Box::into_inner(path(&rt, 1_023));
    let mut told = Told::nothing();
    let last = resume_watched(rt.alloc(), path, &first, 1 << 40, &mut told).expect(&rt, "a stage");
    assert!(rt; last.prior.get(511).copied() == Some(1));
    assert!(rt; last.outcome.fired.get(511).copied() == Some(268_304_639));
    long_path_ends(&rt, &last.outcome);
    assert!(rt; told.searches == 1, "{} searches", told.searches);
    assert!(rt; told.rounds < 10_000, "{} rounds", told.rounds);
}

/// How often it was called, of how many plays, of how many rounds in all, how many firings there were after the
/// last of them, and of how many searches.
#[derive(Drop)]
pub(crate) struct Told {
    times: u64,
    plays: u64,
    pub(crate) rounds: u64,
    firings: u64,
    pub(crate) searches: u64,
    /// How many visits at each vertex and edge the search made and the play beside it.
    pub(crate) visits: u64,
    /// How many visits the play made beside the search, and the search.
    pub(crate) beside: u64,
    pub(crate) searched: u64,
    /// The least and the greatest number of chips that were still to move while a search went on.
    pub(crate) least_to_move: u64,
    pub(crate) most_to_move: u64,
}

impl Told {
    pub(crate) fn nothing() -> Told {
        Told {
            times: 0,
            plays: 0,
            rounds: 0,
            firings: 0,
            searches: 0,
            visits: 0,
            beside: 0,
            searched: 0,
            least_to_move: u64::MAX,
            most_to_move: 0,
        }
    }
}

impl Watch for Told {
    fn plays(&mut self, _game: &Game) {
        self.plays = self.plays.saturating_add(1);
    }

    fn searches(&mut self, search: &Search) {
        let chips = search.chips_to_move();
        self.least_to_move = self.least_to_move.min(chips);
        self.most_to_move = self.most_to_move.max(chips);
    }

    fn rounds(&mut self, more: u64, play: &Play<'_>) {
        self.times = self.times.saturating_add(1);
        self.rounds = self.rounds.saturating_add(more);
        self.firings = all_firings(&play.fired);
    }

    fn searched(&mut self, play: &Play<'_>, alone: u64, beside: u64, searched: u64) {
        let graph = play.game.graph();
        let all = graph.vertices() + graph.edges().len() as u64;
        self.searches = self.searches.saturating_add(1);
        let played = alone.saturating_add(beside);
        self.visits = played.saturating_add(searched) / all.max(1);
        self.beside = beside;
        self.searched = searched;
    }
}

/// How often all vertices fired.
pub(crate) fn all_firings(fired: &[u64]) -> u64 {
    let mut all = 0u64;
    for times in fired {
        all = all.saturating_add(*times);
    }
    all
}

/// Whether two outcomes are the same.
pub(crate) fn is_same(outcome: &Outcome, other: &Outcome) -> bool {
    outcome.fired.as_slice() == other.fired.as_slice()
        && outcome.chips.as_slice() == other.chips.as_slice()
        && outcome.over.as_slice() == other.over.as_slice()
        && outcome.sealed.as_slice() == other.sealed.as_slice()
}

/// Plays a game as `plain` does, and compares the numbers of rounds and firings that were reported in all.
fn expect_rounds(rt: &(impl AllocGlobal + Abort), game: &Game, rounds: u64, firings: u64) {
    let mut told = Told::nothing();
    let outcome = plain_watched(rt.alloc(), game, &mut told).expect(rt, "memory");
    let other = plain(rt.alloc(), game).expect(rt, "memory");
    assert!(rt; is_same(&outcome, &other));
    assert!(rt;
        told.rounds == rounds,
        "{} rounds, not {rounds}",
        told.rounds
    );
    assert!(rt;
        told.firings == firings,
        "{} firings, not {firings}",
        told.firings
    );
    assert!(rt; told.least_to_move > 0 && told.most_to_move <= game.total());
}

/// The chips on vertex 0, how many rounds they take, and how many firings.
const ROUNDS: [(u64, u64, u64); 4] = [(0, 0, 0), (3, 1, 1), (4, 1, 3), (5, 2, 4)];

/// In the first round vertex 0 fires as often as it can and then vertex 1; five chips take a second round.
#[test]
fn watched(rt: HostRuntime) {
    for (chips, rounds, firings) in ROUNDS {
        let game = game_of(&rt, TRIANGLE, &[chips, 0, 0], 1 << 40);
        expect_rounds(&rt, &game, rounds, firings);
    }
}

/// Vertex 0 sends all its chips to vertex 1, which sends half of them back. So 2^39 chips on vertex 0 take 39 rounds
/// until one is left, and that one takes a round more. Vertex 0 fires 2^39 + .. + 2 + 1 times, and vertex 1 fires
/// 2^38 + .. + 2 + 1 times. About half way it is judged whether the play goes on by rounds, and it does.
#[test]
fn rounds_before_and_after_a_judgement(rt: HostRuntime) {
    let edges = [(0, 1, 1), (1, 0, 1), (1, 2, 1)];
    let game = game_of(&rt, &edges, &[1 << 39, 0, 0], 1 << 40);
    let firings = (1 << 40) - 1 + (1 << 39) - 1;
    expect_rounds(&rt, &game, 40, firings);
}

/// Vertices 0 and 1 fire by 2^20 chips, and vertex 1 sends one of them to the sink. Vertex 0 has less than twice that, so
/// in each round both fire once and one chip is lost: after round 2^20 - 1 vertex 0 has a chip too few.
///
/// The rounds halve nothing, so counts are searched, but no test is passed by more than the rounds have made: not the
/// burning test, since by the edge from vertex 2, which never fires, the in-degree of vertex 0 is above its degree; and
/// not the other, since vertex 0 would lack two chips or more. So the rounds go on as they were.
#[test]
fn rounds_before_and_after_a_search(rt: HostRuntime) {
    let most = 1 << 20;
    let edges = [
        (0, 1, most),
        (1, 0, most - 1),
        (1, 3, 1),
        (2, 0, 2),
        (2, 3, 1),
    ];
    let game = game_of(&rt, &edges, &[2 * most - 2, 0, 0, 0], 1 << 40);
    expect_rounds(&rt, &game, most - 1, 2 * (most - 1));
}

/// Goes on with a play on the triangle, and compares what the stage fired, the chips at its end and what was fired
/// before.
fn go_on(
    rt: &(impl AllocGlobal + Abort),
    earlier: &Resumed,
    limit: u64,
    fired: &[u64],
    chips: &[u64],
    prior: &[u64],
) -> Resumed
    requires { IsResumed earlier.now }
    ensures { IsResumed result }
{
    let graph = Box::into_inner(triangle(rt));
    let resumed = resume(rt.alloc(), graph, earlier, limit).expect(rt, "a stage");
    assert!(rt; resumed.outcome.fired.as_slice() == fired);
    assert!(rt; resumed.outcome.chips.as_slice() == chips);
    assert!(rt; resumed.prior.as_slice() == prior);
    resumed
}

/// The first stage of five chips on vertex 0 of the triangle, whose vertices fire up to twice.
fn five_chips(rt: &(impl AllocGlobal + Abort)) -> Resumed
    ensures { IsResumed result }
{
    first_stage(rt, &game_of(rt, TRIANGLE, &[5, 0, 0], 2))
}

#[test]
fn three_stages(rt: HostRuntime) {
    let first = five_chips(&rt);
    let second = go_on(&rt, &first, 0, &[0, 0, 0], &[2, 0, 3], &[2, 1, 0]);
    assert!(rt; second.outcome.over.as_slice() == [0].as_slice());
    let third = go_on(&rt, &second, 1 << 40, &[1, 0, 0], &[0, 1, 4], &[2, 1, 0]);
    assert!(rt; third.outcome.over.is_empty());
}

/// The second stage is reported once, and its one round, in which vertex 0 fires.
#[test]
fn a_watched_stage(rt: HostRuntime) {
    let first = five_chips(&rt);
    let mut told = Told::nothing();
    let graph = Box::into_inner(triangle(&rt));
    let last = resume_watched(rt.alloc(), graph, &first, 1 << 40, &mut told);
    assert!(rt; last.is_ok());
    assert!(rt; told.plays == 1 && told.rounds == 1 && told.firings == 1);
}

#[test]
fn another_graph(rt: HostRuntime) {
    let first = five_chips(&rt);
    let graph = Box::into_inner(graph_of(&rt, 2, 1, &[(0, 1, 1)]));
    let answer = resume(rt.alloc(), graph, &first, (1 << 40) + 1);
    assert!(rt; matches!(answer, Err(ResumeFault::Mismatch)));
}
