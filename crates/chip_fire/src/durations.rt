//! Durations of avalanches: a play in rounds, in each of which each legal vertex fires once.

ghost use Rattle.std.specs.Prelude.{◌≡◌, ℕ, ◌+◌, ◌*◌, ◌<◌, ◌≤◌, ◌∷◌, length, take, drop, slice_index, IfSome, MatchOption};
ghost use Rattle.chip_sequence.specs.Firing.{IsLegal, IsStable};
ghost use Rattle.chip_fire.specs.Rounds.{IsBegun, IsInRange, StaysOnTheWay};
ghost use Rattle.chip_fire.specs.Pile.{IsRoom, IsWorkedOff};
ghost use Rattle.chip_fire.specs.WorkList.{AreTheLegal};
ghost use Rattle.chip_fire.specs.Timed.{IsHeld, AreFound, FiresOnce, FiresAll, EndsInRounds};

use crate::avalanche::Room;
use crate::work_list::is_legal;
use chip_graph::{Game, Graph};

/// Plays in rounds from these chips and counts, of which no vertex but this one is legal, until none is: how many at the
/// front of the support are all vertices that fired, and how many rounds there were. There is no such number if a legal
/// vertex has fired as often as the limit allows.
///
/// A firing costs what the edges of its vertex cost. A vertex with many chips fires one time after another here.
pub(crate) fn rounds_from(
    game: &Game,
    vertex: u64,
    chips: &mut [u64],
    fired: &mut [u64],
    room: &mut Room,
) -> (Option<usize>, u64)
    requires begun { IsBegun game.now chips.old fired.old }
    requires is_vertex { vertex < game.now.graph.vertices }
    requires legal { (v : ℕ) → IsLegal game.now.graph (slice_index chips.old) v → v ≡ vertex }
    requires room { IsRoom game.now.graph.vertices fired.old room.old }
    ensures begun { IsBegun game.now chips.new fired.new }
    ensures room { IsRoom game.now.graph.vertices fired.old room.new }
    ensures worked { IsWorkedOff game.now.graph chips.new fired.new room.new result.0 }
    ensures rounds { EndsInRounds game.now.graph game.now.limit (slice_index chips.old) chips.new fired.new
        result.0 result.1 }
{
    let Room {
        before,
        support,
        list,
        ..
    } = room;
    list[0] = vertex;
    let listed = usize::from(is_legal(game.graph(), chips, vertex));
    fire_in_rounds(game, listed, before, support, list, chips, fired)
}

/// Makes rounds from chips whose legal vertices are the first `listed` of a queue, until none is legal: how many vertices
/// fired, which stand in front of the support then, and how many rounds there were.
fn fire_in_rounds(
    game: &Game,
    mut listed: usize,
    before: &[u64],
    support: &mut [u64],
    queue: &mut [u64],
    chips: &mut [u64],
    fired: &mut [u64],
) -> (Option<usize>, u64)
    requires begun { IsBegun game.now chips.old fired.old }
    requires before { before.now ≡ fired.old }
    requires support { length support.old ≡ game.now.graph.vertices }
    requires room { 2 * game.now.graph.vertices ≤ length queue.old }
    requires listed { listed ≤ length queue.old }
    requires legal { AreTheLegal game.now.graph chips.old (take listed queue.old) }
    ensures begun { IsBegun game.now chips.new fired.new }
    ensures found { IfSome result.0 (λ n. AreFound game.now.graph.vertices before.now fired.new support.new n) }
    ensures rounds { EndsInRounds game.now.graph game.now.limit (slice_index chips.old) chips.new fired.new
        result.0 result.1 }
    ensures stable { IfSome result.0 (λ _. IsStable game.now.graph (slice_index chips.new)) }
{
    let (graph, limit) = (game.graph(), game.limit());
    let mut found = 0usize;
    let mut rounds = 0u64;
    'rounds: while listed > 0 {
        let made = round(
            graph, limit, listed, found, before, support, queue, chips, fired,
        );
        let Some((next, more)) = made else {
            return (None, rounds);
        };
        listed = next;
        found = more;
        rounds += 1;
    }
    (Some(found), rounds)
}

/// Lets the first `listed` vertices of a queue fire once, which are all that are legal: how many are legal then, which are
/// moved to the front of the queue, and how many vertices the support has, of which there are `found` before. `None` if
/// one of them has fired as often as the limit allows.
fn round(
    graph: &Graph,
    limit: u64,
    listed: usize,
    mut found: usize,
    before: &[u64],
    support: &mut [u64],
    queue: &mut [u64],
    chips: &mut [u64],
    fired: &mut [u64],
) -> Option<(usize, usize)>
    requires in_range { IsInRange graph.now limit chips.old fired.old }
    requires before { length before.now ≡ graph.now.vertices }
    requires support { length support.old ≡ graph.now.vertices }
    requires found { AreFound graph.now.vertices before.now fired.old support.old found }
    requires room { 2 * graph.now.vertices ≤ length queue.old }
    requires listed { listed ≤ length queue.old }
    requires legal { AreTheLegal graph.now chips.old (take listed queue.old) }
    ensures in_range { IsInRange graph.now limit chips.new fired.new }
    ensures stays { StaysOnTheWay graph.now limit chips.old fired.old chips.new fired.new }
    ensures done { MatchOption result (IsHeld graph.now limit chips.new fired.new)
        (λ r. FiresAll graph.now limit chips.old fired.old chips.new fired.new listed
        × AreFound graph.now.vertices before.now fired.new support.new r.1
        × (r.0 ≤ length queue.new) × AreTheLegal graph.now chips.new (take r.0 queue.new)) }
{
    let mut waiting = listed;
    for place in 0..listed {
        let vertex = queue[place];
        if fired[vertex as usize] == limit {
            return None;
        }
        if fired[vertex as usize] == before[vertex as usize] {
            support[found] = vertex;
            found += 1;
        }
        waiting = fire_once(
            graph,
            limit,
            vertex,
            waiting - 1,
            &mut queue[place + 1..],
            chips,
            fired,
        );
    }
    move_to_front(listed, waiting, queue);
    Some((waiting, found))
}

/// Moves the `listed` numbers from `first` on to the front of a queue.
fn move_to_front(first: usize, listed: usize, queue: &mut [u64])
    requires { first + listed ≤ length queue.old }
    ensures { take listed queue.new ≡ take listed (drop first queue.old) }
{
    queue.copy_within(first..first + listed, 0);
}

/// Lets a legal vertex fire once. The first `listed` of a list are the other legal vertices; how many are all legal ones
/// then, those that were not listed after those that were.
fn fire_once(
    graph: &Graph,
    limit: u64,
    vertex: u64,
    mut listed: usize,
    list: &mut [u64],
    chips: &mut [u64],
    fired: &mut [u64],
) -> usize
    requires in_range { IsInRange graph.now limit chips.old fired.old }
    requires legal { IsLegal graph.now (slice_index chips.old) vertex }
    requires below { slice_index fired.old vertex < limit }
    requires room { graph.now.vertices ≤ length list.old }
    requires fits { listed ≤ length list.old }
    requires listed { AreTheLegal graph.now chips.old (vertex ∷ take listed list.old) }
    ensures fired { FiresOnce graph.now limit vertex chips.old fired.old chips.new fired.new }
    ensures fits { result ≤ length list.new }
    ensures kept { (listed ≤ result) × (take listed list.new ≡ take listed list.old) }
    ensures listed { AreTheLegal graph.now chips.new (take result list.new) }
{
    let degree = graph.out_degree(vertex);
    let left = chips[vertex as usize] - degree;
    fired[vertex as usize] += 1;
    chips[vertex as usize] = left;
    if degree <= left {
        list[listed] = vertex;
        listed += 1;
    }
    let links = graph.links(vertex);
    for link in links {
        let head = link.head as usize;
        let enough = graph.out_degree(head as u64);
        let had = chips[head];
        let has = had + u64::from(link.mult);
        chips[head] = has;
        if had < enough && enough <= has {
            list[listed] = head as u64;
            listed += 1;
        }
    }
    listed
}
