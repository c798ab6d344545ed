//! The numbers of the player that were tuned, on games of `bench/`. A visit is to a vertex or an edge.

/// How many visits to each vertex and edge a play makes before it is judged whether it ends soon. Doubled each time.
pub(crate) const FIRST_VISITS: u64 = 16;

/// How many visits to each vertex and edge are too few to search counts: grid-six and random-graph with limits.
pub(crate) const FEW_VISITS: u64 = 480;

/// How many visits to each vertex and edge a search makes at most before the play has turns: the identity of 1,000 by
/// 1,000.
pub(crate) const MOST_AHEAD: u64 = 16384;

/// A graph is dense if it has more edges for each vertex: there a search makes no more visits than the play (a clique of
/// 100 with a tail of 200).
pub(crate) const EDGES_OF_DENSE: u64 = 16;

/// How many visits to each vertex and edge the play makes in each of its turns beside a search.
pub(crate) const TURN: u64 = 4;

/// Which part of its visits the play makes at least in a turn, so that turns grow with the play: ring-one-way.
pub(crate) const PART_OF_TURN: u64 = 8;

/// How many visits one in a work list counts for on a graph that no cache holds, since it lies anywhere: peak-511.
pub(crate) const VISITS_OF_LISTED: u64 = 4;

/// How many vertices and edges a processor's cache holds.
pub(crate) const PLACES_IN_CACHE: u64 = 1 << 15;

/// How many visits to each vertex and edge are made by a work list, if few chips wait.
pub(crate) const VISITS_OF_LIST: u64 = 256;

/// How many visits lie about between two reports of a play's progress: some milliseconds.
pub(crate) const STRETCH: u64 = 1 << 20;

/// Few chips wait if there is at most one for this number of vertices.
pub(crate) const VERTICES_PER_CHIP: u64 = 64;

/// Chips stay in few places if there is at most one for this number of vertices: a work list of `VISITS_OF_LIST` plays as
/// large a heap on a grid to its end (2^16 chips in the middle of 1,000 by 1,000).
pub(crate) const VERTICES_PER_HELD: u64 = 14;

/// How many visits to each vertex and edge are made by a work list before its turn may end: each beginning passes over all
/// vertices.
pub(crate) const LIST_STRETCH: u64 = 16;

/// How many visits to each vertex and edge are made by rounds, if few chips set off many: a search is slower than most
/// such plays (full-1000, and some hundreds of chips on a full grid of 300 by 300).
pub(crate) const VISITS_OF_FEW: u64 = 1024;

/// How many turns at each vertex a play by a work list makes before it gives up.
pub(crate) const TURNS: u64 = 64;

/// For how many vertices a work list has one place: rounds are twice as quick if many vertices fire (full-1000).
pub(crate) const VERTICES_PER_PLACE: usize = 8;
