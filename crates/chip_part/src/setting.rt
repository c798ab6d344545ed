//! The setting of a game.

ghost use Rattle.std.specs.Prelude.{◌≡◌, ◌+◌, ◌<◌, ◌≤◌, IfOk};

use chip_graph::{AnyEdge, Game};
use chip_link::{MAX_RING, Ring};
use std::alloc::{AllocError, Global};
use std::marker::Model;

/// The setting of a game: what is played, the number of cells in the ring of each edge, and whether chips are fed while
/// the vertices fire.
#[derive(Drop)]
pub struct Setting {
    game: Game,
    ring: Ring,
    fed: bool,
    // The number of edges, the root's among them: each operation on a shared word needs it.
    edges: u64,
}

impl Model for Setting {
    ghost use Rattle.std.specs.Prelude.{◌≡◌};
    ghost use Rattle.chip_part.specs.Setting.{Setting, setting_with, IsSetting};
    ghost use Rattle.chip_part.specs.Edges.{all_edges};

    ghost Value = { Setting };

    ghost view = { λ a. setting_with a.game a.ring a.fed };

    ghost invariant = { λ a. let g = setting_with a.game a.ring a.fed in IsSetting g × (a.edges ≡ all_edges g) };
}

impl Setting {
    ghost use Rattle.chip_graph.specs.Limits.{max_vertices, max_edges};
    ghost use Rattle.chip_part.specs.Setting.{setting_with, IsSetting};
    ghost use Rattle.chip_part.specs.Edges.{all_edges, graph_edges, root_edge, head_if, tail_if};

    /// The setting of this game with such rings, fed or not.
    pub fn new(game: Game, ring: Ring, fed: bool) -> Setting
        ensures { result ≡ setting_with game ring fed }
    {
        prove!(ring.cells() <= MAX_RING);
        let edges = game.graph().all_edges();
        Setting {
            game,
            ring,
            fed,
            edges,
        }
    }

    /// The setting of a copy of the game. Fails only without memory.
    pub fn of_copy(alloc: Global, game: &Game, ring: Ring, fed: bool) -> Result<Setting, AllocError>
        ensures { IfOk result (λ setting. setting ≡ setting_with game.now ring fed) }
    {
        Ok(Setting::new(game.copy(alloc)?, ring, fed))
    }

    /// The game that is played.
    pub fn game(&self) -> &Game
        ensures value { result.now ≡ self.now.game }
        ensures setting { IsSetting self.now }
    {
        &self.game
    }

    /// The rings of the edges.
    pub fn ring(&self) -> Ring
        ensures value { result ≡ self.now.ring }
        ensures setting { IsSetting self.now }
    {
        self.ring
    }

    /// Whether chips are fed while the vertices fire.
    pub fn is_fed(&self) -> bool
        ensures { result ≡ self.now.fed }
    {
        self.fed
    }

    /// The number of vertices, 1 to 2^21.
    pub fn vertices(&self) -> u64
        ensures value { result ≡ self.now.game.graph.vertices }
        ensures few { result ≤ max_vertices }
    {
        self.game.graph().vertices()
    }

    /// The number of edges of the graph, up to 2^23.
    pub fn graph_edges(&self) -> u64
        ensures value { result ≡ graph_edges self.now }
        ensures few { result ≤ max_edges }
    {
        self.game.graph().edges().len() as u64
    }

    /// The number of edges, the root's among them.
    pub fn all_edges(&self) -> u64
        ensures value { result ≡ all_edges self.now }
        ensures few { result ≤ max_edges + max_vertices }
    {
        self.edges
    }

    /// The edge from the root to a vertex.
    pub fn root_edge(&self, vertex: u64) -> u64
        requires { vertex < self.now.game.graph.vertices }
        ensures value { result ≡ root_edge self.now vertex }
        ensures inside { result < all_edges self.now }
    {
        self.game.graph().root_edge(vertex)
    }

    /// The head of an edge; `None` from `all_edges()` on.
    pub fn head(&self, edge: u64) -> Option<u64>
        ensures { result ≡ head_if self.now edge }
    {
        match self.game.graph().edge(edge)? {
            AnyEdge::Own(edge) => Some(edge.head),
            AnyEdge::Root { head } => Some(head),
        }
    }

    /// The tail of an edge of the graph; `None` from `graph_edges()` on, if it is an edge out of the root.
    pub fn tail(&self, edge: u64) -> Option<u64>
        ensures { result ≡ tail_if self.now edge }
    {
        match self.game.graph().edge(edge)? {
            AnyEdge::Own(edge) => Some(edge.tail),
            AnyEdge::Root { .. } => None,
        }
    }
}
