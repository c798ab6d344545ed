//! The options of a play.

ghost use Rattle.std.specs.Prelude.{◌≡◌};
ghost use Rattle.chip_graph.specs.Limits.{standard};

use chip_graph::Limits;

/// The limits of a game, and how often a vertex may fire.
#[derive(Clone, Copy)]
pub struct PlayOptions {
    pub limits: Limits,
    /// The most firings of a vertex, 0 to 2^40.
    pub limit: u64,
}

impl PlayOptions {
    /// A game within the standard limits, with this limit of firings.
    pub fn standard(limit: u64) -> PlayOptions
        ensures { result ≡ record { limits = standard; limit = limit } }
    {
        PlayOptions {
            limits: Limits::standard(),
            limit,
        }
    }
}
