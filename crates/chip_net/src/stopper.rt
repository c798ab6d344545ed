ghost use Rattle.std.specs.Prelude.{◌≡◌, ◌≤◌, [], ◌∷◌, Some, MatchResult};
ghost use Rattle.chip_part.specs.Edges.{graph_edges, stopper};
ghost use Rattle.chip_net.specs.Views.{IsAlone, find};
ghost use Rattle.chip_net.specs.Roots.{StopperKnown, new_stopper, Seals};

use crate::layout::edge_word;
use crate::net::Net;
use crate::rule::PartSeat;
use chip_link::EdgeWord;
use chip_part::Setting;
use std::marker::{Brand, Model};
use std::snapshot::Snapshot;
use thiserror::Error;

/// The result of a seal.
#[derive(Clone, Copy, PartialEq, Eq)]
pub struct SealedAt {
    /// The number of messages ever sent on the edge, up to 2^40: none follows.
    pub count: u64,
    /// Whether this was the first seal of the edge.
    pub first: bool,
}

/// No edge of the graph has this number.
#[derive(Clone, Copy, Debug, PartialEq, Eq, Error)]
#[error("no edge of the graph has this number")]
pub struct NoEdge;

impl NoEdge {
    /// The fault's number.
    pub fn number(&self) -> u64
        ensures { result ≡ 43 }
    {
        43
    }
}

/// The stopper of a net, which seals edges. Contracts see its steps.
#[derive(Drop)]
pub struct Stopper {
    seat: PartSeat,
    setting: Snapshot<Setting>,
}

impl Model for Stopper {
    ghost use Rattle.chip_part.specs.Edges.{stopper};
    ghost use Rattle.chip_net.specs.Views.{IsAlone, did_in};
    ghost use Rattle.chip_net.specs.Roots.{StopperKnown};
    ghost use Rattle.std.specs.Prelude.{◌≡◌, []};

    ghost Value = { StopperKnown };

    ghost view = { λ a. record {
      net = record { table = a.seat.table_id; setting = a.setting.value };
      did = did_in (stopper a.setting.value) a.seat.me.0;
    } };

    ghost invariant = { λ a. IsAlone (stopper a.setting.value) a.seat.me.0 × (a.seat.me.1 ≡ []) };
}

impl Stopper {
    pub(crate) fn new(setting: Snapshot<Setting>, seat: PartSeat) -> Stopper
        requires part { find (stopper setting.value) seat.me.0.parts ≡ Some [] }
        requires alone { IsAlone (stopper setting.value) seat.me.0 × (seat.me.1 ≡ []) }
        ensures { result ≡ new_stopper (record { table = seat.table_id; setting = setting.value }) }
    {
        Stopper { seat, setting }
    }

    /// Seals an edge of the graph: every later claim of it is refused. Fails if the graph has no such edge.
    #[cold]
    pub fn seal(&mut self, net: &Net, edge: u64) -> Result<SealedAt, NoEdge>
        requires net { self.old.net ≡ net.now }
        ensures same { self.new.net ≡ self.old.net }
        ensures cases { MatchResult result (Seals self.old self.new edge)
            (λ _. (graph_edges self.old.net.setting ≤ edge) × (self.new ≡ self.old)) }
    {
        let setting = net.setting();
        if edge >= setting.graph_edges() {
            return Err(NoEdge);
        }
        let word = edge_word(setting, edge);
        let before = net
            .words()
            .fetch_or::<Brand>(&mut self.seat, word, EdgeWord::SEAL);
        let before = EdgeWord::from_word(before);
        Ok(SealedAt {
            count: before.claims,
            first: !before.sealed,
        })
    }

    /// The stopper's seat, which has its part alone.
    pub(crate) fn into_seat(self) -> PartSeat
        ensures table { result.table_id ≡ self.net.table }
        ensures part { result.me.0.parts ≡ record { part = stopper self.net.setting; did = self.did } ∷ [] }
        ensures slots { result.me.1 ≡ [] }
    {
        self.seat
    }
}
