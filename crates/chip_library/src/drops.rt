//! Chips dropped on a game, one drop after another.

ghost use Rattle.std.specs.Prelude.{◌≡◌, ◌↔◌, ◌⊎◌, ◌+◌, ◌++◌, ◌∷◌, [], List, length, sum, slice_index, IsTrue, IfOk, OnOk, MatchResult};
ghost use Rattle.chip_graph.specs.Limits.{max_total};
ghost use Rattle.chip_graph.specs.Multigraph.{IsGraph};
ghost use Rattle.chip_sequence.specs.Counted.{game_from};
ghost use Rattle.chip_fire.specs.Pile.{IsPile};
ghost use Rattle.chip_sequence.specs.Firing.{IsStable};
ghost use Rattle.chip_fire.specs.declared.pile.Pile.{Pile};
ghost use Rattle.chip_library.specs.declared.fault.CallFault.TheVariants.{NoMemory};
ghost use Rattle.chip_library.specs.Drops.{Told, AreOn, AreTold, Avalanches, IsFaultAfter, Leaves};
ghost use Rattle.chip_library.specs.Drops.{AreRows, AreDrops, BeginsPile, IsNoPile};

use crate::edges::EdgeLists;
use crate::fault::CallFault;
use crate::game::game_of;
use chip_fire::{Avalanche, Pile, plain};
use chip_graph::Graph;
use chip_graph::game::MAX_TOTAL;
use std::alloc::{AllocError, Global};

/// Plays a game to its end within the firing limit (at most 2^40), then drops chips on one vertex after another and
/// plays to the end after each drop.
///
/// `chips` has one number per vertex. The other slices have one per drop: its vertex, its number of chips, and the
/// size, the area and the dissipated chips of its avalanche (`chip_fire::Avalanche`). The game and all drops together
/// have at most 2^40 chips.
///
/// On success `chips` holds the chips at the end, and the last three slices describe the avalanches. On a fault all
/// four are unchanged. Returns the first fault: of the lengths, the graph, the game, or the first drop that cannot be
/// completed.
pub fn avalanches(
    alloc: Global,
    edges: EdgeLists<'_>,
    limit: u64,
    at: &[u64],
    amounts: &[u64],
    chips: &mut [u64],
    sizes: &mut [u64],
    extents: &mut [u64],
    losts: &mut [u64],
) -> Result<(), CallFault>
    ensures { Avalanches edges.entry limit at.now amounts.now
        (record { chips = chips.old; sizes = sizes.old; extents = extents.old; losts = losts.old })
        (record { chips = chips.new; sizes = sizes.new; extents = extents.new; losts = losts.new }) result }
{
    if !are_drops(edges, at, amounts, sizes, extents, losts) {
        return Err(CallFault::Lengths);
    }
    let graph = edges.graph(alloc)?;
    let (pile, room) = pile_of(alloc, graph, limit, chips)?;
    let (pile, told) = drop_each(alloc, pile, room, edges.vertices, at, amounts)?;
    let end = pile.outcome(alloc)?;
    chips.copy_from_slice(&end.chips);
    sizes.copy_from_slice(&told.sizes);
    extents.copy_from_slice(&told.extents);
    losts.copy_from_slice(&told.losts);
    Ok(())
}

/// Whether the slices have matching lengths.
fn are_drops(
    edges: EdgeLists<'_>,
    at: &[u64],
    amounts: &[u64],
    sizes: &[u64],
    extents: &[u64],
    losts: &[u64],
) -> bool
    ensures { IsTrue result ↔ AreDrops edges.entry at.now amounts.now sizes.now extents.now losts.now }
{
    edges.has_whole_rows() && are_rows(at, amounts, sizes, extents, losts)
}

/// Whether the columns have one number per drop.
pub(crate) fn are_rows(
    at: &[u64],
    amounts: &[u64],
    sizes: &[u64],
    extents: &[u64],
    losts: &[u64],
) -> bool
    ensures { IsTrue result ↔ AreRows at.now amounts.now sizes.now extents.now losts.now }
{
    amounts.len() == at.len()
        && sizes.len() == at.len()
        && extents.len() == at.len()
        && losts.len() == at.len()
}

/// The pile at the end of a game, and how many more chips it may get.
fn pile_of(alloc: Global, graph: Graph, limit: u64, chips: &[u64]) -> Result<(Pile, u64), CallFault>
    requires { IsGraph graph }
    ensures { MatchResult result (λ r. BeginsPile (game_from graph chips.now limit) r.0 r.1)
        (IsNoPile (game_from graph chips.now limit)) }
{
    let game = game_of(alloc, graph, limit, chips, 0)?;
    let room = MAX_TOTAL - game.total();
    let outcome = plain(alloc, &game)?;
    if !outcome.over.is_empty() {
        return Err(CallFault::Stopped(0));
    }
    Ok((Pile::new(alloc, game, outcome)?, room))
}

/// The avalanches of drops, in order.
#[derive(Drop)]
struct Columns {
    sizes: Vec<u64>,
    extents: Vec<u64>,
    losts: Vec<u64>,
}

impl Columns {
    /// Empty columns, with room for `drops` drops.
    fn with_room(alloc: Global, drops: usize) -> Result<Columns, AllocError>
        ensures { IfOk result (λ told. AreTold [] told.sizes.items told.extents.items told.losts.items) }
    {
        Ok(Columns {
            sizes: Vec::with_capacity(alloc, drops)?,
            extents: Vec::with_capacity(alloc, drops)?,
            losts: Vec::with_capacity(alloc, drops)?,
        })
    }

    /// Appends an avalanche.
    fn push(&mut self, avalanche: Avalanche) -> Result<(), AllocError>
        ensures sizes { OnOk result (self.new.sizes.items ≡ self.old.sizes.items ++ avalanche.size ∷ []) }
        ensures extents { OnOk result (self.new.extents.items ≡ self.old.extents.items ++ avalanche.extent ∷ []) }
        ensures losts { OnOk result (self.new.losts.items ≡ self.old.losts.items ++ avalanche.lost ∷ []) }
    {
        self.sizes.push(avalanche.size)?;
        self.extents.push(avalanche.extent)?;
        self.losts.push(avalanche.lost)?;
        Ok(())
    }
}

/// Drops chips, in order, on a pile of `vertices` vertices that may get `room` more chips. Returns the pile at the end
/// and the avalanches.
fn drop_each(
    alloc: Global,
    mut pile: Pile,
    mut room: u64,
    vertices: u64,
    at: &[u64],
    amounts: &[u64],
) -> Result<(Pile, Columns), CallFault>
    requires pile { IsPile pile }
    requires stable { IsStable pile.game.graph (slice_index pile.chips.items) }
    requires room { room + sum pile.game.start ≡ max_total }
    requires vertices { vertices ≡ pile.game.graph.vertices }
    requires amounts_each { length amounts.now ≡ length at.now }
    ensures { MatchResult result
        (λ r. (told : List Told) × Leaves pile told r.0 × AreOn told at.now amounts.now
        × AreTold told r.1.sizes.items r.1.extents.items r.1.losts.items)
        (λ fault. (fault ≡ NoMemory)
        ⊎ ((told : List Told) × (p : Pile) × Leaves pile told p × IsFaultAfter pile.game at.now amounts.now told fault)) }
{
    let mut told = Columns::with_room(alloc, at.len())?;
    for drop in 0..at.len() {
        let (vertex, count) = (at[drop], amounts[drop]);
        if vertex >= vertices {
            return Err(CallFault::Vertex(drop as u64));
        }
        if count > room {
            return Err(CallFault::Total(drop as u64));
        }
        room -= count;
        let (next, avalanche) = pile.drop_chips(alloc, vertex, count);
        pile = next;
        let Some(avalanche) = avalanche else {
            return Err(CallFault::Stopped(drop as u64));
        };
        told.push(avalanche)?;
    }
    Ok((pile, told))
}
