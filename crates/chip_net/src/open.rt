//! How a net is opened.

ghost use Rattle.std.specs.Prelude.{◌≡◌, ℕ, ◌<◌, ◌≤◌, ◌+◌, [], ◌++◌, length, IfOk, OnOk, Some, None, All, slice_get};
ghost use Rattle.std.specs.Prelude.{if◌then◌else◌, true};
ghost use Rattle.chip_link.specs.Rings.{IsRing};
ghost use Rattle.chip_part.specs.Setting.{setting_of, setting_with};
ghost use Rattle.chip_part.specs.Edges.{graph_edges, all_edges, root, stopper};
ghost use Rattle.chip_net.specs.Opening.{AreOpening};
ghost use Rattle.chip_net.specs.Opened.{IsOpened};
ghost use Rattle.chip_net.specs.Views.{find, opening_view};
ghost use Rattle.chip_net.specs.Tokens.{newcomer};
ghost use Rattle.chip_net.specs.Roots.{new_root, new_stopper};

use crate::actor::{Actor, Owned};
use crate::layout::{cell_word, edge_word, word_count};
use crate::net::Net;
use crate::root::Root;
use crate::rule::{OnePart, PartSeat};
use crate::stopper::Stopper;
use crate::trace::Trace;
use chip_actor::ActorState;
use chip_graph::Game;
use chip_link::Ring;
use chip_part::Setting;
use std::alloc::{AllocError, Global};
use std::marker::Brand;
use std::snapshot::Snapshot;

/// Writes the message of one root edge, if its vertex starts with chips.
fn open_edge(setting: &Setting, words: &mut Vec<u64>, vertex: u64)
    requires vertex { vertex < setting.now.game.graph.vertices }
    requires words { AreOpening setting.now (graph_edges setting.now + vertex) words.old.items }
    ensures { AreOpening setting.now (graph_edges setting.now + vertex + 1) words.new.items }
{
    let chips = setting.game().start()[vertex as usize];
    if chips > 0 {
        let edge = setting.root_edge(vertex);
        let word = edge_word(setting, edge);
        let cell = cell_word(setting, edge, 0);
        words[word] = 1;
        words[cell] = chips;
    }
}

/// The words of a net that opens: the messages of the start are on the root edges.
pub(crate) fn opening_words(alloc: Global, setting: &Setting) -> Result<Vec<u64>, AllocError>
    ensures { IfOk result (λ words. AreOpening setting.now (all_edges setting.now) words.items) }
{
    let mut words = vec![in alloc; 0; word_count(setting)]?;
    for vertex in 0..setting.vertices() {
        open_edge(setting, &mut words, vertex);
    }
    Ok(words)
}

/// The data of one vertex's actor. Its part leaves the seat.
fn one_owned<J: OnePart>(
    alloc: Global,
    net: &Net,
    seat: &mut PartSeat,
    trace_rows: u64,
    vertex: u64,
) -> Result<Owned, AllocError>
    requires table { seat.old.table_id ≡ net.now.table }
    requires vertex { (J.part ≡ vertex) × (vertex < net.now.setting.game.graph.vertices) }
    requires part { find vertex seat.old.me.0.parts ≡ Some [] }
    ensures table { seat.new.table_id ≡ seat.old.table_id }
    ensures others { (p : ℕ) → vertex < p → find p seat.new.me.0.parts ≡ find p seat.old.me.0.parts }
    ensures actor { IfOk result (λ a. a ≡ newcomer net.now trace_rows vertex) }
{
    let own = net.take_out::<J>(seat);
    let setting = net.setting();
    let trace = Trace::new(alloc, trace_rows as usize)?;
    let state = ActorState::new(alloc, setting.game(), vertex, setting.ring().cells())?;
    Ok(Owned::new(state, setting, own, trace))
}

/// Makes an actor of each of these. Their boxes are taken one after the other, so that consecutive actors are close in
/// memory: a worker that gives them turns in order waits less for memory.
fn box_all(alloc: Global, run: Vec<Owned>, actors: &mut Vec<Actor>) -> Result<(), AllocError>
    ensures { OnOk result (actors.new.items ≡ actors.old.items ++ run.items) }
{
    for owned in run {
        actors.push(Actor::new(alloc, owned)?)?;
    }
    Ok(())
}

/// The actors of all vertices, ascending. They are boxed in runs of 256, so that few of them are held twice.
fn all_actors(
    alloc: Global,
    net: &Net,
    seat: &mut PartSeat,
    trace_rows: u64,
) -> Result<Vec<Actor>, AllocError>
    requires table { seat.old.table_id ≡ net.now.table }
    requires parts { (p : ℕ) → p < net.now.setting.game.graph.vertices + 2 → find p seat.old.me.0.parts ≡ Some [] }
    ensures table { seat.new.table_id ≡ seat.old.table_id }
    ensures rest { (p : ℕ) → net.now.setting.game.graph.vertices ≤ p → p < net.now.setting.game.graph.vertices + 2
        → find p seat.new.me.0.parts ≡ Some [] }
    ensures count { IfOk result (λ v. length v.items ≡ net.now.setting.game.graph.vertices) }
    ensures actors { IfOk result (λ v. (p : ℕ) → p < net.now.setting.game.graph.vertices
        → slice_get v.items p ≡ Some (newcomer net.now trace_rows p)) }
{
    let vertices = net.setting().vertices();
    let mut actors = Vec::with_capacity(alloc, vertices as usize)?;
    let mut run = Vec::with_capacity(alloc, 256)?;
    for vertex in 0..vertices {
        run.push(one_owned::<Brand>(alloc, net, seat, trace_rows, vertex)?)?;
        if run.len() == 256 {
            box_all(alloc, run, &mut actors)?;
            run = Vec::with_capacity(alloc, 256)?;
        }
    }
    box_all(alloc, run, &mut actors)?;
    Ok(actors)
}

/// The stopper of a stoppable net: its part leaves the seat.
fn stopper_of<J: OnePart>(net: &Net, seat: &mut PartSeat, stoppable: bool) -> Option<Stopper>
    requires part { J.part ≡ stopper net.now.setting }
    requires table { seat.old.table_id ≡ net.now.table }
    requires root { find (root net.now.setting) seat.old.me.0.parts ≡ Some [] }
    requires stopper { find (stopper net.now.setting) seat.old.me.0.parts ≡ Some [] }
    ensures table { seat.new.table_id ≡ seat.old.table_id }
    ensures root { find (root net.now.setting) seat.new.me.0.parts ≡ Some [] }
    ensures left { find (stopper net.now.setting) seat.new.me.0.parts ≡ (if stoppable then None else Some []) }
    ensures stopper { result ≡ (if stoppable then Some (new_stopper net.now) else None) }
{
    if !stoppable {
        return None;
    }
    let own = net.take_out::<J>(seat);
    Some(Stopper::new(Snapshot::of(net.setting()), own))
}

/// The tokens of a net that opens: the root, the actors and the stopper.
fn tokens(
    alloc: Global,
    net: &Net,
    mut seat: PartSeat,
    trace_rows: u64,
    stoppable: bool,
) -> Result<(Root, Vec<Actor>, Option<Stopper>), AllocError>
    requires { (seat.table_id ≡ net.now.table) × (seat.me.0 ≡ opening_view net.now.setting) }
    ensures root { IfOk result (λ r. r.0 ≡ new_root net.now (if stoppable then None else Some [])) }
    ensures count { IfOk result (λ r. length r.1.items ≡ net.now.setting.game.graph.vertices) }
    ensures actors { IfOk result (λ r. (v : ℕ) → v < net.now.setting.game.graph.vertices
        → slice_get r.1.items v ≡ Some (newcomer net.now trace_rows v)) }
    ensures ours { IfOk result (λ r. All (λ a. a.net ≡ net.now) r.1.items) }
    ensures stopper { IfOk result (λ r. r.2 ≡ (if stoppable then Some (new_stopper net.now) else None)) }
{
    let actors = all_actors(alloc, net, &mut seat, trace_rows)?;
    let stopper = stopper_of::<Brand>(net, &mut seat, stoppable);
    let root = Root::new(alloc, net.setting(), seat)?;
    Ok((root, actors, stopper))
}

/// A net that has just opened, and its tokens.
#[derive(Drop)]
pub struct Opened {
    /// What all threads share.
    pub net: Net,
    pub root: Root,
    /// The actor of each vertex, ascending.
    pub actors: Vec<Actor>,
    /// The stopper, if the net is stoppable.
    pub stopper: Option<Stopper>,
}

impl Net {
    /// Opens a net for this setting. Each actor has room for `trace_rows` trace rows; there is a stopper if
    /// `stoppable`. Takes all memory of the net's life; fails only without memory.
    pub fn of(
        alloc: Global,
        setting: Setting,
        trace_rows: u64,
        stoppable: bool,
    ) -> Result<Opened, AllocError>
        ensures { IfOk result (IsOpened setting trace_rows stoppable) }
    {
        let (net, seat) = Net::lay_out(alloc, setting)?;
        let (root, actors, stopper) = tokens(alloc, &net, seat, trace_rows, stoppable)?;
        Ok(Opened {
            net,
            root,
            actors,
            stopper,
        })
    }

    /// Opens a net for a game, with rings of `ring` cells, 1 to 64. The end of feeding is noted from the start.
    pub fn open(
        alloc: Global,
        game: &Game,
        ring: u64,
        trace_rows: u64,
        stoppable: bool,
    ) -> Result<(Net, Root, Vec<Actor>, Option<Stopper>), AllocError>
        requires ring { IsRing ring }
        ensures { IfOk result (λ r. IsOpened (setting_of game.now ring) trace_rows stoppable
            (record { net = r.0; root = r.1; actors = r.2; stopper = r.3 })) }
    {
        let setting = Setting::of_copy(alloc, game, Ring::of(ring), false)?;
        let opened = Net::of(alloc, setting, trace_rows, stoppable)?;
        Ok((opened.net, opened.root, opened.actors, opened.stopper))
    }

    /// Opens a net whose root may feed more chips; it can't close before the root notes the end of feeding.
    pub fn open_fed(
        alloc: Global,
        game: &Game,
        ring: u64,
        trace_rows: u64,
        stoppable: bool,
    ) -> Result<(Net, Root, Vec<Actor>, Option<Stopper>), AllocError>
        requires ring { IsRing ring }
        ensures { IfOk result (λ r. IsOpened (setting_with game.now ring true) trace_rows stoppable
            (record { net = r.0; root = r.1; actors = r.2; stopper = r.3 })) }
    {
        let setting = Setting::of_copy(alloc, game, Ring::of(ring), true)?;
        let opened = Net::of(alloc, setting, trace_rows, stoppable)?;
        Ok((opened.net, opened.root, opened.actors, opened.stopper))
    }
}
