ghost use Rattle.std.specs.Prelude.{◌≡◌, ◌≢◌, ℕ, ◌≤◌, [], nat_lt, length, take, Some, IfOk};
ghost use Rattle.chip_actor.specs.Actor.{StandsFor};
ghost use Rattle.chip_part.specs.Part.{opening_part};
ghost use Rattle.chip_net.specs.Traces.{trace_rows_of};
ghost use Rattle.chip_net.specs.Tokens.{ActorKnown, MakesTurn, MakesTurnBy, IsSeated, IsActorState, known, newcomer, seatless};
ghost use Rattle.chip_net.specs.Tokens.{IsOfNet, at_net};
ghost use Rattle.chip_net.specs.Views.{find};
ghost use Rattle.chip_net.specs.Meeting.{AreInPlace, HaveMet};

use crate::net::Net;
use crate::net_words::{NetWords, Turning};
use crate::rule::{OnePart, PartSeat};
use crate::trace::Trace;
use chip_actor::ActorState;
use chip_link::TraceRow;
use chip_part::Setting;
use std::alloc::{AllocError, Global};
use std::marker::{Brand, Model, PhantomData};
use std::mem::replace;
use std::snapshot::Snapshot;

/// The result of a turn.
#[derive(Clone, Copy, PartialEq, Eq)]
pub enum Turn {
    /// The number of its steps, 1 or more, that took, fired, sent, put, halted, acknowledged, or settled something new.
    Worked(u64),
    /// No step did, and the vertex still has something to do.
    Waiting,
    /// No step did, and the vertex has nothing to do until a message comes: it is neutral or waits for
    /// acknowledgements.
    Idle,
}

/// The state of a vertex, its seat at the words, and the trace of its steps.
#[derive(Drop)]
pub(crate) struct Owned {
    state: ActorState,
    setting: Snapshot<Setting>,
    // Without its part while the root holds all parts.
    seat: PartSeat,
    // What the seat knew when its part was taken.
    knew: Snapshot<PartSeat>,
    trace: Trace,
}

impl Model for Owned {
    ghost use Rattle.chip_net.specs.Tokens.{ActorKnown, known, table_of, me_of, IsActorState};

    ghost Value = { ActorKnown };

    ghost view = { λ a. known (table_of a.seat.me.0.parts a.seat.table_id) a.setting.value a.state.vertex a.trace.room
        (me_of a.seat.me.0.parts a.seat.me a.knew.value.me).0 };

    ghost invariant = { λ a. IsActorState a.setting.value a.state (me_of a.seat.me.0.parts a.seat.me a.knew.value.me) a.trace };
}

impl Owned {
    /// The state of a vertex that has done nothing.
    pub(crate) fn new(state: ActorState, setting: &Setting, seat: PartSeat, trace: Trace) -> Owned
        requires seated { IsSeated setting.now state.vertex seat.me trace }
        requires state { StandsFor setting.now (opening_part setting.now) state }
        requires none { find state.vertex seat.me.0.parts ≡ Some [] }
        ensures { result ≡ newcomer (record { table = seat.table_id; setting = setting.now }) trace.room state.vertex }
    {
        Owned {
            state,
            setting: Snapshot::of(setting),
            knew: Snapshot::of(&seat),
            seat,
            trace,
        }
    }

    #[inline(always)]
    fn turn(&mut self, net: &Net) -> Turn
        requires net { self.old.net ≡ net.now }
        ensures turn { MakesTurn self.old self.new result }
        ensures same { (self.new.net ≡ self.old.net) × (self.new.vertex ≡ self.old.vertex)
            × (self.new.room ≡ self.old.room) }
    {
        let mut words = NetWords::<Brand> {
            setting: net.setting(),
            words: net.words(),
            vertex: self.state.vertex(),
            seat: &mut self.seat,
            trace: &mut self.trace,
            of: PhantomData,
        };
        let work = turn_over(&mut self.state, &mut words);
        if work > 0 {
            Turn::Worked(work as u64)
        } else if self.state.passive() {
            Turn::Idle
        } else {
            Turn::Waiting
        }
    }

    /// Moves its part to this seat.
    fn lend(&mut self, net: &Net, seat: &mut PartSeat)
        requires net { self.old.net ≡ net.now }
        requires seat { seat.old.table_id ≡ net.now.table }
        ensures lent { self.new ≡ seatless self.old }
        ensures same { seat.new.table_id ≡ seat.old.table_id }
        ensures part { find self.old.vertex seat.new.me.0.parts ≡ Some self.old.did }
        ensures others { (p : ℕ) → self.old.vertex ≢ p → find p seat.new.me.0.parts ≡ find p seat.old.me.0.parts }
    {
        let own = replace(&mut self.seat, net.empty_seat());
        self.knew = Snapshot::of(&own);
        net.take_in(seat, own);
    }

    /// Moves its part back to a seat of its own.
    fn take_back<J: OnePart>(&mut self, net: &Net, seat: &mut PartSeat)
        requires vertex { J.part ≡ self.old.vertex }
        requires net { self.old.net.setting ≡ net.now.setting }
        requires seat { seat.old.table_id ≡ net.now.table }
        requires part { find self.old.vertex seat.old.me.0.parts ≡ Some self.old.did }
        ensures back { self.new ≡ at_net net.now self.old }
        ensures same { seat.new.table_id ≡ seat.old.table_id }
        ensures others { (p : ℕ) → J.part ≢ p → find p seat.new.me.0.parts ≡ find p seat.old.me.0.parts }
    {
        self.seat = net.take_out::<J>(seat);
    }
}

/// The owner of one vertex of a net. Contracts see its steps. Its data is in a box, so that it moves as a pointer.
#[derive(Drop)]
pub struct Actor {
    owned: Box<Owned>,
}

impl Model for Actor {
    ghost use Rattle.chip_net.specs.Tokens.{ActorKnown};

    ghost Value = { ActorKnown };

    ghost view = { λ a. a.owned.value };
}

impl Actor {
    /// The actor that owns `owned`.
    pub(crate) fn new(alloc: Global, owned: Owned) -> Result<Actor, AllocError>
        ensures { IfOk result (λ actor. actor ≡ owned) }
    {
        Ok(Actor {
            owned: Box::new(alloc, owned)?,
        })
    }

    /// The number of its vertex.
    pub fn vertex(&self) -> u64
        ensures { result ≡ self.now.vertex }
    {
        let owned: &Owned = &self.owned;
        owned.state.vertex()
    }

    /// Makes one turn: reads each edge into the vertex once, then does all that the vertex may do. It neither waits nor
    /// locks.
    #[inline(always)]
    pub fn turn(&mut self, net: &Net) -> Turn
        requires net { self.old.net ≡ net.now }
        ensures turn { MakesTurn self.old self.new result }
        ensures same { (self.new.net ≡ self.old.net) × (self.new.vertex ≡ self.old.vertex)
            × (self.new.room ≡ self.old.room) }
    {
        self.owned.turn(net)
    }

    /// The takes of messages and the firings of the vertex, in order, up to the trace's capacity; and whether the trace
    /// is cut for want of room.
    pub fn trace(&self) -> (&[TraceRow], bool)
        ensures rows { result.0.now ≡ take self.now.room (trace_rows_of self.now.did) }
        ensures cut { result.1 ≡ nat_lt self.now.room (length (trace_rows_of self.now.did)) }
    {
        let owned: &Owned = &self.owned;
        (owned.trace.rows(), owned.trace.is_cut())
    }
}

/// Makes a whole turn over the words of the net; returns the number of its steps that count. All of a turn is inlined:
/// the words are then nowhere in memory, and a worker reloads no address after each operation.
#[inline(always)]
fn turn_over<J: Turning>(state: &mut ActorState, words: &mut NetWords<'_, J>) -> usize
    requires setup { J.setup ≡ record {
      net = record { table = words.old.words.now.table_id; setting = words.old.setting.now };
      vertex = words.old.vertex;
      room = words.old.trace.now.room;
      seat = words.old.seat.ghost_name;
      trace = words.old.trace.ghost_name;
    } }
    requires vertex { words.old.vertex ≡ state.old.vertex }
    requires words { IsOfNet words.old.setting.now words.old.words.now.key.value words.old.words.now.table_id }
    requires table { words.old.seat.now.table_id ≡ words.old.words.now.table_id }
    requires actor { IsActorState words.old.setting.now state.old words.old.seat.now.me words.old.trace.now }
    ensures seat { words.new.seat.ghost_name ≡ words.old.seat.ghost_name }
    ensures trace { words.new.trace.ghost_name ≡ words.old.trace.ghost_name }
    ensures turn { MakesTurnBy (known words.old.seat.now.table_id words.old.setting.now state.old.vertex
        words.old.trace.now.room words.old.seat.now.me.0) (known words.new.seat.now.table_id words.old.setting.now
        state.new.vertex words.new.trace.now.room words.new.seat.now.me.0) result }
    ensures actor { IsActorState words.old.setting.now state.new words.new.seat.now.me words.new.trace.now }
{
    state.turn(words)
}

/// Moves the parts of all these actors to one seat, reads a word with it, and moves each part back. So one log has the
/// steps of all actors and of the seat. Allocates nothing.
pub(crate) fn meet(net: &Net, seat: &mut PartSeat, actors: &mut [Actor])
    requires seat { seat.old.table_id ≡ net.now.table }
    requires actors { AreInPlace net.now actors.old }
    ensures seat { seat.new.table_id ≡ seat.old.table_id }
    ensures others { (p : ℕ) → length actors.old ≤ p → find p seat.new.me.0.parts ≡ find p seat.old.me.0.parts }
    ensures actors { actors.new ≡ actors.old }
    ensures met { HaveMet net.now.setting seat.old.me.0 actors.old }
{
    for index in 0..actors.len() {
        let actor = &mut actors[index];
        actor.owned.lend(net, seat);
    }
    net.look(seat);
    for index in 0..actors.len() {
        let actor = &mut actors[index];
        actor.owned.take_back::<Brand>(net, seat);
    }
}
