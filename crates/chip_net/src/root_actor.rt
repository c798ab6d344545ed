//! The root's means of acting: its seat at the shared words, and its counters for its edges.

ghost use Rattle.std.specs.Prelude.{◌≡◌, ℕ, ◌-◌, ◌<◌, ◌≤◌, ◌==◌, ◌&&◌, [], Some, IfOk, MatchResult, true};
ghost use Rattle.chip_part.specs.Setting.{IsSetting};
ghost use Rattle.chip_part.specs.Edges.{root, stopper, root_edge};
ghost use Rattle.chip_actor.specs.Root.{RootStandsFor};
ghost use Rattle.chip_core.specs.Core.{End, Settle, part_of, unmet_rule};
ghost use Rattle.chip_core.specs.Words.{word_to_note, of_acks};
ghost use Rattle.chip_net.specs.Layout.{index_of};
ghost use Rattle.chip_net.specs.Rule.{Grows};
ghost use Rattle.chip_net.specs.Views.{find};
ghost use Rattle.chip_net.specs.Roots.{new_root, root_part, root_deficit, has_ended, IsRootOver, with_stopper};
ghost use Rattle.chip_net.specs.Roots.{IsDueForRoot, IsDueInView, RootMakesEvent, Replies, DoesMore, settles_from};
ghost use Rattle.chip_net.specs.Roots.{HoldsNothing, AnswersPoll, AllowsFeed, feed_fault};

use crate::layout::{acks_word, cell_word, edge_word, root_acks};
use crate::net::Net;
use crate::poll::{FeedFault, RootState};
use crate::receipt::Receipt;
use crate::rule::PartSeat;
use crate::stopper::Stopper;
use chip_actor::RootBooks;
use chip_link::Event;
use chip_part::{Act, Reply, Rule, Setting};
use std::alloc::{AllocError, Global};
use std::marker::{Brand, Model};
use std::snapshot::Snapshot;

/// An event of the root.
pub(crate) trait Making {
    ghost use Rattle.chip_core.specs.Core.{Event};

    ghost event: { Event };
}

impl Making for Brand {
    ghost use Rattle.chip_core.specs.Core.{End};

    ghost event = { End };
}

/// The seat of the root, and its state.
#[derive(Drop)]
pub(crate) struct RootActor {
    seat: PartSeat,
    setting: Snapshot<Setting>,
    state: RootBooks,
}

impl Model for RootActor {
    ghost use Rattle.chip_net.specs.Roots.{RootKnown, known_root, IsRoot};

    ghost Value = { RootKnown };

    ghost view = { λ a. known_root a.seat.table_id a.setting.value a.seat.me.0 };

    ghost invariant = { λ a. IsRoot a.setting.value a.seat.me.0 a.state };
}

impl RootActor {
    /// The actor of a root that has done nothing.
    pub(crate) fn new(
        alloc: Global,
        setting: &Setting,
        seat: PartSeat,
    ) -> Result<RootActor, AllocError>
        requires setting { IsSetting setting.now }
        requires part { find (root setting.now) seat.me.0.parts ≡ Some [] }
        ensures { IfOk result (λ r. r ≡ new_root (record { table = seat.table_id; setting = setting.now })
            (find (stopper setting.now) seat.me.0.parts)) }
    {
        Ok(RootActor {
            seat,
            setting: Snapshot::of(setting),
            state: RootBooks::new(alloc, setting)?,
        })
    }

    /// Settles the root edge of a vertex, whose word of acknowledgements is `word`.
    fn settle(&mut self, net: &Net, vertex: u64, word: usize)
        requires net { self.old.net ≡ net.now }
        requires vertex { vertex < self.old.net.setting.game.graph.vertices }
        requires word { word ≡ index_of self.old.net.setting (of_acks (root_edge self.old.net.setting vertex)) }
        ensures { (seen : ℕ) × RootMakesEvent self.old self.new (Settle (root_edge self.old.net.setting vertex)) seen }
    {
        let seat = &mut self.seat;
        let seen = net.words().load::<Brand>(seat, word);
        self.state.settle(vertex as usize, seen);
    }

    /// Settles the root edges of the vertices from `first` on.
    pub(crate) fn settle_from(&mut self, net: &Net, first: u64)
        requires net { self.old.net ≡ net.now }
        ensures settles { DoesMore self.old self.new
            (settles_from self.old.net.setting first (self.old.net.setting.game.graph.vertices - first)) }
        ensures holds { HoldsNothing self.old → HoldsNothing self.new }
    {
        let setting = net.setting();
        // (once for all: each load of a shared word makes the compiler read memory again)
        let words = root_acks(setting);
        for vertex in first..setting.vertices() {
            self.settle(net, vertex, words + vertex as usize);
        }
    }

    /// Makes an event of feeding or the end of feeding.
    pub(crate) fn make<J: Making>(&mut self, net: &Net, event: Event) -> Reply
        requires event { J.event ≡ event }
        requires net { self.old.net ≡ net.now }
        requires due { IsDueForRoot self.old event }
        ensures { Replies self.old self.new event result }
    {
        let Ok(act) = self.state.may(&event) else {
            unreachable!()
        };
        let seen = operate::<J>(net, &mut self.seat, &act);
        self.state.apply(&event, seen)
    }

    /// Whether `count` chips may be fed over a root edge, as far as the root knows.
    pub(crate) fn may_feed(&self, vertex: u64, edge: u64, count: u64) -> Result<(), FeedFault>
        requires vertex { vertex < self.now.net.setting.game.graph.vertices }
        requires edge { edge ≡ root_edge self.now.net.setting vertex }
        requires count { 1 ≤ count }
        ensures { AllowsFeed self.now count result }
    {
        let Err(rule) = self.state.may(&Event::Feed { edge, count }) else {
            return Ok(());
        };
        match fault_of(rule) {
            Some(fault) => Err(fault),
            None => Ok(()),
        }
    }

    /// Whether feeding has ended and no message is outstanding.
    pub(crate) fn is_closed(&self) -> bool
        ensures { result ≡ (root_deficit self.now == 0 && has_ended self.now) }
    {
        self.state.closed()
    }

    /// The root's state: closed, or the number of outstanding messages.
    pub(crate) fn poll_state(&self) -> RootState
        ensures { AnswersPoll self.now result }
    {
        if self.is_closed() {
            RootState::Closed
        } else {
            RootState::Running(self.state.outstanding())
        }
    }

    /// Takes back the stopper, and its steps.
    pub(crate) fn take_back(&mut self, net: &Net, stopper: Stopper)
        requires net { self.old.net ≡ net.now }
        requires stopper { stopper.net ≡ net.now }
        ensures { self.new ≡ with_stopper self.old stopper.did }
    {
        net.take_in(&mut self.seat, stopper.into_seat());
    }

    /// The state of a closed root, and the receipt that reads the counts.
    pub(crate) fn into_receipt(self) -> (RootBooks, Receipt)
        ensures state { RootStandsFor self.net.setting (root_part self) result.0 }
        ensures receipt { result.1 ≡ self }
        ensures setting { IsSetting self.net.setting }
    {
        let RootActor {
            seat,
            setting,
            state,
        } = self;
        (state, Receipt::new(seat, setting))
    }
}

/// The fault for this unmet rule of a feed; `None` for rules that reading the cell may resolve.
fn fault_of(rule: Rule) -> Option<FeedFault>
    ensures { result ≡ feed_fault rule }
{
    match rule {
        Rule::Ended => Some(FeedFault::Ended),
        Rule::TooMuch => Some(FeedFault::Total),
        _ => None,
    }
}

/// Makes the operation of a root's event on the shared words; returns the word it found, 0 for a store.
fn operate<J: Making>(net: &Net, seat: &mut PartSeat, act: &Act) -> u64
    requires table { seat.old.table_id ≡ net.now.table }
    requires due { IsDueInView net.now.setting seat.old.me.0 J.event act.now }
    ensures same { seat.new.table_id ≡ seat.old.table_id }
    ensures told { (n : ℕ) × (result ≡ word_to_note J.event n)
        × Grows net.now.setting J.event seat.old.me n seat.new.me }
{
    let setting = net.setting();
    let words = net.words();
    match *act {
        Act::Settle { edge } => words.load::<Brand>(seat, acks_word(setting, edge)),
        Act::Clear { edge, cell } => words.load::<Brand>(seat, cell_word(setting, edge, cell)),
        Act::Claim {
            edge,
            expected,
            new,
        } => words.compare_exchange::<Brand>(seat, edge_word(setting, edge), expected, new),
        Act::Put { edge, cell, value } => {
            words.store::<Brand>(seat, cell_word(setting, edge, cell), value);
            0
        }
        _ => unreachable!(),
    }
}
