//! The words of a net as the medium of a turn.

use crate::layout::{acks_word, cell_word, edge_word, fired_word};
use crate::rule::{PartSeat, SharedWords};
use crate::trace::Trace;
use chip_actor::Medium;
use chip_link::{FiredWord, TraceRow};
use chip_part::Setting;
use std::marker::{Brand, PhantomData};

/// What a turn leaves unchanged.
pub(crate) trait Turning {
    ghost use Rattle.chip_net.specs.Tokens.{TurnSetup};

    ghost setup: { TurnSetup };
}

impl Turning for Brand {
    ghost use Rattle.chip_net.specs.Tokens.{no_setup};

    ghost setup = { no_setup };
}

/// The words of a net, for the vertex whose turn it is. Each operation is one atomic step.
#[derive(Drop)]
pub(crate) struct NetWords<'net, J> {
    pub(crate) setting: &'net Setting,
    pub(crate) words: &'net SharedWords,
    pub(crate) vertex: u64,
    pub(crate) seat: &'net mut PartSeat,
    pub(crate) trace: &'net mut Trace,
    pub(crate) of: PhantomData<J>,
}

#[tactic(auto, using(crate::proofs::ActingLemmas::may_word))]
impl<'net, J: Turning> Medium for NetWords<'net, J> {
    ghost use Rattle.chip_net.specs.Tokens.{Holds};

    ghost holds = { λ w. Holds J.setup (record {
      net = record { table = w.words.now.table_id; setting = w.setting.now };
      vertex = w.vertex;
      room = w.trace.now.room;
      seat = w.seat.ghost_name;
      trace = w.trace.ghost_name;
    }) w.words.now.key.value w.seat.now.table_id w.seat.now.me w.trace.now };

    fn take(&mut self, edge: u64, cell: u64) -> u64 {
        let cell = cell_word(self.setting, edge, cell);
        let count = self.words.swap::<Brand>(self.seat, cell, 0);
        self.trace.note_take(edge, count);
        count
    }

    fn settle(&mut self, edge: u64) -> u64 {
        let acks = acks_word(self.setting, edge);
        self.words.load::<Brand>(self.seat, acks)
    }

    fn fire(&mut self, k: u64) -> u64 {
        let word = fired_word(self.setting, self.vertex);
        let before = self.words.fetch_add::<Brand>(self.seat, word, k);
        self.trace.note(TraceRow::Fire { k });
        before
    }

    fn clear(&mut self, edge: u64, cell: u64) -> u64 {
        let cell = cell_word(self.setting, edge, cell);
        self.words.load::<Brand>(self.seat, cell)
    }

    fn claim(&mut self, edge: u64, expected: u64, new: u64) -> u64 {
        let words = self.words;
        let word = edge_word(self.setting, edge);
        words.compare_exchange::<Brand>(self.seat, word, expected, new)
    }

    fn put(&mut self, edge: u64, cell: u64, value: u64) -> u64 {
        let cell = cell_word(self.setting, edge, cell);
        self.words.store::<Brand>(self.seat, cell, value);
        0
    }

    fn halt(&mut self, by_limit: bool) -> u64 {
        let word = fired_word(self.setting, self.vertex);
        let bits = FiredWord::halt_bits(by_limit);
        self.words.fetch_or::<Brand>(self.seat, word, bits)
    }

    fn ack(&mut self, edge: u64, count: u64) -> u64 {
        let acks = acks_word(self.setting, edge);
        self.words.fetch_add::<Brand>(self.seat, acks, count)
    }
}
