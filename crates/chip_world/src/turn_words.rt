use crate::words::Words;
use chip_actor::Medium;
use chip_link::FiredWord;

/// The shared words for the vertex whose turn it is: those of all edges, and its own fired word. In a net that word is
/// one of the shared ones; here only its actor knows it, and it is copied when the turn begins.
#[derive(Drop)]
pub(crate) struct TurnWords {
    pub(crate) words: Words,
    pub(crate) fired: u64,
}

impl Medium for TurnWords {
    ghost use Rattle.chip_world.specs.TurnWords.{WordsHold};

    ghost holds = { λ w. WordsHold w };

    fn take(&mut self, edge: u64, cell: u64) -> u64 {
        self.words.take(edge, cell)
    }

    fn settle(&mut self, edge: u64) -> u64 {
        self.words.acknowledgements(edge)
    }

    fn fire(&mut self, k: u64) -> u64 {
        let before = self.fired;
        self.fired = before + k;
        before
    }

    fn clear(&mut self, edge: u64, cell: u64) -> u64 {
        self.words.load(edge, cell)
    }

    fn claim(&mut self, edge: u64, expected: u64, new: u64) -> u64 {
        self.words.exchange(edge, expected, new)
    }

    fn put(&mut self, edge: u64, cell: u64, value: u64) -> u64 {
        self.words.store(edge, cell, value);
        0
    }

    fn halt(&mut self, by_limit: bool) -> u64 {
        let before = self.fired;
        self.fired = before | FiredWord::halt_bits(by_limit);
        before
    }

    fn ack(&mut self, edge: u64, count: u64) -> u64 {
        self.words.acknowledge(edge, count)
    }
}
