//! Gates that hold a crew, stop it, or note its calls.

use chip_crew::Gate;
use std::sync::atomic::AtomicU64;
use std::sync::atomic::Ordering::SeqCst;
use std::thread;

/// The workers that a gate accepts.
pub(crate) enum Rule {
    /// Every worker.
    Always,
    /// No worker.
    Never,
    /// Worker 0. The others wait for its first call, and are then refused.
    ZeroAlone,
    /// Every worker. Each waits at its first turn until this number have called.
    Together(u64),
    /// Every worker. Worker 0 waits at its first turn until worker 1 calls for this turn.
    Behind(u64),
    /// Every worker. Worker 1 makes three turns before worker 0's first; then only worker 0 makes turns until it calls
    /// for its fourth.
    Relay,
    /// Every worker, except this one at this turn. All others wait at their first turn until then.
    ShutAt { worker: u64, turn: u64 },
}

/// A gate by such a rule, which counts its calls and notes the reported polls.
#[derive(Drop)]
pub(crate) struct Keeper<'r> {
    rule: &'r Rule,
    /// The number of calls by the workers that the others wait for, or that wait.
    pub asked: AtomicU64,
    /// Whether the others may go on.
    opened: AtomicU64,
    /// The number of reported polls, the turn of the last one, and the most open messages.
    pub polls: AtomicU64,
    pub last_turn: AtomicU64,
    pub most: AtomicU64,
}

impl Keeper<'_> {
    pub(crate) fn new(rule: &Rule) -> Keeper<'_> {
        Keeper {
            rule,
            asked: AtomicU64::new(0),
            opened: AtomicU64::new(0),
            polls: AtomicU64::new(0),
            last_turn: AtomicU64::new(0),
            most: AtomicU64::new(0),
        }
    }

    /// Accepts worker 0 once worker 1 calls for its fourth turn, and worker 1 once worker 0 does.
    fn relay(&self, worker: u64, turn: u64) -> bool {
        match (worker, turn) {
            (0, 0) => comes_to(&self.asked, 1),
            (0, 3) => {
                self.opened.store(1, SeqCst);
                true
            }
            (1, 3) => {
                self.asked.store(1, SeqCst);
                comes_to(&self.opened, 1)
            }
            _ => true,
        }
    }

    /// Whether the worker whose gate shuts is accepted; if it shuts now, the others may go on.
    fn shuts(&self, now: bool) -> bool {
        if now {
            self.opened.store(1, SeqCst);
        }
        !now
    }

    /// Accepts one of the others, once it may go on from its first turn.
    fn holds(&self, turn: u64) -> bool {
        self.asked.fetch_add(1, SeqCst);
        turn > 0 || comes_to(&self.opened, 1)
    }
}

impl Gate for Keeper<'_> {
    fn pass(&self, worker: u64, turn: u64) -> bool {
        match *self.rule {
            Rule::Always => true,
            Rule::Never => false,
            Rule::ZeroAlone => {
                if worker == 0 {
                    self.asked.store(1, SeqCst);
                    return true;
                }
                comes_to(&self.asked, 1);
                false
            }
            Rule::Together(all) => {
                if turn > 0 {
                    return true;
                }
                self.asked.fetch_add(1, SeqCst);
                comes_to(&self.asked, all)
            }
            Rule::Behind(until) => {
                if worker == 1 && turn == until {
                    self.asked.store(1, SeqCst);
                }
                worker != 0 || turn > 0 || comes_to(&self.asked, 1)
            }
            Rule::Relay => self.relay(worker, turn),
            Rule::ShutAt {
                worker: one,
                turn: at,
            } if one == worker => self.shuts(at == turn),
            Rule::ShutAt { .. } => self.holds(turn),
        }
    }

    fn polled(&self, turn: u64, deficit: u64) {
        self.polls.fetch_add(1, SeqCst);
        self.last_turn.store(turn, SeqCst);
        self.most.store(self.most.load(SeqCst).max(deficit), SeqCst);
    }
}

/// Whether the number reaches `much` within a million reads.
fn comes_to(number: &AtomicU64, much: u64) -> bool {
    for _ in 0..1_000_000 {
        if number.load(SeqCst) >= much {
            return true;
        }
        thread::yield_now();
    }
    false
}
