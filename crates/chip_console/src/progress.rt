//! Lines on standard error about long work, at most one a second.
//!
//! They do not change the work. If the clock cannot be read there is no line, and a line that cannot be written is left
//! out.

use crate::console::Console;
use crate::terminal::say_waits;
use chip_crew::Gate;
use chip_engine::{ClaimWatch, Waits};
use chip_fire::{GivenUse, Play, Search, Watch};
use chip_graph::Game;
use std::rt::Clock;

/// Writes the progress of a play on one thread: what it does, its rounds and its firings.
#[derive(Drop)]
pub struct RoundProgress<'a, R: Clock + Eprint> {
    console: &'a Console<'a, R>,
    rounds: u64,
    /// The number of steps of the finished searches, and of the current one.
    searched: u64,
    steps: u64,
}

impl<'a, R: Clock + Eprint> RoundProgress<'a, R> {
    /// The progress before the first round.
    pub fn start(console: &'a Console<'a, R>) -> RoundProgress<'a, R> {
        RoundProgress {
            console,
            rounds: 0,
            searched: 0,
            steps: 0,
        }
    }
}

impl<R: Clock + Eprint> Watch for RoundProgress<'_, R> {
    fn plays(&mut self, game: &Game) {
        if self.console.is_due() {
            let vertices = game.graph().vertices();
            let edges = game.graph().edges().len();
            let _ = eprintln!(self.console.rt;
                "chipfire: progress: read {vertices} vertices, {edges} edges"
            );
        }
    }

    fn used(&mut self, _play: &Play<'_>, _given: &[u64], given_use: GivenUse) {
        if self.console.has_progress() {
            let done = match given_use {
                GivenUse::Certified => "certified",
                GivenUse::PlayedOn => "played on",
                GivenUse::Lowered => "lowered",
                GivenUse::Dropped => "dropped",
            };
            let _ = eprintln!(self.console.rt; "chipfire: progress: guess {done}");
        }
    }

    fn searches(&mut self, search: &Search) {
        self.steps = search.steps();
        if self.console.is_due() {
            let steps = self.searched.saturating_add(self.steps);
            let chips = search.chips_to_move();
            let _ = eprintln!(self.console.rt;
                "chipfire: progress: guessing, {steps} steps, this try is off by {chips} chips"
            );
        }
    }

    fn searched(&mut self, _play: &Play<'_>, _alone: u64, _beside: u64, _searched: u64) {
        self.searched = self.searched.saturating_add(self.steps);
        self.steps = 0;
    }

    fn rounds(&mut self, more: u64, play: &Play<'_>) {
        self.rounds = self.rounds.saturating_add(more);
        if self.console.is_due() {
            let rounds = self.rounds;
            // At most 2^64 - 1. The firings of a game are fewer.
            let mut firings = 0u64;
            for count in &play.fired {
                firings = firings.saturating_add(*count);
            }
            let _ = eprintln!(self.console.rt;
                "chipfire: progress: {rounds} rounds, {firings} firings"
            );
        }
    }

    fn writes(&mut self, bytes: u64) {
        if self.console.is_due() {
            let _ = eprintln!(self.console.rt; "chipfire: progress: writing {bytes} bytes");
        }
    }
}

/// Writes which claim of a log is judged, and keeps the line about waits.
#[derive(Drop)]
pub struct ClaimProgress<'a, R: Clock + Eprint> {
    console: &'a Console<'a, R>,
    /// Where the waits of a log without an order lead, if there is memory for that.
    pub waits: String,
}

impl<'a, R: Clock + Eprint + AllocGlobal> ClaimProgress<'a, R> {
    /// The progress before the first claim.
    pub fn start(console: &'a Console<'a, R>) -> ClaimProgress<'a, R> {
        ClaimProgress {
            console,
            waits: String::new(console.rt.alloc()),
        }
    }
}

impl<R: Clock + Eprint> ClaimWatch for ClaimProgress<'_, R> {
    fn judges(&mut self, claim: usize, claims: usize) {
        if self.console.is_due() {
            let claim = claim.saturating_add(1);
            let _ = eprintln!(self.console.rt; "chipfire: progress: claim {claim} of {claims}");
        }
    }

    fn waits(&mut self, waits: &Waits) {
        if say_waits(&mut self.waits, waits).is_err() {
            self.waits.clear();
        }
    }
}

/// Admits every turn, and writes how many turns worker 0 has made and how many of the root's messages are not
/// acknowledged.
#[derive(Drop)]
pub struct TurnProgress<'a, R: Clock + Eprint> {
    console: &'a Console<'a, R>,
}

impl<'a, R: Clock + Eprint> TurnProgress<'a, R> {
    /// The progress before the first turn.
    pub fn start(console: &'a Console<'a, R>) -> TurnProgress<'a, R> {
        TurnProgress { console }
    }
}

impl<R: Clock + Eprint> Gate for TurnProgress<'_, R> {
    ghost use Rattle.std.specs.Prelude.{◌≡◌, true};

    ghost may_answer = { λ _ _ _ answer. answer ≡ true };

    fn pass(&self, _worker: u64, _turn: u64) -> bool {
        true
    }

    fn polled(&self, turn: u64, deficit: u64) {
        if self.console.is_due() {
            let turns = turn.saturating_add(1);
            let _ = eprintln!(self.console.rt;
                "chipfire: progress: {turns} turns of worker 0, the root's deficit is {deficit}"
            );
        }
    }
}
