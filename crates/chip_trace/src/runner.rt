use std::alloc::{AllocError, Global};
use std::marker::Model;

/// How far one vertex has come.
#[derive(Drop)]
pub(crate) struct Runner {
    used: usize,
    fires: Vec<u64>,
    fired: u64,
    chips: u128,
}

impl Model for Runner {
    ghost use Rattle.chip_trace.specs.Runner.{RunnerState};

    ghost Value = { RunnerState };

    ghost use Rattle.chip_trace.specs.Runner.{runner_state, AreFiringsCounted};

    ghost view = { runner_state };

    ghost invariant = { AreFiringsCounted };
}

impl Runner {
    ghost use Rattle.std.specs.Prelude.{◌≡◌, ◌+◌, ◌-◌, ◌*◌, ◌^◌, ◌<◌, ◌≤◌, ◌++◌, ◌∷◌, [], ◌&&◌, nat_lt, nat_le};
    ghost use Rattle.std.specs.Prelude.{sum, length, slice_get, IfOk, true};
    ghost use Rattle.chip_trace.specs.Runner.{at_start};

    /// A vertex that has used no row.
    pub(crate) fn new(alloc: Global) -> Runner
        ensures { result ≡ at_start }
    {
        Runner {
            used: 0,
            fires: Vec::new(alloc),
            fired: 0,
            chips: 0,
        }
    }

    /// How many rows it has used.
    pub(crate) fn used_rows(&self) -> usize
        ensures { result ≡ self.now.used }
    {
        self.used
    }

    /// Its firing with this number, if it was made.
    pub(crate) fn firing(&self, i: usize) -> Option<u64>
        ensures { result ≡ slice_get self.now.fires i }
    {
        self.fires.get(i).copied()
    }

    /// The number of its firings, each of one or more at once.
    pub(crate) fn firings(&self) -> usize
        ensures { result ≡ length self.now.fires }
    {
        self.fires.len()
    }

    /// How often it has fired.
    pub(crate) fn fired(&self) -> u64
        ensures { result ≡ sum self.now.fires }
    {
        self.fired
    }

    /// The chips that it holds, if each firing sent `degree`.
    pub(crate) fn held(&self, degree: u64) -> u128
        ensures { result ≡ self.now.chips - sum self.now.fires * degree }
    {
        self.chips
            .saturating_sub(u128::from(self.fired) * u128::from(degree))
    }

    /// Whether `k` more firings stay within the limit, and it took the chips for them, `degree` each.
    pub(crate) fn can_pay(&self, k: u64, degree: u64, limit: u64) -> bool
        ensures { result ≡ (nat_le (sum self.now.fires + k) limit
            && nat_le ((sum self.now.fires + k) * degree) self.now.chips) }
    {
        let firings = u128::from(self.fired) + u128::from(k);
        firings <= u128::from(limit) && firings * u128::from(degree) <= self.chips
    }

    /// Takes a message of `count` chips.
    pub(crate) fn take(&mut self, count: u64)
        requires room { self.old.used + 1 < 2 ^ 64 }
        requires fits { self.old.chips + count < 2 ^ 128 }
        ensures { self.new ≡ record self.old { used = self.old.used + 1; chips = self.old.chips + count } }
    {
        self.used += 1;
        self.chips += u128::from(count);
    }

    /// Fires `k` times.
    pub(crate) fn fire(&mut self, k: u64) -> Result<(), AllocError>
        requires room { self.old.used + 1 < 2 ^ 64 }
        requires fits { sum self.old.fires + k < 2 ^ 64 }
        ensures { IfOk result (λ _. self.new
            ≡ record self.old { used = self.old.used + 1; fires = self.old.fires ++ k ∷ [] }) }
    {
        self.fires.push(k)?;
        self.fired += k;
        self.used += 1;
        Ok(())
    }
}
