//! The books of one process with two sums: what is owed on all edges, and the deficit. A step searches once for its
//! edge, and `is_over` not at all. (Of the same calls on slices, in `crate::detector`, some add up all tallies.)
//!
//! `open` fills in the sums. If they are right, a call does what its namesake on slices does and keeps them right. If
//! not, it is safe: a refusal changes nothing, and it refuses rather than let a sum pass below 0 or above 2^64 - 1.

ghost use Rattle.std.specs.Prelude.{◌≡◌, ◌-◌, ◌<◌, ◌≤◌, List};
ghost use Rattle.chip_detect.specs.declared.tallies.Tally.{Tally};
ghost use Rattle.chip_detect.specs.Acknowledging.{acknowledgeable_count};
ghost use Rattle.chip_library.specs.PartBooks.{neutral, parent_of, books_of, IsPossible};
ghost use Rattle.chip_library.specs.Sums.{AcknowledgesAll};

use crate::detector::{BooksFault, NEUTRAL, all_open, check, found, got, sent, settled_within};
use chip_detect::{Tally, add_answers_at, may_ack_on_parent};

/// The books of a process: tallies as in `crate::detector`, its parent edge, and the sums.
#[repr(C)]
#[derive(Drop)]
pub struct SummedBooks<'a> {
    /// The tallies of the edges into the process.
    pub ins: &'a mut [Tally],
    /// The tallies of the edges out of it.
    pub outs: &'a mut [Tally],
    /// Its parent edge, or `NEUTRAL`.
    pub parent: u64,
    /// The number of messages received and not acknowledged, on all edges.
    pub owed: u64,
    /// The number of messages sent whose acknowledgement is not settled, on all edges.
    pub deficit: u64,
}

/// The messages acknowledged on an edge.
#[derive(Clone, Copy, Debug, PartialEq, Eq)]
pub struct Acknowledged {
    /// How many are acknowledged now.
    pub count: u64,
    /// How many are acknowledged in all.
    pub so_far: u64,
}

/// The sums of tallies.
#[derive(Clone, Copy)]
struct Sums {
    owed: u64,
    deficit: u64,
}

impl SummedBooks<'_> {
    ghost use Rattle.std.specs.Prelude.{◌≡◌, true, MatchResult};
    ghost use Rattle.chip_detect.specs.Tally.{all_open};
    ghost use Rattle.chip_detect.specs.Steps.{Got, Sent};
    ghost use Rattle.chip_library.specs.declared.detector.BooksFault.TheVariants.{NotSound};
    ghost use Rattle.chip_library.specs.PartBooks.{AreBooks};
    ghost use Rattle.chip_library.specs.Sums.{summed_of, AreSummed, PointsAlike, Opens, NotesSummed, SettlesSummed};
    ghost use Rattle.chip_library.specs.Sums.{AcknowledgesAll, TellsOver};

    /// Fills in the sums, if the books are sound.
    pub fn open(&mut self) -> Result<(), BooksFault>
        ensures opens { Opens self.old self.new result }
        ensures pointers { PointsAlike self.old self.new }
    {
        let sums = self.sums()?;
        self.owed = sums.owed;
        self.deficit = sums.deficit;
        Ok(())
    }

    /// Checks that the books are sound and the sums are those of the tallies.
    pub fn verify(&self) -> Result<(), BooksFault>
        ensures { MatchResult result (λ _. AreSummed self.now) (λ fault. (fault ≡ NotSound) × (AreSummed self.now → ⊥)) }
    {
        let sums = self.sums()?;
        if sums.owed != self.owed {
            return Err(BooksFault::NotSound);
        }
        if sums.deficit != self.deficit {
            return Err(BooksFault::NotSound);
        }
        Ok(())
    }

    /// Notes a message sent on the edge.
    pub fn sent(&mut self, edge: u64) -> Result<(), BooksFault>
        ensures notes { NotesSummed (summed_of self.old) (summed_of self.new) true (Sent edge) result }
        ensures pointers { PointsAlike self.old self.new }
    {
        let Some(deficit) = self.deficit.checked_add(1) else {
            return Err(BooksFault::NotSound);
        };
        sent(self.outs, edge)?;
        self.deficit = deficit;
        Ok(())
    }

    /// Notes a message received on the edge. It engages a neutral process.
    pub fn got(&mut self, edge: u64) -> Result<(), BooksFault>
        ensures notes { NotesSummed (summed_of self.old) (summed_of self.new) true (Got edge) result }
        ensures pointers { PointsAlike self.old self.new }
    {
        let Some(owed) = self.owed.checked_add(1) else {
            return Err(BooksFault::NotSound);
        };
        got(self.ins, &mut self.parent, edge)?;
        self.owed = owed;
        Ok(())
    }

    /// Acknowledges all messages of the edge that may be acknowledged now; the tail must not see this earlier.
    /// `passive` says whether the process is passive.
    pub fn acknowledge(&mut self, edge: u64, passive: bool) -> Result<Acknowledged, BooksFault>
        ensures notes { AcknowledgesAll (summed_of self.old) (summed_of self.new) edge passive result }
        ensures pointers { PointsAlike self.old self.new }
    {
        let deficit = self.deficit;
        acknowledge_in(
            self.ins,
            &mut self.parent,
            &mut self.owed,
            deficit,
            edge,
            passive,
        )
    }

    /// Notes that the edge's head has acknowledged `word` messages in all, by its latest report or an earlier one.
    /// Returns how many of these are new.
    pub fn settled(&mut self, edge: u64, word: u64) -> Result<u64, BooksFault>
        ensures settles { SettlesSummed (summed_of self.old) (summed_of self.new) edge word result }
        ensures pointers { PointsAlike self.old self.new }
    {
        let most = self.deficit;
        match settled_within(self.outs, most, edge, word) {
            Ok(more) => {
                self.deficit = most - more;
                Ok(more)
            }
            Err(fault) => Err(fault),
        }
    }

    /// Whether the root may report that the computation is over. `ended` says whether it will send no more.
    pub fn is_over(&self, ended: bool) -> bool
        ensures { TellsOver (summed_of self.now) ended result }
    {
        ended && self.deficit == 0
    }

    /// The sums of the tallies, if the books are sound.
    fn sums(&self) -> Result<Sums, BooksFault>
        ensures { MatchResult result
            (λ sums. AreBooks self.now.ins.now self.now.outs.now self.now.parent
            × (sums.owed ≡ all_open self.now.ins.now) × (sums.deficit ≡ all_open self.now.outs.now))
            (λ fault. (fault ≡ NotSound) × (AreBooks self.now.ins.now self.now.outs.now self.now.parent → ⊥)) }
    {
        check(self.ins, self.outs, self.parent)?;
        let Some(owed) = all_open(self.ins) else {
            return Err(BooksFault::NotSound);
        };
        let Some(deficit) = all_open(self.outs) else {
            return Err(BooksFault::NotSound);
        };
        Ok(Sums { owed, deficit })
    }
}

/// Acknowledges all messages of the edge that may be acknowledged, by the kept sums of what is owed and of the deficit.
fn acknowledge_in(
    ins: &mut [Tally],
    parent: &mut u64,
    owed: &mut u64,
    deficit: u64,
    edge: u64,
    passive: bool,
) -> Result<Acknowledged, BooksFault>
    ensures { (outs : List Tally) → AcknowledgesAll
        (record { books = books_of ins.old outs parent.old; owed = owed.old; deficit = deficit })
        (record { books = books_of ins.new outs parent.new; owed = owed.new; deficit = deficit })
        edge passive result }
{
    let Some((slot, tally)) = found(ins, edge) else {
        return Err(BooksFault::NotSound);
    };
    let count = may_ack_by(tally, *parent, *owed, deficit, edge, passive);
    let Some(left) = owed.checked_sub(count) else {
        return Err(BooksFault::NotSound);
    };
    let so_far = tally.answered + count;
    add_answers_at(ins, slot, count);
    *owed = left;
    if *parent == edge && count == tally.open() {
        *parent = NEUTRAL;
    }
    Ok(Acknowledged { count, so_far })
}

/// The number of messages of the edge with this tally that may be acknowledged, by the same sums.
fn may_ack_by(tally: Tally, parent: u64, owed: u64, deficit: u64, edge: u64, passive: bool) -> u64
    requires edge { edge < neutral }
    requires possible { IsPossible tally }
    ensures value { result ≡ acknowledgeable_count edge (parent_of parent) (tally.messages - tally.answered) owed deficit passive }
    ensures within { result ≤ tally.messages - tally.answered }
{
    let here = tally.open();
    if parent != edge {
        return here;
    }
    if here == 0 {
        return 0;
    }
    may_ack_on_parent(here, owed, deficit, passive)
}
