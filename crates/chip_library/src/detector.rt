//! The books of one process of a diffusing computation, in the caller's memory (`docs/DETECTOR.md`).
//!
//! A process has a tally of each edge into it and of each edge out of it, in ascending order of edges, and its parent
//! edge or `NEUTRAL`. At first all counts are 0, and the process is neutral. A call has the same effect on them as in
//! `chip_detect::Detect`, or refuses and changes nothing. On books that are not sound every call is safe, and one that
//! adds up tallies refuses if any is impossible: more answered than messages, or a count above the limit.

ghost use Rattle.std.specs.Prelude.{◌≡◌, ℕ, ◌≤◌, ◌↔◌, true, List, IsTrue, MatchOption, MatchResult};
ghost use Rattle.std.specs.List.Sorted.{IsStrictlyIncreasing};
ghost use Rattle.chip_detect.specs.declared.tallies.Tally.{Tally};
ghost use Rattle.chip_detect.specs.Tally.{AreTallies, edges_of, open_on, all_open};
ghost use Rattle.chip_detect.specs.Books.{in_edges, deficit};
ghost use Rattle.chip_detect.specs.Acknowledging.{may_ack};
ghost use Rattle.chip_detect.specs.Steps.{Got, Acked, Sent};
ghost use Rattle.chip_diffusing.specs.Laws.{IsOver};
ghost use Rattle.chip_library.specs.declared.detector.BooksFault.TheVariants.{NotSound};
ghost use Rattle.chip_library.specs.PartBooks.{books_of, parent_of, HasEdge, Notes, ReadsBooks, IsPossible, ArePossible, IsFound, Suits, Settling};
ghost use Rattle.chip_library.specs.PartBooks.{AddsUp, AddsUpForParent, AreNumbered, AreBooks};

use chip_detect::{
    EDGE_LIMIT, MESSAGE_LIMIT, Slot, Tally, add_answers_at, add_message_at, may_ack_on_parent,
    slot_of,
};

/// The parent of a neutral process. No edge has this number.
pub const NEUTRAL: u64 = u64::MAX;

/// Why a call is refused.
#[derive(Clone, Copy, Debug, PartialEq, Eq)]
pub enum BooksFault {
    /// There is no such edge, a count is too high, or the books are found not to be sound.
    NotSound,
    /// Not all of these messages may be acknowledged yet.
    NotYet,
}

impl BooksFault {
    ghost use Rattle.std.specs.Prelude.{◌≡◌};
    ghost use Rattle.chip_library.specs.PartBooks.{books_fault_number};

    /// The number of this fault in the table of faults.
    pub fn number(&self) -> u64
        ensures { result ≡ books_fault_number self.now }
    {
        match self {
            BooksFault::NotSound => 46,
            BooksFault::NotYet => 47,
        }
    }
}

/// Notes a message sent on the edge.
pub fn sent(outs: &mut [Tally], edge: u64) -> Result<(), BooksFault>
    ensures { (ins : List Tally) → (parent : ℕ)
        → Notes (books_of ins outs.old parent) (books_of ins outs.new parent) true (Sent edge) result }
{
    let Some((slot, tally)) = found(outs, edge) else {
        return Err(BooksFault::NotSound);
    };
    if tally.messages == MESSAGE_LIMIT {
        return Err(BooksFault::NotSound);
    }
    add_message_at(outs, slot);
    Ok(())
}

/// Notes a message received on the edge. It engages a neutral process.
pub fn got(ins: &mut [Tally], parent: &mut u64, edge: u64) -> Result<(), BooksFault>
    ensures { (outs : List Tally)
        → Notes (books_of ins.old outs parent.old) (books_of ins.new outs parent.new) true (Got edge) result }
{
    let Some((slot, tally)) = found(ins, edge) else {
        return Err(BooksFault::NotSound);
    };
    if tally.messages == MESSAGE_LIMIT {
        return Err(BooksFault::NotSound);
    }
    add_message_at(ins, slot);
    if *parent == NEUTRAL {
        *parent = edge;
    }
    Ok(())
}

/// The number of messages of the edge that may be acknowledged now. `passive` says whether the process is passive.
pub fn may_ack(
    ins: &[Tally],
    outs: &[Tally],
    parent: u64,
    edge: u64,
    passive: bool,
) -> Result<u64, BooksFault>
    ensures told { let books = books_of ins.now outs.now parent in
        ReadsBooks books (HasEdge (in_edges books) edge) (λ count. count ≡ may_ack books edge passive) result }
    ensures adds_up { AddsUpForParent ins.now outs.now parent edge result }
{
    let Some((_, tally)) = found(ins, edge) else {
        return Err(BooksFault::NotSound);
    };
    let owed = tally.open();
    if parent != edge {
        return Ok(owed);
    }
    let Some(all_owed) = all_open(ins) else {
        return Err(BooksFault::NotSound);
    };
    let Some(deficit) = all_open(outs) else {
        return Err(BooksFault::NotSound);
    };
    if owed == 0 {
        return Ok(0);
    }
    Ok(may_ack_on_parent(owed, all_owed, deficit, passive))
}

/// Notes that `count` messages of the edge are acknowledged; the tail must not see this earlier. Refuses with `NotYet`
/// if `count` are owed but fewer may be acknowledged now (`may_ack`).
pub fn acked(
    ins: &mut [Tally],
    outs: &[Tally],
    parent: &mut u64,
    edge: u64,
    passive: bool,
    count: u64,
) -> Result<(), BooksFault>
    ensures notes { Notes (books_of ins.old outs.now parent.old) (books_of ins.new outs.now parent.new) passive
        (Acked edge count) result }
    ensures adds_up { AddsUpForParent ins.old outs.now parent.old edge result }
{
    let Some((slot, tally)) = found(ins, edge) else {
        return Err(BooksFault::NotSound);
    };
    if count > tally.open() {
        return Err(BooksFault::NotSound);
    }
    let Ok(most) = may_ack(ins, outs, *parent, edge, passive) else {
        return Err(BooksFault::NotSound);
    };
    if count > most {
        return Err(BooksFault::NotYet);
    }
    add_answers_at(ins, slot, count);
    if *parent == edge && count == tally.open() {
        *parent = NEUTRAL;
    }
    Ok(())
}

/// Notes that the edge's head has acknowledged `word` messages in all, by its latest report or an earlier one. Returns
/// how many of these are new.
pub fn settled(outs: &mut [Tally], edge: u64, word: u64) -> Result<u64, BooksFault>
    ensures { Settling outs.old outs.new edge word result }
{
    settled_within(outs, MESSAGE_LIMIT, edge, word)
}

/// Does the same, but refuses if more than `most` are new.
pub(crate) fn settled_within(
    outs: &mut [Tally],
    most: u64,
    edge: u64,
    word: u64,
) -> Result<u64, BooksFault>
    ensures settles { (AreTallies outs.old → open_on outs.old edge ≤ most) → Settling outs.old outs.new edge word result }
    ensures within { MatchResult result (λ more. more ≤ most) (λ _. outs.new ≡ outs.old) }
{
    let Some((slot, tally)) = found(outs, edge) else {
        return Err(BooksFault::NotSound);
    };
    if word > tally.messages {
        return Err(BooksFault::NotSound);
    }
    let more = word.saturating_sub(tally.answered);
    if more > most {
        return Err(BooksFault::NotSound);
    }
    add_answers_at(outs, slot, more);
    Ok(more)
}

/// The number of acknowledgements the process waits for.
pub fn deficit(outs: &[Tally]) -> Result<u64, BooksFault>
    ensures told { (ins : List Tally) → (parent : ℕ) → let books = books_of ins outs.now parent in
        ReadsBooks books (Unit {0}) (λ count. count ≡ deficit books) result }
    ensures adds_up { AddsUp outs.now result }
{
    match all_open(outs) {
        Some(count) => Ok(count),
        None => Err(BooksFault::NotSound),
    }
}

/// Whether the root may report that the computation is over. `ended` says whether it will send no more.
pub fn is_over(outs: &[Tally], ended: bool) -> Result<bool, BooksFault>
    ensures told { (ins : List Tally) → (parent : ℕ) → let books = books_of ins outs.now parent in
        ReadsBooks books (Unit {0}) (λ over. (IsTrue over ↔ IsTrue ended × (deficit books ≡ 0)) × (IsTrue over → IsOver books ended))
        result }
    ensures adds_up { AddsUp outs.now result }
{
    match all_open(outs) {
        Some(deficit) => Ok(ended && deficit == 0),
        None => Err(BooksFault::NotSound),
    }
}

/// Checks that the books are sound and that no edge has the number `NEUTRAL`.
pub fn check(ins: &[Tally], outs: &[Tally], parent: u64) -> Result<(), BooksFault>
    ensures { MatchResult result (λ _. AreBooks ins.now outs.now parent)
        (λ fault. (fault ≡ NotSound) × (AreBooks ins.now outs.now parent → ⊥)) }
{
    if !are_numbered(ins) {
        return Err(BooksFault::NotSound);
    }
    if !are_numbered(outs) {
        return Err(BooksFault::NotSound);
    }
    if !are_sound(ins) {
        return Err(BooksFault::NotSound);
    }
    if !are_sound(outs) {
        return Err(BooksFault::NotSound);
    }
    if !suits(ins, parent) {
        return Err(BooksFault::NotSound);
    }
    Ok(())
}

/// The slot of an edge and its tally, if the tally is possible.
pub(crate) fn found(tallies: &[Tally], edge: u64) -> Option<(Slot, Tally)>
    ensures { MatchOption result (AreTallies tallies.now → HasEdge (edges_of tallies.now) edge → ⊥)
        (λ r. IsFound tallies.now edge r.0 r.1) }
{
    if edge == NEUTRAL {
        return None;
    }
    let Some(slot) = slot_of(tallies, edge) else {
        return None;
    };
    let tally = tallies[slot.index];
    if is_possible(tally) {
        Some((slot, tally))
    } else {
        None
    }
}

/// Whether at most as many are answered as there are messages, within the limit.
fn is_possible(tally: Tally) -> bool
    ensures { IsTrue result ↔ IsPossible tally }
{
    tally.answered <= tally.messages && tally.messages <= MESSAGE_LIMIT
}

/// The number of open messages on all edges, if all tallies are possible.
pub(crate) fn all_open(tallies: &[Tally]) -> Option<u64>
    ensures { MatchOption result (ArePossible tallies.now → ⊥)
        (λ total. ArePossible tallies.now × (AreTallies tallies.now → total ≡ all_open tallies.now)) }
{
    if tallies.len() > EDGE_LIMIT {
        return None;
    }
    let mut total = 0;
    for &tally in tallies {
        if !is_possible(tally) {
            return None;
        }
        total += tally.open();
    }
    Some(total)
}

/// Whether each tally has the number of an edge.
fn are_numbered(tallies: &[Tally]) -> bool
    ensures { IsTrue result ↔ AreNumbered tallies.now }
{
    tallies.iter().all(|tally| tally.edge != NEUTRAL)
}

/// Whether the tallies of one side are sound.
fn are_sound(tallies: &[Tally]) -> bool
    ensures { IsTrue result ↔ AreTallies tallies.now }
{
    if !ascend(tallies) {
        return false;
    }
    all_open(tallies).is_some()
}

/// Whether the edges ascend.
fn ascend(tallies: &[Tally]) -> bool
    ensures { IsTrue result ↔ IsStrictlyIncreasing (edges_of tallies.now) }
{
    tallies.is_sorted_by(|one, next| one.edge < next.edge)
}

/// Whether something is owed on the parent edge; without a parent edge, whether nothing is owed.
fn suits(ins: &[Tally], parent: u64) -> bool
    requires { AreTallies ins.now }
    ensures { IsTrue result ↔ Suits ins.now (parent_of parent) }
{
    if parent == NEUTRAL {
        return match all_open(ins) {
            Some(owed) => owed == 0,
            None => false,
        };
    }
    match found(ins, parent) {
        Some((_, tally)) => tally.open() > 0,
        None => false,
    }
}
