//! The books of a process, as in `chip_library::detector`. A word is false if it is 0, else true.

ghost use Rattle.std.specs.Prelude.{◌≡◌, ℕ, ◌↔◌, true, List, IsTrue, MatchResult};
ghost use Rattle.chip_detect.specs.declared.tallies.Tally.{Tally};
ghost use Rattle.chip_detect.specs.Books.{in_edges, deficit};
ghost use Rattle.chip_detect.specs.Acknowledging.{may_ack};
ghost use Rattle.chip_detect.specs.Steps.{Got, Acked, Sent};
ghost use Rattle.chip_diffusing.specs.Laws.{IsOver};
ghost use Rattle.chip_library.specs.declared.detector.BooksFault.TheVariants.{NotSound};
ghost use Rattle.chip_library.specs.PartBooks.{AreBooks, books_of, HasEdge, Notes, ReadsBooks, Settling, AddsUp, AddsUpForParent};
ghost use Rattle.chip_exports.specs.Status.{Status, status_of, count_of, flag_of, is_true};

use chip_detect::Tally;
use chip_library::detector::{
    BooksFault, acked, check, deficit, got, is_over, may_ack, sent, settled,
};

/// Notes a message sent on the edge (`chip_library::detector::sent`).
#[unsafe(no_mangle)]
pub extern "C" fn chipfire_sent(outs: &mut [Tally], edge: u64) -> u64
    ensures { Status {T = Unit {0}} result (λ done. (ins : List Tally) → (parent : ℕ)
        → Notes (books_of ins outs.old parent) (books_of ins outs.new parent) true (Sent edge) done) }
{
    status(sent(outs, edge))
}

/// Notes a message received on the edge (`chip_library::detector::got`).
#[unsafe(no_mangle)]
pub extern "C" fn chipfire_got(ins: &mut [Tally], parent: &mut u64, edge: u64) -> u64
    ensures { Status {T = Unit {0}} result (λ done. (outs : List Tally)
        → Notes (books_of ins.old outs parent.old) (books_of ins.new outs parent.new) true (Got edge) done) }
{
    status(got(ins, parent, edge))
}

/// Writes how many messages of the edge may be acknowledged now (`chip_library::detector::may_ack`).
#[unsafe(no_mangle)]
pub extern "C" fn chipfire_may_ack(
    ins: &[Tally],
    outs: &[Tally],
    parent: u64,
    edge: u64,
    passive: u64,
    count: &mut u64,
) -> u64
    ensures { let books = books_of ins.now outs.now parent in
        Status result (λ done. ReadsBooks books (HasEdge (in_edges books) edge)
        (λ n. n ≡ may_ack books edge (is_true passive)) done
        × AddsUpForParent ins.now outs.now parent edge done × (count.new ≡ count_of done count.old)) }
{
    told(may_ack(ins, outs, parent, edge, passive != 0), count)
}

/// Notes that messages of the edge are acknowledged (`chip_library::detector::acked`).
#[unsafe(no_mangle)]
pub extern "C" fn chipfire_acked(
    ins: &mut [Tally],
    outs: &[Tally],
    parent: &mut u64,
    edge: u64,
    passive: u64,
    count: u64,
) -> u64
    ensures { Status {T = Unit {0}} result (λ done.
        Notes (books_of ins.old outs.now parent.old) (books_of ins.new outs.now parent.new) (is_true passive) (Acked edge count) done
        × AddsUpForParent ins.old outs.now parent.old edge done) }
{
    status(acked(ins, outs, parent, edge, passive != 0, count))
}

/// Notes how many messages the edge's head has acknowledged in all (`chip_library::detector::settled`).
#[unsafe(no_mangle)]
pub extern "C" fn chipfire_settled(outs: &mut [Tally], edge: u64, word: u64, more: &mut u64) -> u64
    ensures { Status result (λ done. Settling outs.old outs.new edge word done × (more.new ≡ count_of done more.old)) }
{
    told(settled(outs, edge, word), more)
}

/// Writes the number of acknowledgements the process waits for (`chip_library::detector::deficit`).
#[unsafe(no_mangle)]
pub extern "C" fn chipfire_deficit(outs: &[Tally], count: &mut u64) -> u64
    ensures { Status result (λ done. ((ins : List Tally) → (parent : ℕ) → let books = books_of ins outs.now parent in
        ReadsBooks books (Unit {0}) (λ n. n ≡ deficit books) done)
        × AddsUp outs.now done × (count.new ≡ count_of done count.old)) }
{
    told(deficit(outs), count)
}

/// Writes whether the root may report that the computation is over (`chip_library::detector::is_over`).
#[unsafe(no_mangle)]
pub extern "C" fn chipfire_is_over(outs: &[Tally], ended: u64, over: &mut u64) -> u64
    ensures { Status result (λ done. ((ins : List Tally) → (parent : ℕ) → let books = books_of ins outs.now parent in
        ReadsBooks books (Unit {0}) (λ is. (IsTrue is ↔ IsTrue (is_true ended) × (deficit books ≡ 0))
        × (IsTrue is → IsOver books (is_true ended))) done)
        × AddsUp outs.now done × (over.new ≡ flag_of done over.old)) }
{
    match is_over(outs, ended != 0) {
        Ok(is) => {
            *over = u64::from(is);
            0
        }
        Err(fault) => fault.number(),
    }
}

/// Checks that the books are sound, and that no edge has the number `NEUTRAL` (`chip_library::detector::check`).
#[unsafe(no_mangle)]
pub extern "C" fn chipfire_books_check(ins: &[Tally], outs: &[Tally], parent: u64) -> u64
    ensures { Status {T = Unit {0}} result (λ done. MatchResult done (λ _. AreBooks ins.now outs.now parent)
        (λ fault. (fault ≡ NotSound) × (AreBooks ins.now outs.now parent → ⊥))) }
{
    status(check(ins, outs, parent))
}

/// The number of a fault, or 0.
pub(crate) fn status(done: Result<(), BooksFault>) -> u64
    ensures { result ≡ status_of done }
{
    match done {
        Ok(()) => 0,
        Err(fault) => fault.number(),
    }
}

/// The number of a fault; or 0, after writing the count.
pub(crate) fn told(answer: Result<u64, BooksFault>, count: &mut u64) -> u64
    ensures status { result ≡ status_of answer }
    ensures count { count.new ≡ count_of answer count.old }
{
    match answer {
        Ok(n) => {
            *count = n;
            0
        }
        Err(fault) => fault.number(),
    }
}
