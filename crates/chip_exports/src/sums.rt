//! The books of a process with two sums, as in `chip_library::sums`. A word is false if it is 0, else true.

ghost use Rattle.std.specs.Prelude.{◌≡◌, true, Bool, Ok, MatchResult};
ghost use Rattle.chip_detect.specs.Steps.{Got, Sent};
ghost use Rattle.chip_library.specs.declared.detector.BooksFault.TheVariants.{NotSound};
ghost use Rattle.chip_library.specs.Sums.{summed_of, AreSummed, PointsAlike, Opens, NotesSummed, SettlesSummed, AcknowledgesAll, TellsOver};
ghost use Rattle.chip_exports.specs.Status.{Status, count_of, flag_of, acknowledged_of, is_true};

use crate::detector::{status, told};
use chip_library::sums::SummedBooks;

/// Fills in the sums (`chip_library::sums::SummedBooks::open`).
#[unsafe(no_mangle)]
pub extern "C" fn chipfire_books_open(books: &mut SummedBooks) -> u64
    ensures opens { Status {T = Unit {0}} result (λ done. Opens books.old books.new done) }
    ensures pointers { PointsAlike books.old books.new }
{
    status(books.open())
}

/// Checks that the books are sound and the sums right (`chip_library::sums::SummedBooks::verify`).
#[unsafe(no_mangle)]
pub extern "C" fn chipfire_books_verify(books: &SummedBooks) -> u64
    ensures { Status {T = Unit {0}} result (λ done. MatchResult done (λ _. AreSummed books.now)
        (λ fault. (fault ≡ NotSound) × (AreSummed books.now → ⊥))) }
{
    status(books.verify())
}

/// Notes a message sent on the edge (`chip_library::sums::SummedBooks::sent`).
#[unsafe(no_mangle)]
pub extern "C" fn chipfire_books_sent(books: &mut SummedBooks, edge: u64) -> u64
    ensures notes { Status {T = Unit {0}} result
        (λ done. NotesSummed (summed_of books.old) (summed_of books.new) true (Sent edge) done) }
    ensures pointers { PointsAlike books.old books.new }
{
    status(books.sent(edge))
}

/// Notes a message received on the edge (`chip_library::sums::SummedBooks::got`).
#[unsafe(no_mangle)]
pub extern "C" fn chipfire_books_got(books: &mut SummedBooks, edge: u64) -> u64
    ensures notes { Status {T = Unit {0}} result
        (λ done. NotesSummed (summed_of books.old) (summed_of books.new) true (Got edge) done) }
    ensures pointers { PointsAlike books.old books.new }
{
    status(books.got(edge))
}

/// Acknowledges all messages of the edge that may be acknowledged (`chip_library::sums::SummedBooks::acknowledge`).
#[unsafe(no_mangle)]
pub extern "C" fn chipfire_books_acknowledge(
    books: &mut SummedBooks,
    edge: u64,
    passive: u64,
    count: &mut u64,
    word: &mut u64,
) -> u64
    ensures notes { Status result (λ done.
        AcknowledgesAll (summed_of books.old) (summed_of books.new) edge (is_true passive) done
        × ((count.new, word.new) ≡ acknowledged_of done (count.old, word.old))) }
    ensures pointers { PointsAlike books.old books.new }
{
    match books.acknowledge(edge, passive != 0) {
        Ok(now) => {
            *count = now.count;
            *word = now.so_far;
            0
        }
        Err(fault) => fault.number(),
    }
}

/// Notes how many messages the edge's head has acknowledged in all (`chip_library::sums::SummedBooks::settled`).
#[unsafe(no_mangle)]
pub extern "C" fn chipfire_books_settled(
    books: &mut SummedBooks,
    edge: u64,
    word: u64,
    more: &mut u64,
) -> u64
    ensures settles { Status result (λ done. SettlesSummed (summed_of books.old) (summed_of books.new) edge word done
        × (more.new ≡ count_of done more.old)) }
    ensures pointers { PointsAlike books.old books.new }
{
    told(books.settled(edge, word), more)
}

/// Writes whether the root may report that the computation is over (`chip_library::sums::SummedBooks::is_over`).
#[unsafe(no_mangle)]
pub extern "C" fn chipfire_books_is_over(books: &SummedBooks, ended: u64, over: &mut u64) -> u64
    ensures status { result ≡ 0 }
    ensures over { (is : Bool) × TellsOver (summed_of books.now) (is_true ended) is × (over.new ≡ flag_of (Ok is) over.old) }
{
    *over = u64::from(books.is_over(ended != 0));
    0
}
