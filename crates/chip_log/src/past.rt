//! The causal past of a claim.

ghost use Rattle.std.specs.Prelude.{◌≡◌, ◌^◌, ◌<◌, ◌≤◌, [], length, take, IfOk};
ghost use Rattle.chip_log.specs.Past.{IsInOrder, Fits, IsPlace, IsPastOf, AreSized, AreBooksOf, AreKept};

use crate::books::Books;
use crate::row::LogRow;
use std::alloc::{AllocError, Global};

/// The numbers of processes and channels of a log.
#[derive(Clone, Copy)]
pub struct Sizes {
    pub processes: u32,
    pub channels: u32,
}

/// The place of a claim in an ordered log.
#[derive(Clone, Copy)]
pub(crate) struct ClaimPlace {
    pub(crate) process: u32,
    /// Among the rows of its process.
    pub(crate) row: u32,
    /// Among all rows.
    pub(crate) at: usize,
}

/// The books of the causal past of a claim.
pub(crate) fn past_of(
    alloc: Global,
    sizes: Sizes,
    rows: &[LogRow],
    claim: ClaimPlace,
) -> Result<Books, AllocError>
    requires order { IsInOrder sizes rows.now }
    requires claim { IsPlace rows.now claim }
    ensures { IfOk result (IsPastOf rows.now sizes claim) }
{
    let mut books = Books::new(alloc, sizes, claim.process)?;
    make_all(&mut books, sizes, rows, claim.at);
    look_at_all(&mut books, sizes, rows, claim);
    Ok(books)
}

/// Makes the steps of all rows before a place.
fn make_all(books: &mut Books, sizes: Sizes, rows: &[LogRow], at: usize)
    requires order { IsInOrder sizes rows.now }
    requires place { at ≤ length rows.now }
    requires sized { AreSized sizes books.old }
    requires none { AreBooksOf [] [] books.old }
    ensures claimer { books.new.claimer ≡ books.old.claimer }
    ensures sized { AreSized sizes books.new }
    ensures made { AreBooksOf (take at rows.now) [] books.new }
{
    let mut next = 0;
    while next < at {
        books.make(rows[next].step);
        next += 1;
    }
}

/// Reads all rows before a claim, from the last to the first.
fn look_at_all(books: &mut Books, sizes: Sizes, rows: &[LogRow], claim: ClaimPlace)
    requires order { IsInOrder sizes rows.now }
    requires claim { IsPlace rows.now claim }
    requires claimer { books.old.claimer ≡ claim.process }
    requires sized { AreSized sizes books.old }
    requires made { AreBooksOf (take claim.at rows.now) [] books.old }
    ensures { IsPastOf rows.now sizes claim books.new }
{
    let mut left = claim.at;
    while left > 0 {
        left -= 1;
        books.look(rows[left]);
    }
}

/// The books of all rows of a log.
pub(crate) fn books_of_all(
    alloc: Global,
    sizes: Sizes,
    rows: &[LogRow],
) -> Result<Books, AllocError>
    requires fits { Fits sizes rows.now }
    requires few { length rows.now < 2 ^ 32 }
    ensures sized { IfOk result (AreSized sizes) }
    ensures keeps { IfOk result (AreKept rows.now) }
{
    let mut books = Books::new(alloc, sizes, 0)?;
    let mut left = rows.len();
    while left > 0 {
        left -= 1;
        books.keep(rows[left]);
    }
    Ok(books)
}
