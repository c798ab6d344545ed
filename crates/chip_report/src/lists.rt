//! The lists of numbers in a text, whether it is a report or not.

ghost use Rattle.std.specs.Prelude.{◌≡◌, ◌≤◌, length, IsUtf8, MatchOption};
ghost use Rattle.chip_report.specs.Reportable.{GivesReport};
ghost use Rattle.chip_report.specs.ReportLists.{first_list, text_after_list, spelled_number, numbers_spelled};
ghost use Rattle.chip_report.specs.ReportLists.{IsNoNumber, IsNoList, HasNoList};

use crate::fault::ReportFault;
use std::alloc::Global;
use std::str;

/// A text whose lists of numbers are taken one after another.
#[derive(Drop)]
pub(crate) struct Lists<'t> {
    /// The rest of the text.
    rest: &'t str,
}

impl<'t> Lists<'t> {
    /// The lists of a text.
    pub(crate) fn new(text: &'t [u8]) -> Result<Lists<'t>, ReportFault>
        ensures { GivesReport (λ lists. lists.rest.now ≡ text.now) (IsUtf8 text.now → ⊥) result }
    {
        match str::from_utf8(text) {
            Ok(rest) => Ok(Lists { rest }),
            Err(_) => Err(ReportFault::NotReport),
        }
    }

    /// Takes the numbers between the next brackets, if there are at most `most`.
    pub(crate) fn take(&mut self, alloc: Global, most: u64) -> Result<Vec<u64>, ReportFault>
        ensures { GivesReport (λ numbers. (numbers.items ≡ numbers_spelled (first_list self.old.rest.now))
            × (self.new.rest.now ≡ text_after_list self.old.rest.now) × (length numbers.items ≤ most))
            (HasNoList most self.old.rest.now) result }
    {
        let Some((_, opened)) = self.rest.split_once('[') else {
            return Err(ReportFault::NotReport);
        };
        let Some((list, rest)) = opened.split_once(']') else {
            return Err(ReportFault::NotReport);
        };
        self.rest = rest;
        numbers_of(alloc, most, list)
    }
}

/// The numbers of a list, if there are at most `most`.
fn numbers_of(alloc: Global, most: u64, list: &str) -> Result<Vec<u64>, ReportFault>
    ensures { GivesReport (λ numbers. (numbers.items ≡ numbers_spelled list.now) × (length numbers.items ≤ most))
        (IsNoList most list.now) result }
{
    let mut numbers = Vec::new(alloc);
    if list.is_empty() {
        return Ok(numbers);
    }
    for digits in list.split(',') {
        if numbers.len() as u64 >= most {
            return Err(ReportFault::NotReport);
        }
        numbers.push(number_of(digits).ok_or(ReportFault::NotReport)?)?;
    }
    Ok(numbers)
}

/// The number that digits spell, if it fits.
fn number_of(digits: &str) -> Option<u64>
    ensures { MatchOption result (IsNoNumber digits.now) (λ number. number ≡ spelled_number digits.now) }
{
    digits.parse::<u64>().ok()
}
