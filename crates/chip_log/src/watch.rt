use crate::waits::Waits;

/// Watches how far the judging of claims is, or why there are no verdicts. It returns, and changes no verdict.
pub trait ClaimWatch {
    /// Called before a claim is judged, with its number, from 0, and the number of claims.
    fn judges(&mut self, _claim: usize, _claims: usize) {}

    /// Called if the rows have no order, with processes of which each waits for the next, from that of the fault on.
    fn waits(&mut self, _waits: &Waits) {}
}

/// A watcher that does nothing.
#[derive(Clone, Copy)]
pub struct Unwatched;

impl ClaimWatch for Unwatched {}
