//! Logs worked out by hand: that they have an order, and the verdicts on their claims.

mod detectors;
mod ends;
mod play;
