//! Every log of a diffusing computation, written in rows of the judge, is judged right.
//!
//! Nothing runs here. `specs/Rows.antt` defines the rows that the processes of a computation log; `laws` states the
//! judge's verdicts on them, as the contract of a function that does nothing.
#![tactic(auto)]

pub mod laws;
