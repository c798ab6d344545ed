//! The report of an outcome, written and read, and exact writing.
//!
//! A report is one line of compact JSON (`specs/ReportText.antt`), made whole before its first byte is written. Only
//! reports of outcomes that a game can have are read (`specs/Reportable.antt`).
#![tactic(auto)]

pub use fault::ReportFault;
pub use read::{read_any, read_any_within, read_report, read_report_within};
pub use reportable::is_in;
pub use sink::{LastWrite, Sink};
pub use text::{is_closed, report, report_two};
pub use write::{WriteFault, write_all_of, write_all_to};

mod fault;
pub mod laws;
mod lists;
mod read;
mod reportable;
mod sink;
mod text;
mod write;
