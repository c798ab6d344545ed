//! Tests of texts read and written, with expected values from outside: what is not proved of `chip_file`, `chip_report`
//! and `chip_trace`, and of `chip_log`, which judges the logs that are read.
#![tactic(auto)]

#[cfg(test)]
mod claims;
#[cfg(test)]
mod file;
#[cfg(test)]
mod largest;
#[cfg(test)]
mod logs;
#[cfg(test)]
mod report;
#[cfg(test)]
mod runs;
#[cfg(test)]
mod stages;
#[cfg(test)]
mod trace;
#[cfg(test)]
mod writers;
