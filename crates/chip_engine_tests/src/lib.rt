//! Tests of commands from bytes to bytes: what is not proved of `chip_engine` and `chip_command`.
#![tactic(auto)]

#[cfg(test)]
mod avalanches;
#[cfg(test)]
mod engines;
#[cfg(test)]
mod faults;
#[cfg(test)]
mod watched;
