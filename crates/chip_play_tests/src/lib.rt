//! Games, sequences and plays worked out by hand: what no contract says of `chip_graph`, `chip_sequence` and `chip_fire`.
#![tactic(auto)]

#[cfg(test)]
mod courses;
#[cfg(test)]
mod fire;
#[cfg(test)]
mod games;
#[cfg(test)]
mod given;
#[cfg(test)]
mod graph;
pub mod laws;
#[cfg(test)]
mod rounds;
#[cfg(test)]
mod search;
#[cfg(test)]
mod sequence;
