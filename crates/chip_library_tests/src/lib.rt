//! Calls of `chip_library` worked out by hand: one of each kind, one at each limit of the arguments, and each fault.
#![tactic(auto)]

#[cfg(test)]
mod claims;
#[cfg(test)]
mod detector;
#[cfg(test)]
mod drops;
#[cfg(test)]
mod graphs;
#[cfg(test)]
mod group;
#[cfg(test)]
mod guesses;
#[cfg(test)]
mod kept;
#[cfg(test)]
mod stabilize;
#[cfg(test)]
mod sums;
