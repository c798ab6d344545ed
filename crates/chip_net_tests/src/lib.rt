//! Nets and crews on threads: what the contracts of `chip_net` and `chip_crew` do not state.
#![tactic(auto)]

#[cfg(test)]
mod crew;
#[cfg(test)]
mod games;
#[cfg(test)]
mod net;
