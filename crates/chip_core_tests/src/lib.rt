//! The core on small games, and floods of small networks: what the contracts of `chip_link`, `chip_detect`,
//! `chip_flooding`, `chip_actor` and `chip_world` do not state.
#![tactic(auto)]

#[cfg(test)]
mod actor;
#[cfg(test)]
mod detect;
#[cfg(test)]
mod floods;
#[cfg(test)]
mod games;
#[cfg(test)]
mod link;
#[cfg(test)]
mod root;
#[cfg(test)]
mod world;
