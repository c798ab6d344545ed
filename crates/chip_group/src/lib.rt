//! Recurrent configurations: the stable ones that can be reached from every position by adding chips and firing.
#![tactic(auto)]

pub mod laws;
