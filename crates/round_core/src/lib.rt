//! Rounds of a group: the parallel phase, the serial phase and the signal point before them.
//! Definitions and their laws.
#![tactic(auto)]

pub mod laws;
