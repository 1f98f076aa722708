//! Worked examples of whole runs, which the checker computes. There is no code here, and nothing
//! stands on it.
#![tactic(auto)]
