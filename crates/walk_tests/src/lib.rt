//! Tests of walks: the moves of small groups, one by one. What they are was worked out from the
//! rules of rounds.
#![tactic(auto)]

#[cfg(test)]
mod walks;
